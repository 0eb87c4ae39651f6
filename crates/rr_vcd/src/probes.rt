//! The ports of the top in the chosen scope.
ghost use Rattle.std.specs.Prelude.{◌≡◌, ◌≤◌, map, All, IfOk};
ghost use Rattle.rr_vcd_text.specs.Dump.{Declared as PlainDeclared};
ghost use Rattle.rr_vcd.specs.View.{plain_port, plain_top, plain_probe, probe_in, ArePlaces, AreProbes, AreNarrow, AreWidths, IsWidth};

use crate::places::Places;
use crate::ports::{Port, Top};
use std::alloc::{AllocError, Global};

/// A port by the identifier of its variable, where the scope has one, and its number of bits.
#[derive(Clone, Copy)]
pub(crate) struct Probe<'a> {
    pub(crate) id: Option<&'a [u8]>,
    pub(crate) width: u32,
}

#[derive(Clone, Copy)]
pub(crate) struct ClockProbe<'a> {
    pub(crate) probe: Probe<'a>,
    pub(crate) rising: bool,
}

/// The clock, the other inputs and the outputs, in port order.
#[derive(Drop)]
pub(crate) struct Probes<'a> {
    pub(crate) clock: Option<ClockProbe<'a>>,
    pub(crate) inputs: Vec<Probe<'a>>,
    pub(crate) outputs: Vec<Probe<'a>>,
}

fn probe_of<'a>(places: &Places<'a>, scope: u32, port: Port) -> Probe<'a>
    ensures probe { (d : PlainDeclared) → ArePlaces d.variables places.now → plain_probe result ≡ probe_in d scope (plain_port port.entry) }
    ensures width { result.width ≡ port.entry.width }
{
    Probe {
        id: places.find(scope, port),
        width: port.width,
    }
}

fn probes_of<'a>(
    alloc: Global,
    places: &Places<'a>,
    scope: u32,
    ports: &[Port],
) -> Result<Vec<Probe<'a>>, AllocError>
    requires { All (λ p. IsWidth p.width) ports.now }
    ensures probes { (d : PlainDeclared) → ArePlaces d.variables places.now → IfOk result (λ v. map plain_probe v.items ≡ map (probe_in d scope) (map plain_port ports.now)) }
    ensures widths { IfOk result (λ v. All (λ x. x.width ≤ 128) v.items) }
{
    let mut probes = Vec::new(alloc);
    for &port in ports.iter() {
        probes.push(probe_of(places, scope, port))?;
    }
    Ok(probes)
}

impl<'a> Probes<'a> {
    /// The ports of a top in a scope.
    pub(crate) fn of(
        alloc: Global,
        places: &Places<'a>,
        scope: u32,
        top: &Top,
    ) -> Result<Probes<'a>, AllocError>
        requires { AreWidths top.now }
        ensures probes { (d : PlainDeclared) → ArePlaces d.variables places.now → IfOk result (AreProbes (plain_top top.now) d scope) }
        ensures widths { IfOk result AreNarrow }
    {
        let clock = match top.clock {
            Some(clock) => Some(ClockProbe {
                probe: probe_of(places, scope, clock.port),
                rising: clock.rising,
            }),
            None => None,
        };
        Ok(Probes {
            clock,
            inputs: probes_of(alloc, places, scope, top.inputs.as_slice())?,
            outputs: probes_of(alloc, places, scope, top.outputs.as_slice())?,
        })
    }
}
