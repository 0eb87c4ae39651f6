//! The ports of the top that a table speaks of.
ghost use Rattle.std.specs.Prelude.{◌≡◌, ◌++◌, List, map, option_map, All, IfOk, OnOk};
ghost use Rattle.rr_trace.specs.Names.{Text, numbered};
ghost use Rattle.rr_trace.specs.Columns.{is_name as is_name_of, is_unread as is_unread_of, column as column_of, place as place_of};
ghost use Rattle.rr_flat.specs.View.{plain_flat};
ghost use Rattle.rr_trace.specs.Tops.{port_of as port_of_id, ports_of};
ghost use Rattle.rr_trace.specs.View.{SameNumbers, ArePorts, IsWidth, plain_port, plain_ports};

use crate::names::Numbers;
use rr_flat::Flat;
use std::alloc::{AllocError, Global};

/// A port, by the number of its signal, its name and its number of bits.
#[derive(Clone, Copy)]
pub(crate) struct Port<'f> {
    pub(crate) id: u32,
    pub(crate) name: &'f [u8],
    pub(crate) width: u32,
}

/// The ports of the top, in order: the name of the clock, the other inputs, and the outputs; and the
/// numbers of bits by name.
#[derive(Drop)]
pub(crate) struct Ports<'f> {
    pub(crate) clock: Option<&'f [u8]>,
    pub(crate) inputs: Vec<Port<'f>>,
    pub(crate) outputs: Vec<Port<'f>>,
    pub(crate) widths: Numbers<'f>,
}

fn is_name(found: Option<&[u8]>, name: &[u8]) -> bool
    ensures { result ≡ is_name_of (option_map (λ t. t.now) found.entry) name.now }
{
    match found {
        Some(found) => name == found,
        None => false,
    }
}

fn port_of<'f>(flat: &Flat<'f>, id: u32) -> Port<'f>
    ensures port { plain_port result ≡ port_of_id (plain_flat flat.now) id }
    ensures width { IsWidth result.width }
{
    match flat.signal(id) {
        Some(signal) => Port {
            id,
            name: signal.name.as_bytes(),
            width: signal.width,
        },
        None => Port {
            id,
            name: &[],
            width: 1,
        },
    }
}

fn ports_at<'f>(alloc: Global, flat: &Flat<'f>, ids: &[u32]) -> Result<Vec<Port<'f>>, AllocError>
    ensures ports { IfOk result (λ v. map plain_port v.items ≡ map (port_of_id (plain_flat flat.now)) ids.now) }
    ensures widths { IfOk result (λ v. All (λ x. IsWidth x.width) v.items) }
{
    let mut ports = Vec::new(alloc);
    for &id in ids.iter() {
        ports.push(port_of(flat, id))?;
    }
    Ok(ports)
}

/// Gives each name its number of bits, if it has none.
fn add_widths<'f>(widths: &mut Numbers<'f>, ports: &[Port<'f>]) -> Result<(), AllocError>
    ensures { OnOk result (SameNumbers widths.new (widths.old ++ map (λ x. (x.name.now, x.width)) ports.now)) }
{
    for port in ports.iter() {
        widths.add(port.name, port.width)?;
    }
    Ok(())
}

impl<'f> Ports<'f> {
    /// The ports of the top of a flat design with this clock.
    pub(crate) fn of(
        alloc: Global,
        flat: &Flat<'f>,
        clock: Option<u32>,
    ) -> Result<Ports<'f>, AllocError>
        ensures ports { IfOk result (λ p. plain_ports p ≡ ports_of (plain_flat flat.now) clock) }
        ensures sound { IfOk result ArePorts }
    {
        let numbers = flat.row_inputs(alloc, clock)?;
        let inputs = ports_at(alloc, flat, numbers.as_slice())?;
        let outputs = ports_at(alloc, flat, flat.outputs.as_slice())?;
        let mut widths = Numbers::new(alloc);
        add_widths(&mut widths, inputs.as_slice())?;
        add_widths(&mut widths, outputs.as_slice())?;
        let clock = match clock {
            Some(id) => Some(flat.signal_name(id).as_bytes()),
            None => None,
        };
        Ok(Ports {
            clock,
            inputs,
            outputs,
            widths,
        })
    }

    /// A column that is not read: `time`, and that of the clock.
    pub(crate) fn is_unread(&self, name: &[u8]) -> bool
        ensures { result ≡ is_unread_of (plain_ports self.now) name.now }
    {
        name == b"time".as_slice() || is_name(self.clock, name)
    }

    /// The number of bits of a column, where it is read; `None` where the name is that of no port.
    pub(crate) fn column(&self, name: &[u8]) -> Option<Option<u32>>
        requires { ArePorts self.now }
        ensures { result ≡ column_of (plain_ports self.now) name.now }
    {
        if self.is_unread(name) {
            return Some(None);
        }
        match self.widths.find(name) {
            Some(width) => Some(Some(width)),
            None => None,
        }
    }

    /// The column of a port, where it has one.
    pub(crate) fn place(&self, columns: &Numbers, port: Port) -> Option<u32>
        ensures { (names : List Text) → SameNumbers columns.now (numbered 0 names) → result ≡ place_of (plain_ports self.now) names (plain_port port.entry) }
    {
        if self.is_unread(port.name) {
            return None;
        }
        columns.find(port.name)
    }
}
