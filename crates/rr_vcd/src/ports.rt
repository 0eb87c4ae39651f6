//! The ports of the top.
ghost use Rattle.std.specs.Prelude.{◌≡◌, map, All, IfOk};
ghost use Rattle.rr_flat.specs.View.{plain_flat};
ghost use Rattle.rr_vcd.specs.Tops.{port_of as port_of_id, top_of as top_of_flat};
ghost use Rattle.rr_vcd.specs.View.{AreWidths, IsWidth, plain_port, plain_top};

use rr_flat::{Flat, Order};
use std::alloc::{AllocError, Global};

/// A port, by its name and its number of bits.
#[derive(Clone, Copy)]
pub(crate) struct Port<'f> {
    pub(crate) name: &'f [u8],
    pub(crate) width: u32,
}

/// The clock, and whether its edges go up.
#[derive(Clone, Copy)]
pub(crate) struct Clock<'f> {
    pub(crate) port: Port<'f>,
    pub(crate) rising: bool,
}

/// The ports of the top, in order: every input, the clock among them; the clock; the inputs but the
/// clock; and the outputs.
#[derive(Drop)]
pub(crate) struct Top<'f> {
    pub(crate) every: Vec<Port<'f>>,
    pub(crate) clock: Option<Clock<'f>>,
    pub(crate) inputs: Vec<Port<'f>>,
    pub(crate) outputs: Vec<Port<'f>>,
}

fn port_of<'f>(flat: &Flat<'f>, id: u32) -> Port<'f>
    ensures port { plain_port result ≡ port_of_id (plain_flat flat.now) id }
    ensures width { IsWidth result.width }
{
    match flat.signal(id) {
        Some(signal) => Port {
            name: signal.name.as_bytes(),
            width: signal.width,
        },
        None => Port {
            name: &[],
            width: 1,
        },
    }
}

fn ports_at<'f>(alloc: Global, flat: &Flat<'f>, ids: &[u32]) -> Result<Vec<Port<'f>>, AllocError>
    ensures ports { IfOk result (λ v. map plain_port v.items ≡ map (port_of_id (plain_flat flat.now)) ids.now) }
    ensures widths { IfOk result (λ v. All (λ x. IsWidth x.width) v.items) }
{
    let mut ports = Vec::new(alloc);
    for &id in ids.iter() {
        ports.push(port_of(flat, id))?;
    }
    Ok(ports)
}

/// The ports of the top of a flat design with this clock.
pub(crate) fn top_of<'f>(
    alloc: Global,
    flat: &Flat<'f>,
    order: &Order,
) -> Result<Top<'f>, AllocError>
    ensures ports { IfOk result (λ t. plain_top t ≡ top_of_flat (plain_flat flat.now) order.now.clock order.now.rising) }
    ensures widths { IfOk result AreWidths }
{
    let every = ports_at(alloc, flat, flat.inputs.as_slice())?;
    let numbers = flat.row_inputs(alloc, order.clock)?;
    let inputs = ports_at(alloc, flat, numbers.as_slice())?;
    let outputs = ports_at(alloc, flat, flat.outputs.as_slice())?;
    let clock = match order.clock {
        Some(id) => Some(Clock {
            port: port_of(flat, id),
            rising: order.rising,
        }),
        None => None,
    };
    Ok(Top {
        every,
        clock,
        inputs,
        outputs,
    })
}
