//! The table that is sampled from a value change dump (IEEE 1364-2005 section 18.2) for the ports of a
//! flat design's top. It is right where the table has a row for each edge of the clock, with the values
//! before it, as the one dump of the bytes tells them; or the fault is the one that there is. It stands
//! on `rr_vcd_text`'s dumps and `rr_trace`'s tables.
#![tactic(auto)]

mod cell;
mod fault;
mod laws;
mod places;
mod ports;
mod probes;
mod read;
mod sampler;
mod slots;

pub use fault::VcdFault;
pub use laws::one_sample;
pub use read::read_vcd;
pub use rr_flat::Limit;
pub use rr_trace::Table;
