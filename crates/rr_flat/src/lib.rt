//! Flat designs as data (IEEE 1364-2005 section 12): signals, drivers, blocks and scopes of all
//! instances, the faults for want of one, and what is said of them: their reading and writing of
//! bits, the laws, and the order of steps. It stands on `rr_expr` alone; `rr_flatten` makes flat
//! designs of sources, and the crates of laws and cycles read them.
#![tactic(auto)]

mod design;
mod fault;
mod first;
mod laws;
mod reading;
mod signal;

pub use design::{Block, Driver, Flat, Initial, Order, Part, Side, Step, number_of};
pub use fault::{FlatFault, Limit};
pub use first::{earlier, earliest, note, note_earliest, note_if, sooner_of};
pub use laws::order_laws;
pub use reading::is_constant;
pub use rr_expr::Bit;
pub use signal::{Port, Signal};
