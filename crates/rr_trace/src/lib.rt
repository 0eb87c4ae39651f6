//! Tables of inputs and expected outputs, as comma-separated values (RFC 4180, as `csv` reads it). It
//! is right where the table is that of the bytes for the ports of a flat design's top, or the fault
//! its first one. It stands on `rr_flat`'s designs.
#![tactic(auto)]

mod cell;
mod fault;
mod header;
mod miss;
mod names;
mod ports;
mod records;
mod rows;
mod table;
mod write;

pub use cell::Cell;
pub use fault::TableFault;
pub use miss::Miss;
pub use rr_flat::Limit;
pub use table::{Table, read_table};
pub use write::write_table;
