//! Value change dumps as text (IEEE 1364-2005 section 18.2): the declarations of a dump, and what its
//! body tells, one construct after the other. It is right where all of them are those of the one dump
//! that the words of the text are, or the line is that at which they break its form. It stands on no
//! other crate.
#![tactic(auto)]

mod body;
mod cut;
mod declared;
mod fault;
mod head;
mod laws;
mod number;
mod rooms;
mod words;

pub use body::{Changes, Told};
pub use declared::{Declared, Variable};
pub use fault::DumpFault;
pub use head::{Dump, read_head};
pub use laws::one_reading;
