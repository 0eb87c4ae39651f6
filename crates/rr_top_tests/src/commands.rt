//! Commands one after the other on one shelf: a repair, then the check of its certificate, or the run of what
//! it printed.

pub(crate) mod designs;
mod rounds;
mod spent;
