//! Commands that meet faults, limits and worked examples, over shelves and streams in memory, as a user of
//! the program meets them.

mod designs;
mod examples;
mod faults;
mod files;
mod limits;
mod made;
