//! The arguments of the program.
ghost use Rattle.std.specs.IoError.{error_kind};
ghost use Rattle.rr_top.specs.Arguments.{SaysWhyNone, Takes};

use rr_endings::{Report, no_usage, out_of_memory};
use std::alloc::Global;
use std::env;
use std::io::{self, ErrorKind};

/// The arguments in their order, of which the first is the program's own name; or the report that they
/// are not had: want of memory, and usage for every other error, as where one is no UTF-8.
pub fn arguments<'a>(alloc: Global, found: io::Result<env::Args>) -> Result<Vec<String>, Report<'a>>
    ensures { Takes found result }
{
    let args = match found {
        Ok(args) => args,
        Err(error) => return Err(unread(&error)),
    };
    let mut words = Vec::new(alloc);
    for word in args {
        match words.push(word) {
            Ok(()) => {}
            Err(_) => return Err(out_of_memory(0)),
        }
    }
    Ok(words)
}

/// Why there are no arguments.
fn unread<'a>(error: &io::Error) -> Report<'a>
    ensures { SaysWhyNone (error_kind error.now) result }
{
    if error.kind() == ErrorKind::OutOfMemory {
        out_of_memory(0)
    } else {
        no_usage()
    }
}
