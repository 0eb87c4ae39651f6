//! The records of a text, one after another.
ghost use Rattle.std.specs.Prelude.{◌≡◌, List, IfOk, OnOk};
ghost use Rattle.csv.specs.Records.{fields_of};
ghost use Rattle.rr_trace.specs.Coming.{IsComing, Follows};
ghost use Rattle.rr_trace.specs.Names.{Text};
ghost use Rattle.rr_trace.specs.Tables.{records_of};

use csv::{ByteRecord, Reader, ReaderBuilder};
use std::alloc::{AllocError, Global};

/// A reader of all records of a text, of any lengths and as they are.
pub(crate) fn records(alloc: Global, text: &[u8]) -> Reader<&[u8]>
    ensures { IsComing result (records_of text.now) }
{
    ReaderBuilder::new()
        .has_headers(false)
        .flexible(true)
        .from_reader(alloc, text)
}

/// Reads the next record, and answers whether there is one.
pub(crate) fn next(reader: &mut Reader<&[u8]>, fields: &mut ByteRecord) -> Result<bool, AllocError>
    ensures { (coming : List (List Text)) → IsComing reader.old coming → IfOk result (λ found. Follows found (fields_of fields.new) reader.new coming) }
{
    match reader.read_byte_record(fields) {
        Ok(found) => Ok(found),
        Err(_) => Err(AllocError),
    }
}
