//! The header of a table: which ports its columns name.
ghost use Rattle.std.specs.Prelude.{◌≡◌, ℕ, ◌<◌, ◌^◌, ◌++◌, ◌∷◌, [], List, length, map, drop, get_or, Option, is_some, IfOk, OnOk, MatchResult, Ok};
ghost use Rattle.std.specs.List.{prefix_len};
ghost use Rattle.csv.specs.Records.{fields_of};
ghost use Rattle.rr_trace.specs.Names.{Text, number_of, numbered};
ghost use Rattle.rr_trace.specs.Columns.{is_blank as is_blank_of, trimmed as trimmed_of, without_end as without_end_of, column as column_of, columns as columns_of, only_once, place as place_of, input_places as input_places_of, header as header_of};
ghost use Rattle.rr_trace.specs.View.{Refuses, plain_port, plain_ports, plain_header, SameNumbers, ArePorts, IsHeader};

use crate::fault::TableFault;
use crate::names::Numbers;
use crate::ports::Ports;
use csv::ByteRecord;
use std::alloc::{AllocError, Global};

/// The columns of a table by their numbers of bits, `None` where a column is not read; the column of
/// each input, and that of each output that has one, in port order.
#[derive(Drop)]
pub(crate) struct Header {
    pub(crate) widths: Vec<Option<u32>>,
    pub(crate) inputs: Vec<u32>,
    pub(crate) outputs: Vec<Option<u32>>,
}

#[derive(Drop)]
struct Columns<'r> {
    widths: Vec<Option<u32>>,
    numbers: Numbers<'r>,
}

fn is_blank(byte: u8) -> bool
    ensures { result ≡ is_blank_of byte }
{
    byte == b' ' || byte == b'\t'
}

/// A field without the blanks and tabs at its ends.
pub(crate) fn trimmed(field: &[u8]) -> &[u8]
    ensures { result.now ≡ trimmed_of field.now }
{
    without_end(without_start(field))
}

fn without_start(field: &[u8]) -> &[u8]
    ensures { result.now ≡ drop (prefix_len (λ c. is_blank_of c) field.now) field.now }
{
    for (at, &byte) in field.iter().enumerate() {
        if !is_blank(byte) {
            return &field[at..];
        }
    }
    &field[field.len()..]
}

fn without_end(field: &[u8]) -> &[u8]
    ensures { result.now ≡ without_end_of field.now }
{
    let mut end = field.len();
    while end > 0 && is_blank(field[end - 1]) {
        end -= 1;
    }
    &field[..end]
}

/// The field at a place.
pub(crate) fn field(fields: &ByteRecord, at: usize) -> &[u8]
    requires { at < length (fields_of fields.now) }
    ensures { result.now ≡ get_or (fields_of fields.now) at [] }
{
    match fields.get(at) {
        Some(field) => field,
        None => unreachable!(),
    }
}

impl<'r> Columns<'r> {
    /// One more column.
    fn add(&mut self, ports: &Ports, at: u32, name: &'r [u8]) -> Result<(), TableFault>
        requires { ArePorts ports.now }
        ensures { MatchResult result
            (λ _. (w : Option ℕ) × (only_once at (is_some (number_of name.now self.old.numbers)) (column_of (plain_ports ports.now) name.now) ≡ Ok w)
            × (self.new.widths.items ≡ self.old.widths.items ++ w ∷ []) × SameNumbers self.new.numbers (self.old.numbers ++ (name.now, at) ∷ []))
            (Refuses (only_once at (is_some (number_of name.now self.old.numbers)) (column_of (plain_ports ports.now) name.now))) }
    {
        let width = match ports.column(name) {
            None => return Err(TableFault::UnknownColumn(at)),
            Some(width) => width,
        };
        if self.numbers.find(name).is_some() {
            return Err(TableFault::ColumnTwice(at));
        }
        self.numbers.add(name, at)?;
        self.widths.push(width)?;
        Ok(())
    }
}

/// The columns' numbers of bits, and the numbers of their names.
fn read_columns<'r>(
    alloc: Global,
    ports: &Ports,
    fields: &'r ByteRecord,
) -> Result<Columns<'r>, TableFault>
    requires { ArePorts ports.now }
    ensures widths { MatchResult result
        (λ c. columns_of (plain_ports ports.now) [] (map trimmed_of (fields_of fields.now)) ≡ Ok c.widths.items)
        (Refuses (columns_of (plain_ports ports.now) [] (map trimmed_of (fields_of fields.now)))) }
    ensures numbers { IfOk result (λ c. SameNumbers c.numbers (numbered 0 (map trimmed_of (fields_of fields.now)))) }
    ensures few { OnOk result (length (fields_of fields.now) < 2 ^ 32) }
{
    // Numbers of columns have 32 bits: a header of more would take 4 GiB.
    if fields.len() > u32::MAX as usize {
        return Err(TableFault::Memory);
    }
    let mut columns = Columns {
        widths: Vec::new(alloc),
        numbers: Numbers::new(alloc),
    };
    for at in 0..fields.len() {
        columns.add(ports, at as u32, trimmed(field(fields, at)))?;
    }
    Ok(columns)
}

/// The column of each input.
fn input_places(alloc: Global, ports: &Ports, columns: &Numbers) -> Result<Vec<u32>, TableFault>
    ensures { (names : List Text) → SameNumbers columns.now (numbered 0 names) → MatchResult result
        (λ places. input_places_of (plain_ports ports.now) names (map plain_port ports.now.inputs.items) ≡ Ok places.items)
        (Refuses (input_places_of (plain_ports ports.now) names (map plain_port ports.now.inputs.items))) }
{
    let mut places = Vec::new(alloc);
    for &port in ports.inputs.iter() {
        match ports.place(columns, port) {
            Some(place) => places.push(place)?,
            None => return Err(TableFault::MissingInput(port.id)),
        }
    }
    Ok(places)
}

/// The column of each output that has one.
fn output_places(
    alloc: Global,
    ports: &Ports,
    columns: &Numbers,
) -> Result<Vec<Option<u32>>, AllocError>
    ensures { (names : List Text) → SameNumbers columns.now (numbered 0 names)
        → IfOk result (λ places. places.items ≡ map (place_of (plain_ports ports.now) names) (map plain_port ports.now.outputs.items)) }
{
    let mut places = Vec::new(alloc);
    for &port in ports.outputs.iter() {
        places.push(ports.place(columns, port))?;
    }
    Ok(places)
}

/// The header that these fields write.
pub(crate) fn read_header(
    alloc: Global,
    ports: &Ports,
    fields: &ByteRecord,
) -> Result<Header, TableFault>
    requires { ArePorts ports.now }
    ensures value { MatchResult result
        (λ h. header_of (plain_ports ports.now) (fields_of fields.now) ≡ Ok (plain_header h))
        (Refuses (header_of (plain_ports ports.now) (fields_of fields.now))) }
    ensures sound { IfOk result (λ h. IsHeader (plain_header h)) }
    ensures count { IfOk result (λ h. length h.widths.items ≡ length (fields_of fields.now)) }
{
    let columns = read_columns(alloc, ports, fields)?;
    let inputs = input_places(alloc, ports, &columns.numbers)?;
    let outputs = output_places(alloc, ports, &columns.numbers)?;
    Ok(Header {
        widths: columns.widths,
        inputs,
        outputs,
    })
}
