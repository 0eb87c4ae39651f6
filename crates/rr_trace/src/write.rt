//! Tables as texts.
ghost use Rattle.std.specs.Prelude.{◌≡◌, ◌++◌, ◌∷◌, [], Some, IfOk, OnOk, false, map, decimal};
ghost use Rattle.std.specs.Io.KnownBytes.{Appends};
ghost use Rattle.csv.specs.Records.{fields_of, partial_of};
ghost use Rattle.csv.specs.Writing.{fields_written, has_written, row_text, writer_setup, text_written};
ghost use Rattle.rr_flat.specs.View.{plain_flat};
ghost use Rattle.rr_trace.specs.Tops.{ports_of};
ghost use Rattle.rr_trace.specs.View.{plain_ports, plain_table, plain_values};
ghost use Rattle.rr_trace.specs.Written.{fields_at, layout, table_text};

use crate::miss::values_at;
use crate::ports::{Port, Ports};
use crate::table::Table;
use csv::{ByteRecord, Writer, WriterBuilder};
use itoa::Buffer;
use rr_flat::Flat;
use std::alloc::{AllocError, Global};

/// Writes one record to a writer that stands between two.
fn write_record(writer: &mut Writer<Vec<u8>>, line: &ByteRecord) -> Result<(), AllocError>
    requires fields { fields_written writer.old ≡ 0 }
    requires wrote { has_written writer.old ≡ false }
    requires setup { writer_setup writer.old ≡ layout }
    ensures text { OnOk result (Appends (text_written (λ v. Some v.items) writer.old) (text_written (λ v. Some v.items) writer.new) (row_text layout (fields_of line.now))) }
    ensures fields { OnOk result (fields_written writer.new ≡ 0) }
    ensures wrote { OnOk result (has_written writer.new ≡ false) }
    ensures setup { OnOk result (writer_setup writer.new ≡ layout) }
{
    writer.write_byte_record(line).map_err(|_| AllocError)
}

/// Puts the names of ports behind the fields of a record.
fn put_names(line: &mut ByteRecord, ports: &[Port]) -> Result<(), AllocError>
    requires { partial_of line.old ≡ [] }
    ensures fields { OnOk result (fields_of line.new ≡ fields_of line.old ++ map (λ x. x.name.now) ports.now) }
    ensures partial { OnOk result (partial_of line.new ≡ []) }
{
    for port in ports.iter() {
        line.push_field(port.name)?;
    }
    Ok(())
}

/// Puts values in decimal behind the fields of a record.
fn put_values(line: &mut ByteRecord, values: &[u128]) -> Result<(), AllocError>
    requires { partial_of line.old ≡ [] }
    ensures fields { OnOk result (fields_of line.new ≡ fields_of line.old ++ map decimal values.now) }
    ensures partial { OnOk result (partial_of line.new ≡ []) }
{
    for value in values.iter() {
        put_value(line, *value)?;
    }
    Ok(())
}

fn put_value(line: &mut ByteRecord, value: u128) -> Result<(), AllocError>
    requires { partial_of line.old ≡ [] }
    ensures fields { OnOk result (fields_of line.new ≡ fields_of line.old ++ (decimal value ∷ [])) }
    ensures partial { OnOk result (partial_of line.new ≡ []) }
{
    let mut buffer = Buffer::new();
    line.push_field(buffer.format(value).as_bytes())
}

/// The names of the inputs but the clock and then of the outputs, as a record.
fn header_of(alloc: Global, ports: &Ports) -> Result<ByteRecord, AllocError>
    ensures fields { IfOk result (λ row. fields_of row ≡ map (λ x. x.name.now) ports.now.inputs.items ++ map (λ x. x.name.now) ports.now.outputs.items) }
    ensures partial { IfOk result (λ row. partial_of row ≡ []) }
{
    let mut record = ByteRecord::new(alloc);
    put_names(&mut record, ports.inputs.as_slice())?;
    put_names(&mut record, ports.outputs.as_slice())?;
    Ok(record)
}

/// The values of the inputs and then of the outputs of a row, in place of the fields that were there.
fn put_row(
    line: &mut ByteRecord,
    inputs: &[Vec<u128>],
    outputs: &[Vec<u128>],
    row: usize,
) -> Result<(), AllocError>
    requires { partial_of line.old ≡ [] }
    ensures fields { OnOk result (fields_of line.new ≡ fields_at (plain_values inputs.now) (plain_values outputs.now) row) }
    ensures partial { OnOk result (partial_of line.new ≡ []) }
{
    line.clear();
    put_values(line, values_at(inputs, row))?;
    put_values(line, values_at(outputs, row))
}

/// The text of the names and of as many rows as there are of inputs.
fn text_of(
    alloc: Global,
    ports: &Ports,
    inputs: &[Vec<u128>],
    outputs: &[Vec<u128>],
) -> Result<Vec<u8>, AllocError>
    ensures { IfOk result (λ text. text.items ≡ table_text (plain_ports ports.now) (plain_values inputs.now) (plain_values outputs.now)) }
{
    let mut writer = WriterBuilder::new()
        .flexible(true)
        .from_writer(Vec::new(alloc));
    let mut record = header_of(alloc, ports)?;
    write_record(&mut writer, &record)?;
    for row in 0..inputs.len() {
        put_row(&mut record, inputs, outputs, row)?;
        write_record(&mut writer, &record)?;
    }
    match writer.into_inner() {
        Ok(text) => Ok(text),
        Err(_) => Err(AllocError),
    }
}

/// The text of a table with these outputs, which has the inputs without the clock and then the outputs,
/// in port order, a row for each cycle with every cell in decimal, as comma-separated values whose
/// lines end in LF (RFC 4180). The rows of inputs are as many as the rows of outputs.
pub fn write_table(
    alloc: Global,
    flat: &Flat,
    clock: Option<u32>,
    table: &Table,
    outputs: &[Vec<u128>],
) -> Result<Vec<u8>, AllocError>
    ensures { IfOk result (λ text. text.items ≡ table_text (ports_of (plain_flat flat.now) clock) (plain_table table.now).inputs (plain_values outputs.now)) }
{
    let ports = Ports::of(alloc, flat, clock)?;
    text_of(alloc, &ports, table.inputs.as_slice(), outputs)
}
