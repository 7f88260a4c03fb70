//! An answer as CSV: a record of the heads, and one for each row.

ghost use Rattle.std.specs.Prelude.{◌≡◌, [], ◌∷◌, IfOk, OnOk};
ghost use Rattle.std.specs.Io.KnownBytes.{Appends};
ghost use Rattle.csv.specs.Records.{fields_of};
ghost use Rattle.csv.specs.Writing.{row_text, text_written};
ghost use Rattle.ssb_formats.specs.CsvText.{IsBetween, csv_records, csv_setup, csv_text};

use crate::cells::{head_cells, row_cells};
use csv::{ByteRecord, Writer, WriterBuilder};
use ssb_answers::ResultRow;
use ssb_questions::{Plan, Query};
use ssb_schema::{Items, Text};
use std::alloc::{AllocError, Global};
use std::io::Write;

// Makes the cells the fields of a record.
fn fill(record: &mut ByteRecord, cells: &[Text]) -> Result<(), AllocError>
    ensures { OnOk result (fields_of record.new ≡ cells.now) }
{
    record.clear();
    for cell in cells {
        record.push_field(cell.as_str().as_bytes())?;
    }
    Ok(())
}

// Writes a record of the cells.
fn write_cells<W: Write + Drop>(
    writer: &mut Writer<W>,
    record: &mut ByteRecord,
    cells: &[Text],
) -> Result<(), AllocError>
    requires { IsBetween writer.old }
    ensures text { OnOk result (Appends (text_written W.contents writer.old) (text_written W.contents writer.new)
        (row_text csv_setup cells.now)) }
    ensures between { OnOk result (IsBetween writer.new) }
{
    fill(record, cells)?;
    match writer.write_byte_record(record) {
        Ok(()) => Ok(()),
        Err(_) => Err(AllocError),
    }
}

/// The text of rows as CSV.
pub(crate) fn csv_text(
    alloc: Global,
    query: Query,
    plan: &Plan,
    rows: &[ResultRow],
) -> Result<Vec<u8>, AllocError>
    ensures { IfOk result (λ text. text.items ≡ csv_text query plan.now rows.now) }
{
    let mut writer = WriterBuilder::new()
        .flexible(true)
        .from_writer(Vec::new(alloc));
    let mut record = ByteRecord::new(alloc);
    let heads = head_cells(alloc, query, plan)?;
    write_cells(&mut writer, &mut record, heads.as_slice())?;
    for row in rows {
        let cells = row_cells(alloc, query, row)?;
        write_cells(&mut writer, &mut record, cells.as_slice())?;
    }
    match writer.into_inner() {
        Ok(text) => Ok(text),
        Err(_) => Err(AllocError),
    }
}

/// A record of the heads, and one for each row.
pub(crate) fn csv_records(
    alloc: Global,
    heads: &[Text],
    rows: &[Items<Text>],
) -> Result<Vec<u8>, AllocError>
    ensures { IfOk result (λ text. text.items ≡ csv_records heads.now rows.now) }
{
    let mut writer = WriterBuilder::new()
        .flexible(true)
        .from_writer(Vec::new(alloc));
    let mut record = ByteRecord::new(alloc);
    write_cells(&mut writer, &mut record, heads)?;
    for row in rows {
        write_cells(&mut writer, &mut record, row.as_slice())?;
    }
    match writer.into_inner() {
        Ok(text) => Ok(text),
        Err(_) => Err(AllocError),
    }
}

/// A record of a title alone.
pub(crate) fn title_record(alloc: Global, title: &Text) -> Result<Vec<u8>, AllocError>
    ensures { IfOk result (λ text. text.items ≡ row_text csv_setup (title.now ∷ [])) }
{
    let mut writer = WriterBuilder::new()
        .flexible(true)
        .from_writer(Vec::new(alloc));
    let mut record = ByteRecord::new(alloc);
    let mut cells = Vec::new(alloc);
    cells.push(Text::from_str(alloc, title.as_str())?)?;
    write_cells(&mut writer, &mut record, cells.as_slice())?;
    match writer.into_inner() {
        Ok(text) => Ok(text),
        Err(_) => Err(AllocError),
    }
}
