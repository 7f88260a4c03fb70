//! Reports, each under a title, in a format.

ghost use Rattle.std.specs.Prelude.{◌≡◌, ◌++◌, IfOk, MatchResult, OnOk};
ghost use Rattle.std.specs.Io.KnownBytes.{Appends};
ghost use Rattle.ssb_formats.specs.Titled.{board_shown, body, heading, is_markup, markdown_heading, others_shown};
ghost use Rattle.ssb_formats.specs.Titled.{titled_reports_shown, title_byte, titled_shown};
ghost use Rattle.ssb_text.specs.Written.{AppendsPart};

use crate::csv_text::title_record;
use crate::fault::FormatFault;
use crate::format::{Format, push_opening, write_text};
use crate::html_text;
use crate::reports::{Reported, push_report, titled_report_json};
use ssb_schema::Text;
use std::alloc::{AllocError, Global};
use std::io::Write;

// Whether Markdown may read a byte as more than itself.
fn is_markup(byte: u8) -> bool
    ensures { result ≡ is_markup byte }
{
    byte == b'#'
        || byte == b'&'
        || byte == b'*'
        || byte == b'<'
        || byte == b'>'
        || byte == b'['
        || byte == b'\\'
        || byte == b']'
        || byte == b'_'
        || byte == b'`'
}

// A byte of a title in Markdown.
fn push_title_byte(text: &mut Vec<u8>, byte: u8) -> Result<(), AllocError>
    ensures { OnOk result (text.new.items ≡ text.old.items ++ title_byte byte) }
{
    if is_markup(byte) {
        return text.extend_from_slice(&[b'\\', byte]);
    }
    Ok(text.push(byte)?)
}

fn push_markdown_heading(text: &mut Vec<u8>, title: &str) -> Result<(), AllocError>
    ensures { OnOk result (text.new.items ≡ text.old.items ++ markdown_heading title.now) }
{
    let bytes = title.as_bytes();
    text.extend_from_slice(b"## ")?;
    for byte in bytes {
        push_title_byte(text, *byte)?;
    }
    text.extend_from_slice(b"\n\n")
}

fn push_heading(
    alloc: Global,
    text: &mut Vec<u8>,
    format: Format,
    title: &Text,
) -> Result<(), AllocError>
    ensures { OnOk result (text.new.items ≡ text.old.items ++ heading format title.now) }
{
    match format {
        Format::Json => Ok(()),
        Format::Csv => text.extend_from_slice(title_record(alloc, title)?.as_slice()),
        Format::Markdown => push_markdown_heading(text, title.as_str()),
        Format::Html => html_text::push_heading(text, title.as_str()),
        Format::Report | Format::Table | Format::Bars { .. } => {
            text.extend_from_slice(title.as_str().as_bytes())?;
            Ok(text.push(b'\n')?)
        }
    }
}

fn push_body(
    alloc: Global,
    text: &mut Vec<u8>,
    format: Format,
    title: &Text,
    report: &Reported<'_>,
) -> Result<(), AllocError>
    ensures { OnOk result (text.new.items ≡ text.old.items ++ body format title.now report.now) }
{
    match format {
        Format::Json => {
            let line = titled_report_json(alloc, title, report)?;
            text.extend_from_slice(line.as_slice())
        }
        _ => push_report(alloc, text, format, report),
    }
}

fn push_titled(
    alloc: Global,
    text: &mut Vec<u8>,
    format: Format,
    title: &Text,
    report: &Reported<'_>,
) -> Result<(), AllocError>
    ensures { OnOk result (text.new.items ≡ text.old.items ++ titled_shown format title.now report.now) }
{
    push_heading(alloc, text, format, title)?;
    push_body(alloc, text, format, title, report)
}

// Reports behind others.
fn push_others(
    alloc: Global,
    text: &mut Vec<u8>,
    format: Format,
    titles: &[Text],
    reports: &[Reported<'_>],
) -> Result<(), AllocError>
    ensures { OnOk result (text.new.items ≡ text.old.items ++ others_shown format titles.now reports.now) }
{
    match titles {
        [] => Ok(()),
        [title, titles @ ..] => match reports {
            [] => Ok(()),
            [report, reports @ ..] => {
                text.extend_from_slice(format.parting().as_bytes())?;
                push_titled(alloc, text, format, title, report)?;
                push_others(alloc, text, format, titles, reports)
            }
        },
    }
}

fn push_reports(
    alloc: Global,
    text: &mut Vec<u8>,
    format: Format,
    titles: &[Text],
    reports: &[Reported<'_>],
) -> Result<(), AllocError>
    ensures { OnOk result (text.new.items ≡ text.old.items ++ titled_reports_shown format titles.now reports.now) }
{
    match titles {
        [] => Ok(()),
        [title, titles @ ..] => match reports {
            [] => Ok(()),
            [report, reports @ ..] => {
                push_titled(alloc, text, format, title, report)?;
                push_others(alloc, text, format, titles, reports)
            }
        },
    }
}

fn board_text(
    alloc: Global,
    format: Format,
    titles: &[Text],
    reports: &[Reported<'_>],
) -> Result<Vec<u8>, AllocError>
    ensures { IfOk result (λ text. text.items ≡ board_shown format titles.now reports.now) }
{
    let mut text = Vec::new(alloc);
    push_opening(&mut text, format)?;
    push_reports(alloc, &mut text, format, titles, reports)?;
    Ok(text)
}

/// Writes reports in a format, one after another, each under the title in its place. The memory that it takes is that
/// of all their text; where it runs out, nothing is written.
pub fn write_board<W: Write>(
    alloc: Global,
    writer: &mut W,
    format: Format,
    titles: &[Text],
    reports: &[Reported<'_>],
) -> Result<(), FormatFault>
    ensures text { MatchResult result
        (λ _. Appends (W.contents writer.old) (W.contents writer.new)
        (board_shown format titles.now reports.now))
        (λ _. AppendsPart (W.contents writer.old) (W.contents writer.new)
        (board_shown format titles.now reports.now)) }
{
    match board_text(alloc, format, titles, reports) {
        Ok(text) => write_text(writer, text.as_slice()),
        Err(_) => Err(FormatFault::OutOfMemory),
    }
}
