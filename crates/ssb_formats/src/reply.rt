//! What a session tells its client, written in one of its formats.

ghost use Rattle.std.specs.Prelude.{◌≡◌, ◌++◌, IfOk, List, MatchOption};
ghost use Rattle.ssb_formats.specs.Formats.{Shows, answers_parted};
ghost use Rattle.ssb_formats.specs.ReplyTexts.{fault_shown, format_shown, label_line, labelled, reply_shown};
ghost use Rattle.ssb_answers.specs.declared.answer.Answer.{Answer};
ghost use Rattle.ssb_formats.specs.Reports.{listing_shown};
ghost use Rattle.ssb_report.specs.Replies.{Aborted, Answered, Listed, Refreshed, Shown, reply_text};
ghost use Rattle.ssb_statements.specs.Listing.{listing_of};
ghost use Rattle.ssb_text.specs.Numbers.{line_feed};
ghost use Rattle.ssb_text.specs.Written.{Writes};

use crate::fault::FormatFault;
use crate::format::{Format, outcome, write_parted, write_text};
use crate::order_json::order_line;
use crate::reply_format::ReplyFormat;
use crate::reply_json::{aborted_line, answers_line, listing_line, refreshed_line, text_line};
use crate::reports::rows_text;
use row_store::{Receipt, RefreshError};
use ssb_answers::Answer;
use ssb_report::{
    ShownOrder, write_aborted, write_answers, write_listing, write_order, write_reply,
};
use ssb_statements::Listing;
use ssb_text::{Piece, WriteFault, write_pieces};
use std::alloc::{AllocError, Global};
use std::io::Write;

// The report of the reply to a refresh, and an empty line.
fn parted_refreshed(
    alloc: Global,
    reply: &Result<Receipt, RefreshError>,
) -> Result<Vec<u8>, AllocError>
    ensures { IfOk result (λ text. text.items ≡ reply_text (Refreshed reply.now) ++ line_feed) }
{
    let mut text = Vec::new(alloc);
    match write_reply(&mut text, reply) {
        Ok(()) => {
            text.push(b'\n')?;
            Ok(text)
        }
        Err(_) => Err(AllocError),
    }
}

// Answers in a format, and an empty line.
fn parted_answers(alloc: Global, format: Format, answers: &[Answer]) -> Result<Vec<u8>, AllocError>
    ensures { IfOk result (λ text. text.items ≡ answers_parted format answers.now ++ line_feed) }
{
    let mut text = Vec::new(alloc);
    match write_parted(alloc, &mut text, format, answers) {
        Ok(()) => {
            text.push(b'\n')?;
            Ok(text)
        }
        Err(_) => Err(AllocError),
    }
}

// What is listed of a statement in a format.
fn listing_text(alloc: Global, format: Format, listing: &Listing) -> Result<Vec<u8>, AllocError>
    ensures { IfOk result (λ text. text.items ≡ listing_shown format (listing_of listing.now)) }
{
    if let Listing::Rows(rows) = listing {
        return rows_text(alloc, format, rows);
    }
    let mut text = Vec::new(alloc);
    match write_listing(&mut text, listing) {
        Ok(()) => Ok(text),
        Err(_) => Err(AllocError),
    }
}

// The same, and an empty line.
fn parted_listing(alloc: Global, format: Format, listing: &Listing) -> Result<Vec<u8>, AllocError>
    ensures { IfOk result (λ text. text.items ≡ listing_shown format (listing_of listing.now) ++ line_feed) }
{
    let mut text = listing_text(alloc, format, listing)?;
    text.push(b'\n')?;
    Ok(text)
}

// The report of an order, and an empty line.
fn parted_order(alloc: Global, order: &ShownOrder) -> Result<Vec<u8>, AllocError>
    ensures { IfOk result (λ text. text.items ≡ reply_text (Shown order.now) ++ line_feed) }
{
    let mut text = Vec::new(alloc);
    match write_order(&mut text, order) {
        Ok(()) => {
            text.push(b'\n')?;
            Ok(text)
        }
        Err(_) => Err(AllocError),
    }
}

// The report that something was dropped, and an empty line.
fn parted_aborted(alloc: Global) -> Result<Vec<u8>, AllocError>
    ensures { IfOk result (λ text. text.items ≡ reply_text Aborted ++ line_feed) }
{
    let mut text = Vec::new(alloc);
    match write_aborted(&mut text) {
        Ok(()) => {
            text.push(b'\n')?;
            Ok(text)
        }
        Err(_) => Err(AllocError),
    }
}

fn write_label_line<'a, W: Write>(
    writer: &mut W,
    label: &'a str,
    text: &'a str,
) -> Result<(), WriteFault>
    ensures { Writes (W.contents writer.old) (W.contents writer.new) result (label_line label.now text.now) }
{
    write_pieces(
        writer,
        &[Piece::Text(label), Piece::Text(text), Piece::Text("\n")],
    )
}

// A text behind a label, and an empty line.
fn parted_label_line(alloc: Global, label: &str, text: &str) -> Result<Vec<u8>, AllocError>
    ensures { IfOk result (λ line. line.items ≡ label_line label.now text.now ++ line_feed) }
{
    let mut line = Vec::new(alloc);
    match write_label_line(&mut line, label, text) {
        Ok(()) => {
            line.push(b'\n')?;
            Ok(line)
        }
        Err(_) => Err(AllocError),
    }
}

// The text of the reply to a refresh; none where it is that of the report.
fn refreshed_text(
    alloc: Global,
    format: ReplyFormat,
    reply: &Result<Receipt, RefreshError>,
) -> Result<Option<Vec<u8>>, AllocError>
    ensures { IfOk result (λ text. MatchOption text
        (reply_shown format (Refreshed reply.now) ≡ reply_text (Refreshed reply.now))
        (λ text. text.items ≡ reply_shown format (Refreshed reply.now))) }
{
    match format {
        ReplyFormat::Report => Ok(None),
        ReplyFormat::Json => Ok(Some(refreshed_line(alloc, reply)?)),
        _ => Ok(Some(parted_refreshed(alloc, reply)?)),
    }
}

// The text of answers; none where it is that of the report.
fn answered_text(
    alloc: Global,
    format: ReplyFormat,
    answers: &[Answer],
) -> Result<Option<Vec<u8>>, AllocError>
    ensures { IfOk result (λ text. MatchOption text
        (reply_shown format (Answered answers.now) ≡ reply_text (Answered answers.now))
        (λ text. text.items ≡ reply_shown format (Answered answers.now))) }
{
    match format {
        ReplyFormat::Report => Ok(None),
        ReplyFormat::Json => Ok(Some(answers_line(alloc, answers)?)),
        _ => Ok(Some(parted_answers(alloc, format.of_answers(), answers)?)),
    }
}

// The text of what is listed of a statement; none where it is that of the report.
fn listed_text(
    alloc: Global,
    format: ReplyFormat,
    listing: &Listing,
) -> Result<Option<Vec<u8>>, AllocError>
    ensures { (answers : List Answer) → IfOk result (λ text. MatchOption text
        (reply_shown format (Listed answers (listing_of listing.now))
        ≡ reply_text (Listed answers (listing_of listing.now)))
        (λ text. text.items ≡ reply_shown format (Listed answers (listing_of listing.now)))) }
{
    match format {
        ReplyFormat::Report => Ok(None),
        ReplyFormat::Json => Ok(Some(listing_line(alloc, listing)?)),
        _ => Ok(Some(parted_listing(alloc, format.of_answers(), listing)?)),
    }
}

// The text of an order; none where it is that of the report.
fn shown_text(
    alloc: Global,
    format: ReplyFormat,
    order: &ShownOrder,
) -> Result<Option<Vec<u8>>, AllocError>
    ensures { IfOk result (λ text. MatchOption text
        (reply_shown format (Shown order.now) ≡ reply_text (Shown order.now))
        (λ text. text.items ≡ reply_shown format (Shown order.now))) }
{
    match format {
        ReplyFormat::Report => Ok(None),
        ReplyFormat::Json => Ok(Some(order_line(alloc, order)?)),
        _ => Ok(Some(parted_order(alloc, order)?)),
    }
}

// What tells that something was dropped; none where it is the report.
fn aborted_text(alloc: Global, format: ReplyFormat) -> Result<Option<Vec<u8>>, AllocError>
    ensures { IfOk result (λ text. MatchOption text (reply_shown format Aborted ≡ reply_text Aborted)
        (λ text. text.items ≡ reply_shown format Aborted)) }
{
    match format {
        ReplyFormat::Report => Ok(None),
        ReplyFormat::Json => Ok(Some(aborted_line(alloc)?)),
        _ => Ok(Some(parted_aborted(alloc)?)),
    }
}

// What tells a text of this name; none where it is the line of its label.
fn labelled_text(
    alloc: Global,
    format: ReplyFormat,
    name: &str,
    label: &str,
    text: &str,
) -> Result<Option<Vec<u8>>, AllocError>
    ensures { IfOk result (λ shown. MatchOption shown
        (labelled format name.now label.now text.now ≡ label_line label.now text.now)
        (λ shown. shown.items ≡ labelled format name.now label.now text.now)) }
{
    match format {
        ReplyFormat::Report => Ok(None),
        ReplyFormat::Json => Ok(Some(text_line(alloc, name, text)?)),
        _ => Ok(Some(parted_label_line(alloc, label, text)?)),
    }
}

/// Writes the reply to a refresh as a session's format has it. The report takes no memory; any other takes that of its
/// text, and where it runs out, nothing is written.
pub fn write_reply_as<W: Write>(
    alloc: Global,
    writer: &mut W,
    format: ReplyFormat,
    reply: &Result<Receipt, RefreshError>,
) -> Result<(), FormatFault>
    ensures { Shows (W.contents writer.old) (W.contents writer.new) result
        (reply_shown format (Refreshed reply.now)) }
{
    match refreshed_text(alloc, format, reply) {
        Ok(Some(text)) => write_text(writer, text.as_slice()),
        Ok(None) => outcome(write_reply(writer, reply)),
        Err(_) => Err(FormatFault::OutOfMemory),
    }
}

/// Writes the answers to the questions of a request as a session's format has them. The report takes no memory; any
/// other takes that of its text, and where it runs out, nothing is written.
pub fn write_answers_as<W: Write>(
    alloc: Global,
    writer: &mut W,
    format: ReplyFormat,
    answers: &[Answer],
) -> Result<(), FormatFault>
    ensures { Shows (W.contents writer.old) (W.contents writer.new) result
        (reply_shown format (Answered answers.now)) }
{
    match answered_text(alloc, format, answers) {
        Ok(Some(text)) => write_text(writer, text.as_slice()),
        Ok(None) => outcome(write_answers(writer, answers)),
        Err(_) => Err(FormatFault::OutOfMemory),
    }
}

/// Writes what is listed of a statement as a session's format has it. The report takes no memory; any other takes that
/// of its text, and where it runs out, nothing is written.
pub fn write_listing_as<W: Write>(
    alloc: Global,
    writer: &mut W,
    format: ReplyFormat,
    listing: &Listing,
) -> Result<(), FormatFault>
    ensures { (answers : List Answer) → Shows (W.contents writer.old) (W.contents writer.new) result
        (reply_shown format (Listed answers (listing_of listing.now))) }
{
    match listed_text(alloc, format, listing) {
        Ok(Some(text)) => write_text(writer, text.as_slice()),
        Ok(None) => outcome(write_listing(writer, listing)),
        Err(_) => Err(FormatFault::OutOfMemory),
    }
}

/// Writes an order as a session's format has it. The report takes no memory; any other takes that of its text, and where
/// it runs out, nothing is written.
pub fn write_order_as<W: Write>(
    alloc: Global,
    writer: &mut W,
    format: ReplyFormat,
    order: &ShownOrder,
) -> Result<(), FormatFault>
    ensures { Shows (W.contents writer.old) (W.contents writer.new) result (reply_shown format (Shown order.now)) }
{
    match shown_text(alloc, format, order) {
        Ok(Some(text)) => write_text(writer, text.as_slice()),
        Ok(None) => outcome(write_order(writer, order)),
        Err(_) => Err(FormatFault::OutOfMemory),
    }
}

/// Writes that what was begun is dropped, as a session's format has it. The report takes no memory.
pub fn write_aborted_as<W: Write>(
    alloc: Global,
    writer: &mut W,
    format: ReplyFormat,
) -> Result<(), FormatFault>
    ensures { Shows (W.contents writer.old) (W.contents writer.new) result (reply_shown format Aborted) }
{
    match aborted_text(alloc, format) {
        Ok(Some(text)) => write_text(writer, text.as_slice()),
        Ok(None) => outcome(write_aborted(writer)),
        Err(_) => Err(FormatFault::OutOfMemory),
    }
}

// Writes a text of this name, as a line behind a label or as the format has it.
fn write_labelled<W: Write>(
    alloc: Global,
    writer: &mut W,
    format: ReplyFormat,
    name: &str,
    label: &str,
    text: &str,
) -> Result<(), FormatFault>
    ensures { Shows (W.contents writer.old) (W.contents writer.new) result
        (labelled format name.now label.now text.now) }
{
    match labelled_text(alloc, format, name, label, text) {
        Ok(Some(shown)) => write_text(writer, shown.as_slice()),
        Ok(None) => outcome(write_label_line(writer, label, text)),
        Err(_) => Err(FormatFault::OutOfMemory),
    }
}

/// Writes what is told of a request that has a fault, of which this text tells.
pub fn write_fault_as<W: Write>(
    alloc: Global,
    writer: &mut W,
    format: ReplyFormat,
    text: &str,
) -> Result<(), FormatFault>
    ensures { Shows (W.contents writer.old) (W.contents writer.new) result (fault_shown format text.now) }
{
    write_labelled(alloc, writer, format, "fault", "fault: ", text)
}

/// Writes, in a format, that it is the format from here on.
pub fn write_format<W: Write>(
    alloc: Global,
    writer: &mut W,
    format: ReplyFormat,
) -> Result<(), FormatFault>
    ensures { Shows (W.contents writer.old) (W.contents writer.new) result (format_shown format) }
{
    write_labelled(alloc, writer, format, "format", "format ", format.name())
}
