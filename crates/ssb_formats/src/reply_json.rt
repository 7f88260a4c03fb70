//! The reply to a request as a line of JSON.

ghost use Rattle.std.specs.Prelude.{◌≡◌, IfOk, IsUtf8, map, string_bytes};
ghost use Rattle.serde_json.specs.View.{members_view, view};
ghost use Rattle.ssb_formats.specs.JsonText.{object_line as line_of, text_data};
ghost use Rattle.ssb_formats.specs.ReplyJson.{aborted_members, answer_data, answers_line, array_line, one_member};
ghost use Rattle.ssb_formats.specs.ReplyJson.{listing_members, refreshed_members, refused_members};
ghost use Rattle.ssb_report.specs.RefreshText.{cause_text};
ghost use Rattle.ssb_statements.specs.Listing as spec;
ghost use Rattle.ssb_statements.specs.Listing.{listing_of};

use crate::json_text::{answer_members, cause_name, json_text, object_line};
use crate::reports::rows_members;
use row_store::{Cause, Receipt, RefreshError};
use serde_json::{Map, Value as Json, put};
use ssb_answers::{Answer, Unserved};
use ssb_report::write_cause;
use ssb_statements::Listing;
use std::alloc::{AllocError, Global};

// The text that bytes are.
fn text_in(bytes: Vec<u8>) -> String
    requires { IsUtf8 bytes.items }
    ensures { string_bytes result ≡ bytes.items }
{
    match String::from_utf8(bytes) {
        Ok(text) => text,
        Err(_) => unreachable!(),
    }
}

// The number and the name of a cause, with its key where it has one.
fn cause_text(alloc: Global, cause: Cause) -> Result<String, AllocError>
    ensures { IfOk result (λ text. string_bytes text ≡ cause_text cause) }
{
    let mut bytes = Vec::new(alloc);
    match write_cause(&mut bytes, cause) {
        Ok(()) => Ok(text_in(bytes)),
        Err(_) => Err(AllocError),
    }
}

// A member alone.
fn one_member(alloc: Global, name: &str, value: Json) -> Result<Map<String, Json>, AllocError>
    ensures { IfOk result (λ members. members_view members.entries ≡ one_member name.now (view value)) }
{
    let mut members = Map::new(alloc);
    put(&mut members, alloc, name, value)?;
    Ok(members)
}

fn refused_members(
    alloc: Global,
    at: u64,
    action: u32,
    cause: Cause,
) -> Result<Map<String, Json>, AllocError>
    ensures { IfOk result (λ members. members_view members.entries ≡ refused_members at action cause) }
{
    let text = cause_text(alloc, cause)?;
    let mut members = Map::new(alloc);
    put(&mut members, alloc, "action", Json::from(action))?;
    put(&mut members, alloc, "at", Json::from(at))?;
    put(&mut members, alloc, "refused", Json::from(text))?;
    Ok(members)
}

// The members of the reply to a refresh.
fn refreshed_members(
    alloc: Global,
    reply: &Result<Receipt, RefreshError>,
) -> Result<Map<String, Json>, AllocError>
    ensures { IfOk result (λ members. members_view members.entries ≡ refreshed_members reply.now) }
{
    match reply {
        Ok(receipt) => one_member(alloc, "committed", Json::from(receipt.number)),
        Err(RefreshError::Refused { at, action, cause }) => {
            refused_members(alloc, *at, *action, *cause)
        }
        Err(RefreshError::OutOfMemory) => {
            let why = Json::try_from_str(alloc, "out of memory")?;
            one_member(alloc, "refused", why)
        }
    }
}

/// The line of the reply to a refresh.
pub(crate) fn refreshed_line(
    alloc: Global,
    reply: &Result<Receipt, RefreshError>,
) -> Result<Vec<u8>, AllocError>
    ensures { IfOk result (λ line. line.items ≡ line_of (refreshed_members reply.now)) }
{
    let members = refreshed_members(alloc, reply)?;
    object_line(alloc, members)
}

/// The line that tells that something was dropped.
pub(crate) fn aborted_line(alloc: Global) -> Result<Vec<u8>, AllocError>
    ensures { IfOk result (λ line. line.items ≡ line_of aborted_members) }
{
    let members = one_member(alloc, "aborted", Json::from(true))?;
    object_line(alloc, members)
}

/// A line that has a text alone, as the member of this name.
pub(crate) fn text_line(alloc: Global, name: &str, text: &str) -> Result<Vec<u8>, AllocError>
    ensures { IfOk result (λ line. line.items ≡ line_of (one_member name.now (text_data text.now))) }
{
    let value = Json::try_from_str(alloc, text)?;
    let members = one_member(alloc, name, value)?;
    object_line(alloc, members)
}

// The members of what is listed without rows, for this cause.
fn unserved_members(alloc: Global, cause: Unserved) -> Result<Map<String, Json>, AllocError>
    ensures { IfOk result (λ members. members_view members.entries ≡ listing_members (spec.Unserved cause)) }
{
    let name = Json::try_from_str(alloc, "sql")?;
    let cause = Json::try_from_str(alloc, cause_name(cause))?;
    let mut members = Map::new(alloc);
    put(&mut members, alloc, "query", name)?;
    put(&mut members, alloc, "unserved", cause)?;
    Ok(members)
}

// The members of what is listed of a statement.
fn listing_members(alloc: Global, listing: &Listing) -> Result<Map<String, Json>, AllocError>
    ensures { IfOk result (λ members. members_view members.entries ≡ listing_members (listing_of listing.now)) }
{
    match listing {
        Listing::Rows(rows) => rows_members(alloc, rows),
        Listing::Unserved(cause) => unserved_members(alloc, *cause),
    }
}

/// The line of what is listed of a statement.
pub(crate) fn listing_line(alloc: Global, listing: &Listing) -> Result<Vec<u8>, AllocError>
    ensures { IfOk result (λ line. line.items ≡ line_of (listing_members (listing_of listing.now))) }
{
    let members = listing_members(alloc, listing)?;
    object_line(alloc, members)
}

// The objects of answers.
#[tactic(auto, using(crate::proofs::CellLaws::map_push))]
fn objects(alloc: Global, answers: &[Answer]) -> Result<Vec<Json>, AllocError>
    ensures { IfOk result (λ list. map view list.items ≡ map answer_data answers.now) }
{
    let mut list = Vec::new(alloc);
    for answer in answers {
        let members = answer_members(alloc, answer)?;
        list.push(Json::from(members))?;
    }
    Ok(list)
}

// A line of an array of answers.
fn array_line(alloc: Global, answers: &[Answer]) -> Result<Vec<u8>, AllocError>
    ensures { IfOk result (λ line. line.items ≡ array_line answers.now) }
{
    let list = objects(alloc, answers)?;
    let json = Json::from(list);
    let mut line = json.to_vec(alloc)?;
    line.push(b'\n')?;
    Ok(line)
}

/// The line of the answers to a request.
pub(crate) fn answers_line(alloc: Global, answers: &[Answer]) -> Result<Vec<u8>, AllocError>
    ensures { IfOk result (λ line. line.items ≡ answers_line answers.now) }
{
    match answers {
        [] => array_line(alloc, answers),
        [answer] => json_text(alloc, answer),
        [_, _, ..] => array_line(alloc, answers),
    }
}
