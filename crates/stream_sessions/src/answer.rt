//! The answer to one request.

ghost use Rattle.std.specs.Prelude.{◌≡◌, true, false, List, ℕ, [], ◌∷◌, MatchResult};
ghost use Rattle.std.specs.List.{list_any};
ghost use Rattle.std.specs.Option.{is_some};
ghost use Rattle.history.specs.Tokens.{TokenRecord};
ghost use Rattle.history.specs.Members.{number_of};
ghost use Rattle.stream_sessions.specs.OneRequest.{AreAlike};
ghost use Rattle.stream_sessions.specs.Answers.{AddsAnswer, AddsNothing, HasFault, is_of_text};
ghost use Rattle.stream_sessions.specs.SessionRequests.{AsksNothing, AsksSession};
ghost use Rattle.stream_sessions.specs.declared.session_request.SessionRequest.TheVariants.{Format, LookUp};
ghost use Rattle.stream_sessions.specs.Replying.{LacksReply, RepliesTo};
ghost use Rattle.stream_sessions.specs.Speaking.{IsTaken, has_refresh, is_refresh, speaking};
ghost use Rattle.ssb_script.specs.Requests.{RequestRecord, request_of, requests_of};
ghost use Rattle.ssb_script.specs.Scripts.{IsScriptFault, SpellsScript, most_records};

use crate::fault_line::write_fault_line;
use crate::lookup::{Lookup, looked_up};
use crate::manner::Manner;
use crate::reply::reply_to;
use crate::service::Service;
use crate::session_request::{SessionRequest, session_request};
use row_store::Follower;
use ssb_clients::Client;
use ssb_formats::{ReplyFormat, write_fault_as, write_format, write_overview_as};
use ssb_script::{MOST_RECORDS, Request, Script, ScriptError, read_script};
use std::alloc::{AllocError, Global};
use std::sync::Wait;

// Serves one thing that a request asks, and adds the reply, told with the commits that came before. Where memory runs
// out, a part of it may have been added.
fn add_reply<W: Follower + Drop, R: Wait, K>(
    service: &Service<'_, W, R, K>,
    client: &mut Client<W>,
    manner: Manner,
    request: Request,
    replies: &mut Vec<u8>,
) -> Result<(), AllocError>
    requires table { client.old.table ≡ service.now.server.now }
    requires quiet { is_some client.old.asked ≡ false }
    ensures added { MatchResult result
        (λ _. RepliesTo (number_of client.old.who) manner client.old client.new (request_of request) replies.old.items
        replies.new.items)
        (λ _. LacksReply (number_of client.old.who) client.old client.new (request_of request) replies.old.items
        replies.new.items) }
    ensures same { AreAlike client.old client.new }
{
    let number = client.number();
    let Ok(reply) = reply_to(service, client, number, request) else {
        return Err(AllocError);
    };
    let told = reply.with_past(manner.terms.past);
    match told.write_as(service.alloc, replies, manner.format) {
        Ok(()) => Ok(()),
        Err(_) => Err(AllocError),
    }
}

// Serves what a request asks, which the session takes, and adds the replies; none where memory runs out.
fn report<W: Follower + Drop, R: Wait, K>(
    service: &Service<'_, W, R, K>,
    client: &mut Client<W>,
    manner: Manner,
    script: Script,
    replies: &mut Vec<u8>,
) -> Result<(), AllocError>
    requires table { client.old.table ≡ service.now.server.now }
    requires quiet { is_some client.old.asked ≡ false }
    requires taken { IsTaken (speaking client.old manner) (requests_of script) }
    ensures answered { (request : List ℕ) → SpellsScript most_records request (requests_of script) → MatchResult result
        (λ _. AddsAnswer (number_of client.old.who) request (speaking client.old manner) (speaking client.new manner)
        replies.old.items replies.new.items)
        (λ _. AddsNothing (number_of client.old.who) request (speaking client.old manner) (speaking client.new manner)
        replies.old.items replies.new.items) }
    ensures same { AreAlike client.old client.new }
{
    let before = replies.len();
    let mut requests = script.requests.into_iter();
    while let Some(request) = requests.next() {
        match add_reply(service, client, manner, request, replies) {
            Ok(()) => {}
            Err(_) => {
                replies.truncate(before);
                return Err(AllocError);
            }
        }
    }
    Ok(())
}

// Whether a request is a refresh.
fn is_refresh(request: &Request) -> bool
    ensures { result ≡ is_refresh (request_of request.now) }
{
    matches!(request, Request::Refresh(_))
}

// Whether one of these requests is a refresh.
fn any_is_refresh(requests: &[Request]) -> bool
    ensures { result ≡ list_any (λ request. is_refresh (request_of request)) requests.now }
{
    requests.iter().any(|request| is_refresh(request))
}

// Whether there is a refresh among all that a script asks.
fn has_refresh(script: &Script) -> bool
    ensures { result ≡ has_refresh (requests_of script.now) }
{
    any_is_refresh(script.requests.as_slice())
}

// Adds what is told of a request that has a refresh where the session takes none; nothing where memory runs out.
fn refuse_refresh(alloc: Global, manner: Manner, replies: &mut Vec<u8>) -> Result<(), AllocError>
    ensures { (number : ℕ) (request : List ℕ) (asked : List RequestRecord) (client : TokenRecord)
        → SpellsScript most_records request asked → has_refresh asked ≡ true → manner.terms.takes_refreshes ≡ false
        → MatchResult result
        (λ _. AddsAnswer number request (speaking client manner) (speaking client manner) replies.old.items
        replies.new.items)
        (λ _. AddsNothing number request (speaking client manner) (speaking client manner) replies.old.items
        replies.new.items) }
{
    let before = replies.len();
    match write_fault_as(alloc, replies, manner.format, "68 ReadOnly") {
        Ok(()) => Ok(()),
        Err(_) => {
            replies.truncate(before);
            Err(AllocError)
        }
    }
}

// Serves what a request asks, and adds the replies; where it has a refresh that the session does not take, does
// nothing, and adds that. Where memory runs out it adds nothing.
fn report_taken<W: Follower + Drop, R: Wait, K>(
    service: &Service<'_, W, R, K>,
    client: &mut Client<W>,
    manner: Manner,
    script: Script,
    replies: &mut Vec<u8>,
) -> Result<(), AllocError>
    requires table { client.old.table ≡ service.now.server.now }
    requires quiet { is_some client.old.asked ≡ false }
    ensures answered { (request : List ℕ) → SpellsScript most_records request (requests_of script) → MatchResult result
        (λ _. AddsAnswer (number_of client.old.who) request (speaking client.old manner) (speaking client.new manner)
        replies.old.items replies.new.items)
        (λ _. AddsNothing (number_of client.old.who) request (speaking client.old manner) (speaking client.new manner)
        replies.old.items replies.new.items) }
    ensures same { AreAlike client.old client.new }
{
    if manner.terms.takes_refreshes || !has_refresh(&script) {
        report(service, client, manner, script, replies)
    } else {
        refuse_refresh(service.alloc, manner, replies)
    }
}

// Whether a fault is one of the request itself. A request is read from memory, so that want of it alone can keep it from
// being read.
fn is_of_text(fault: ScriptError) -> bool
    ensures { result ≡ is_of_text fault }
{
    match fault {
        ScriptError::Read | ScriptError::OutOfMemory => false,
        _ => true,
    }
}

// Adds what is told of a request's fault; nothing where memory runs out.
fn refuse(
    alloc: Global,
    manner: Manner,
    fault: ScriptError,
    replies: &mut Vec<u8>,
) -> Result<(), AllocError>
    ensures { (number : ℕ) (request : List ℕ) (client : TokenRecord) → HasFault request fault → AsksNothing request
        → MatchResult result
        (λ _. AddsAnswer number request (speaking client manner) (speaking client manner) replies.old.items
        replies.new.items)
        (λ _. AddsNothing number request (speaking client manner) (speaking client manner) replies.old.items
        replies.new.items) }
{
    let before = replies.len();
    match write_fault_line(alloc, replies, manner.format, fault) {
        Ok(()) => Ok(()),
        Err(_) => {
            replies.truncate(before);
            Err(AllocError)
        }
    }
}

// Makes a format that a request names the client's, and adds that it is; neither where memory runs out.
fn give_format(
    alloc: Global,
    manner: &mut Manner,
    named: ReplyFormat,
    replies: &mut Vec<u8>,
) -> Result<(), AllocError>
    ensures { (number : ℕ) (request : List ℕ) (client : TokenRecord) → AsksSession request (Format named)
        → MatchResult result
        (λ _. AddsAnswer number request (speaking client manner.old) (speaking client manner.new) replies.old.items
        replies.new.items)
        (λ _. AddsNothing number request (speaking client manner.old) (speaking client manner.new) replies.old.items
        replies.new.items) }
{
    let before = replies.len();
    match write_format(alloc, replies, named) {
        Ok(()) => {
            manner.format = named;
            Ok(())
        }
        Err(_) => {
            replies.truncate(before);
            Err(AllocError)
        }
    }
}

// Adds what a request looks up, in the client's format; nothing where memory runs out.
fn look_up<W: Follower + Drop, R, K>(
    service: &Service<'_, W, R, K>,
    manner: Manner,
    asked: Lookup,
    replies: &mut Vec<u8>,
) -> Result<(), AllocError>
    ensures { (number : ℕ) (request : List ℕ) (client : TokenRecord) → client.table ≡ service.now.server.now
        → AsksSession request (LookUp asked) → MatchResult result
        (λ _. AddsAnswer number request (speaking client manner) (speaking client manner) replies.old.items
        replies.new.items)
        (λ _. AddsNothing number request (speaking client manner) (speaking client manner) replies.old.items
        replies.new.items) }
{
    let server = service.server;
    let figures = server.figures().now();
    let past = manner.terms.past;
    let overview = looked_up(service.alloc, server.base(), past, figures, asked)?;
    let before = replies.len();
    match write_overview_as(service.alloc, replies, manner.format, &overview) {
        Ok(()) => Ok(()),
        Err(_) => {
            replies.truncate(before);
            Err(AllocError)
        }
    }
}

// Answers a request that asks this of its session; where memory runs out it adds nothing.
fn answer_own<W: Follower + Drop, R, K>(
    service: &Service<'_, W, R, K>,
    manner: &mut Manner,
    asked: SessionRequest,
    replies: &mut Vec<u8>,
) -> Result<(), AllocError>
    ensures { (number : ℕ) (request : List ℕ) (client : TokenRecord) → client.table ≡ service.now.server.now
        → AsksSession request asked → MatchResult result
        (λ _. AddsAnswer number request (speaking client manner.old) (speaking client manner.new) replies.old.items
        replies.new.items)
        (λ _. AddsNothing number request (speaking client manner.old) (speaking client manner.new) replies.old.items
        replies.new.items) }
{
    match asked {
        SessionRequest::Format(named) => give_format(service.alloc, manner, named, replies),
        SessionRequest::LookUp(asked) => look_up(service, *manner, asked, replies),
    }
}

// Answers a request that is no script, with this fault: it may be one of the session. Where memory runs out, or ran out
// before, it adds nothing.
fn answer_other<W: Follower + Drop, R, K>(
    service: &Service<'_, W, R, K>,
    manner: &mut Manner,
    request: &[u8],
    fault: ScriptError,
    replies: &mut Vec<u8>,
) -> Result<(), AllocError>
    ensures { (number : ℕ) (client : TokenRecord) → client.table ≡ service.now.server.now
        → IsScriptFault most_records request.now fault → MatchResult result
        (λ _. AddsAnswer number request.now (speaking client manner.old) (speaking client manner.new)
        replies.old.items replies.new.items)
        (λ _. AddsNothing number request.now (speaking client manner.old) (speaking client manner.new)
        replies.old.items replies.new.items) }
{
    if !is_of_text(fault) {
        return Err(AllocError);
    }
    let Ok(asked) = session_request(service.alloc, request) else {
        return Err(AllocError);
    };
    match asked {
        Some(asked) => answer_own(service, manner, asked, replies),
        None => refuse(service.alloc, *manner, fault, replies),
    }
}

/// Reads a request as a script of its own, serves what it asks, and adds the replies, in the client's format. One that
/// is no script may name a format, which is the client's then, or look something up, which is added; else what is told
/// of its fault is added, and nothing is done. Likewise of one that has a refresh, where the session takes none. For want
/// of memory it adds nothing.
pub(crate) fn answer<W: Follower + Drop, R: Wait, K>(
    service: &Service<'_, W, R, K>,
    client: &mut Client<W>,
    manner: &mut Manner,
    request: &[u8],
    replies: &mut Vec<u8>,
) -> Result<(), AllocError>
    requires table { client.old.table ≡ service.now.server.now }
    requires quiet { is_some client.old.asked ≡ false }
    ensures answered { MatchResult result
        (λ _. AddsAnswer (number_of client.old.who) request.now (speaking client.old manner.old)
        (speaking client.new manner.new) replies.old.items replies.new.items)
        (λ _. AddsNothing (number_of client.old.who) request.now (speaking client.old manner.old)
        (speaking client.new manner.new) replies.old.items replies.new.items) }
    ensures same { AreAlike client.old client.new }
{
    match read_script(service.alloc, request, MOST_RECORDS) {
        Ok(script) => report_taken(service, client, *manner, script, replies),
        Err(fault) => answer_other(service, manner, request, fault, replies),
    }
}

/// Serves what a request asks that was read before its turn, and adds the replies, or that the session takes no
/// refreshes. Where memory runs out it adds nothing.
pub(crate) fn answer_read<W: Follower + Drop, R: Wait, K>(
    service: &Service<'_, W, R, K>,
    client: &mut Client<W>,
    manner: Manner,
    request: Request,
    replies: &mut Vec<u8>,
) -> Result<(), AllocError>
    requires table { client.old.table ≡ service.now.server.now }
    requires quiet { is_some client.old.asked ≡ false }
    ensures answered { (text : List ℕ) → SpellsScript most_records text (request_of request ∷ []) → MatchResult result
        (λ _. AddsAnswer (number_of client.old.who) text (speaking client.old manner) (speaking client.new manner)
        replies.old.items replies.new.items)
        (λ _. AddsNothing (number_of client.old.who) text (speaking client.old manner) (speaking client.new manner)
        replies.old.items replies.new.items) }
    ensures same { AreAlike client.old client.new }
{
    if !manner.terms.takes_refreshes && is_refresh(&request) {
        return refuse_refresh(service.alloc, manner, replies);
    }
    let before = replies.len();
    match add_reply(service, client, manner, request, replies) {
        Ok(()) => Ok(()),
        Err(_) => {
            replies.truncate(before);
            Err(AllocError)
        }
    }
}
