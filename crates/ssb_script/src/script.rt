//! A script from any reader.

ghost use Rattle.std.specs.Prelude.{◌≡◌, ℕ, List, Some, map, ◌++◌, IfOk, IfErr};
ghost use Rattle.std.specs.Option.{option_to_list};
ghost use Rattle.ssb_script.specs.Requests.{request_of, requests_of};
ghost use Rattle.ssb_script.specs.Scripts.{IsOpenEnd, IsScriptFault, SpellsScript};
ghost use Rattle.ssb_script.specs.Begun.{Nothing};
ghost use Rattle.ssb_script.specs.Steps.{begun_in};

use crate::begun::{Begun, ScriptStep};
use crate::error::ScriptError;
use crate::request::{Request, Script};
use csv::ByteRecord;
use ssb_text::{next_record, record_reader};
use std::alloc::{AllocError, Global};
use std::io::Read;

/// The most records that a script may have.
pub const MOST_RECORDS: u64 = 1_000_000_000;

// Keeps the request that a record ended, if it ended one.
fn keep(requests: &mut Vec<Request>, request: Option<Request>) -> Result<(), AllocError>
    ensures { IfOk result (λ _. map request_of requests.new.items ≡ map request_of requests.old.items
        ++ map request_of (option_to_list request)) }
{
    if let Some(request) = request {
        requests.push(request)?;
    }
    Ok(())
}

// The script of these requests, where nothing more is begun.
fn script_of(requests: Vec<Request>, begun: Begun) -> Result<Script, ScriptError>
    ensures script { IfOk result (λ script. (begun_in begun ≡ Nothing)
        × (requests_of script ≡ map request_of requests.items)) }
    ensures fault { IfErr result (IsOpenEnd (begun_in begun)) }
{
    match begun {
        Begun::Nothing => Ok(Script { requests }),
        Begun::Refresh(_) => Err(ScriptError::NoCommit),
        Begun::Order(_) => Err(ScriptError::NoCommit),
        Begun::Asked(_) => Err(ScriptError::NoAnswer),
    }
}

/// Reads a script of at most `max_records` records to its end.
///
/// The error is the first that the script's records have, in their order, and within a record in the
/// order of the checks: a script of too many records is told at the first one past the bound, and a
/// script that ends inside a refresh or a block at its end. It reads `max_records` + 1 records at most, and
/// reserves room only for what it has read.
pub fn read_script<R: Read + Drop>(
    alloc: Global,
    source: R,
    max_records: u64,
) -> Result<Script, ScriptError>
    ensures script { IfOk result (λ script. (text : List ℕ) → R.remaining source ≡ Some text
        → SpellsScript max_records text (requests_of script)) }
    ensures fault { IfErr result (λ e. (text : List ℕ) → R.remaining source ≡ Some text
        → IsScriptFault max_records text e) }
{
    let mut reader = record_reader(alloc, source);
    let mut fields = ByteRecord::new(alloc);
    let mut requests = Vec::new(alloc);
    let mut begun = Begun::Nothing;
    for before in 0..max_records {
        if !next_record(&mut reader, &mut fields)? {
            return script_of(requests, begun);
        }
        let ScriptStep {
            request,
            begun: next,
        } = begun.after(alloc, before, &fields)?;
        keep(&mut requests, request)?;
        begun = next;
    }
    if next_record(&mut reader, &mut fields)? {
        return Err(ScriptError::TooLong);
    }
    script_of(requests, begun)
}
