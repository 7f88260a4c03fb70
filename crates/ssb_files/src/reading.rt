//! The scripts of a run, read one after the other.

ghost use Rattle.std.specs.Prelude.{◌≡◌, ◌≢◌, IfOk, IfErr, map};
ghost use Rattle.ssb_files.specs.Scripts.{AreScripts, HasRefused};
ghost use Rattle.ssb_files.specs.Status.{status_of};

use crate::fault::Fault;
use ssb_script::{MOST_RECORDS, Script, read_script};
use std::alloc::Global;
use std::io::Read;

/// The scripts that the sources spell, or the first fault: that of the first source that spells none.
pub fn read_scripts<I: Read + Drop>(alloc: Global, sources: Vec<I>) -> Result<Vec<Script>, Fault>
    ensures scripts { IfOk result (λ scripts. AreScripts (map I.remaining sources.items) scripts.items) }
    ensures refused { IfErr result (λ fault. status_of fault ≡ 1 → HasRefused (map I.remaining sources.items)) }
    ensures words { IfErr result (λ fault. status_of fault ≢ 2) }
    ensures trace { IfErr result (λ fault. status_of fault ≢ 3) }
{
    let mut scripts = Vec::new(alloc);
    for source in sources {
        match read_script(alloc, source, MOST_RECORDS) {
            Ok(script) => scripts.push(script)?,
            Err(fault) => return Err(Fault::Script(scripts.len() as u64 + 1, fault)),
        }
    }
    Ok(scripts)
}
