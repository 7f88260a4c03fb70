//! Groups, as they are written.

ghost use Rattle.std.specs.Prelude.{◌≡◌, ◌⊎◌, ◌++◌, IfOk, IfErr, OnOk, OnErr};
ghost use Rattle.std.specs.Io.KnownBytes.{Appends, Keeps};
ghost use Rattle.journal.specs.Groups.{block};
ghost use Rattle.ssb_files.specs.declared.fault.Fault.TheVariants as common;
ghost use Rattle.ssb_files.specs.declared.job.JobFault.TheVariants as job;
ghost use Rattle.ssb_text.specs.Written.{AppendsPart};
ghost use Rattle.ship_command.specs.Stream.{mark, sign_of_life};

use crate::fault::ShipFault;
use journal::open_block;
use ssb_files::Fault;
use ssb_files::JobFault::Program;
use ssb_journal::seal;
use ssb_text::write_bytes;
use std::alloc::{AllocError, Global};
use std::io::Write;

/// The group of a mark: so many commits come before the groups behind it.
pub(crate) fn mark_of(alloc: Global, commits: u64) -> Result<Vec<u8>, AllocError>
    ensures { IfOk result (λ group. group.items ≡ mark commits) }
{
    let text = format!(in alloc; "after|{commits}\n")?;
    seal(alloc, text.as_bytes())
}

/// A group without commits.
pub(crate) fn sign_of_life(alloc: Global) -> Result<Vec<u8>, AllocError>
    ensures { IfOk result (λ group. group.items ≡ sign_of_life) }
{
    seal(alloc, &[])
}

/// Puts a group, behind an open gate, to bytes that are to be written.
pub(crate) fn push_block(alloc: Global, bytes: &mut Vec<u8>, group: &[u8]) -> Result<(), AllocError>
    ensures { OnOk result (bytes.new.items ≡ bytes.old.items ++ block group.now) }
{
    let block = open_block(alloc, group)?;
    bytes.extend_from_slice(&block)?;
    Ok(())
}

/// Writes bytes; where that fails, a part of them from their beginning on.
pub(crate) fn write<W: Write>(out: &mut W, bytes: &[u8]) -> Result<(), ShipFault>
    ensures written { OnOk result (Appends (W.contents out.old) (W.contents out.new) bytes.now) }
    ensures part { OnErr result (AppendsPart (W.contents out.old) (W.contents out.new) bytes.now) }
    ensures fault { IfErr result (λ fault. fault ≡ job.Program common.WriteFailed) }
{
    match write_bytes(out, bytes) {
        Ok(()) => Ok(()),
        Err(_) => Err(Program(Fault::WriteFailed)),
    }
}

/// Writes a group behind an open gate; where that fails, a part of it from its beginning on.
pub(crate) fn send<W: Write>(alloc: Global, out: &mut W, group: &[u8]) -> Result<(), ShipFault>
    ensures written { OnOk result (Appends (W.contents out.old) (W.contents out.new) (block group.now)) }
    ensures part { OnErr result (AppendsPart (W.contents out.old) (W.contents out.new) (block group.now)) }
    ensures fault { IfErr result (λ fault. (fault ≡ job.Program common.WriteFailed)
        ⊎ (fault ≡ job.Program common.OutOfMemory)) }
{
    let Ok(bytes) = open_block(alloc, group) else {
        return Err(Program(Fault::OutOfMemory));
    };
    match write(out, &bytes) {
        Ok(()) => Ok(()),
        Err(fault) => Err(fault),
    }
}

/// Has a writer hand on what it holds.
pub(crate) fn hand_on<W: Write>(out: &mut W) -> Result<(), ShipFault>
    ensures kept { Keeps (W.contents out.old) (W.contents out.new) }
    ensures fault { IfErr result (λ fault. fault ≡ job.Program common.WriteFailed) }
{
    match out.flush() {
        Ok(()) => Ok(()),
        Err(_) => Err(Program(Fault::WriteFailed)),
    }
}
