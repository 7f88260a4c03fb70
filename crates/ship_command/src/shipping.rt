//! The groups of a journal's file, written as they come.

ghost use Rattle.std.specs.Prelude.{◌≡◌, ◌<◌, ◌≤◌, [], ◌∷◌, ℕ, List, Option, true, length, IfOk, IfErr, MatchOption, OnOk, OnErr};
ghost use Rattle.journal.specs.Groups.{recovered};
ghost use Rattle.journal.specs.Promises.{AreLeft};
ghost use Rattle.ship_command.specs.Shipped.{ShipsAll, ShipsNoMore, TellsShipFault};
ghost use Rattle.ship_command.specs.Stream.{BeginsStream, Ships, ShipsPart};
ghost use Rattle.ship_command.specs.Taken.{HaveGrown};

use crate::fault::ShipFault;
use crate::fault::ShipRefusal::Commit;
use crate::sending::{hand_on, mark_of, push_block, send, sign_of_life, write};
use crate::taking::{CountedGroup, LeftOut, ShippedFile};
use journal::GrowingFile;
use journal_opening::NoSuchCommit;
use ssb_files::JobFault::Found;
use std::alloc::Global;
use std::io::Write;
use std::thread;
use std::time::{Clock, Duration, Instant};

/// How many milliseconds lie between two looks at the file.
const BETWEEN_LOOKS: u64 = 2;

/// How many seconds without a group pass before a sign of life.
const SILENCE: u64 = 1;

/// Which groups are shipped. Commits are counted from the first of the history.
#[derive(Clone, Copy, Debug, PartialEq, Eq)]
pub struct Shipment {
    /// How many commits of the history come before those of the file, at most `after`: 0 where the file has all.
    pub past: u64,
    /// Those that end with this commit or before are left out; none where it is 0.
    pub after: u64,
    /// Whether it ends with those that count now.
    pub once: bool,
}

// The head, which is waited for where more is shipped than what counts now; none where there is none.
fn wait_for_head<C: Clock, F: GrowingFile>(
    clock: &C,
    alloc: Global,
    file: &mut ShippedFile<'_, F>,
    shipment: Shipment,
) -> Result<Option<Vec<u8>>, ShipFault>
    requires none { file.old.followed.groups ≡ [] }
    requires behind { shipment.past ≤ shipment.after }
    ensures next { IfOk result (λ found. MatchOption found
        ((file.new.followed.groups ≡ []) × (recovered (F.seen file.new.followed.file) ≡ [])
        × F.is_ended file.new.followed.file × (shipment.after ≡ shipment.past))
        (λ head. file.new.followed.groups ≡ head.items ∷ [])) }
    ensures known { F.holds file.new.followed.file ≡ F.holds file.old.followed.file }
    ensures fault { IfErr result (TellsShipFault shipment.past shipment.after (F.seen file.new.followed.file)
        file.new.followed.groups file.new.followed.rest) }
{
    for _ in 0..u64::MAX {
        if let Some(head) = file.head(alloc)? {
            return Ok(Some(head));
        }
        if shipment.once || shipment.after > shipment.past {
            break;
        }
        thread::sleep(clock, Duration::from_millis(BETWEEN_LOOKS));
    }
    let found = file.head(alloc)?;
    if found.is_none() && shipment.after > shipment.past {
        let number = shipment.after;
        return Err(Found(Commit(NoSuchCommit { number })));
    }
    Ok(found)
}

// The bytes that a stream begins with: those of the head, and of the mark and the first group behind those that are left
// out.
fn start_of<F: GrowingFile>(
    alloc: Global,
    file: &mut ShippedFile<'_, F>,
    head: &[u8],
    shipment: Shipment,
) -> Result<Vec<u8>, ShipFault>
    requires head { file.old.followed.groups ≡ head.now ∷ [] }
    requires behind { shipment.past ≤ shipment.after }
    ensures stream { IfOk result (λ bytes. BeginsStream shipment.past shipment.after file.new.followed.groups
        bytes.items) }
    ensures known { F.holds file.new.followed.file ≡ F.holds file.old.followed.file }
    ensures fault { IfErr result (TellsShipFault shipment.past shipment.after (F.seen file.new.followed.file)
        file.new.followed.groups file.new.followed.rest) }
{
    let mut bytes = Vec::new(alloc);
    push_block(alloc, &mut bytes, head)?;
    if shipment.after == 0 {
        return Ok(bytes);
    }
    let LeftOut { commits, next } = file.leave_out(alloc, shipment.past, shipment.after)?;
    let mark = mark_of(alloc, commits)?;
    push_block(alloc, &mut bytes, &mark)?;
    if let Some(group) = next {
        push_block(alloc, &mut bytes, &group)?;
    }
    Ok(bytes)
}

// Sends what a stream begins with.
fn send_start<F: GrowingFile, W: Write>(
    alloc: Global,
    file: &mut ShippedFile<'_, F>,
    head: &[u8],
    shipment: Shipment,
    out: &mut W,
) -> Result<(), ShipFault>
    requires head { file.old.followed.groups ≡ head.now ∷ [] }
    requires behind { shipment.past ≤ shipment.after }
    ensures ships { OnOk result (Ships shipment.past shipment.after file.new.followed.groups (W.contents out.old)
        (W.contents out.new)) }
    ensures part { OnErr result (ShipsNoMore shipment.past shipment.after file.new.followed.groups (W.contents out.old)
        (W.contents out.new)) }
    ensures some { OnOk result (0 < length file.new.followed.groups) }
    ensures known { F.holds file.new.followed.file ≡ F.holds file.old.followed.file }
    ensures fault { IfErr result (TellsShipFault shipment.past shipment.after (F.seen file.new.followed.file)
        file.new.followed.groups file.new.followed.rest) }
{
    let bytes = start_of(alloc, file, head, shipment)?;
    write(out, &bytes)
}

// Sends the groups that have come, one after another, behind those that were sent: whether any has.
fn send_new<F: GrowingFile, W: Write>(
    alloc: Global,
    file: &mut ShippedFile<'_, F>,
    out: &mut W,
) -> Result<bool, ShipFault>
    requires { 0 < length file.old.followed.groups }
    ensures ships { OnOk result ((past after : ℕ) (first : Option (List ℕ))
        → Ships past after file.old.followed.groups first (W.contents out.old)
        → Ships past after file.new.followed.groups first (W.contents out.new)) }
    ensures all { OnOk result ((recovered (F.seen file.new.followed.file) ≡ file.new.followed.groups)
        × F.is_ended file.new.followed.file) }
    ensures part { OnErr result ((past after : ℕ) (first : Option (List ℕ))
        → Ships past after file.old.followed.groups first (W.contents out.old)
        → ShipsPart past after file.new.followed.groups first (W.contents out.new)) }
    ensures grown { HaveGrown file.old.followed.groups file.new.followed.groups }
    ensures known { F.holds file.new.followed.file ≡ F.holds file.old.followed.file }
    ensures fault { IfErr result (λ fault. (past after : ℕ) → TellsShipFault past after (F.seen file.new.followed.file)
        file.new.followed.groups file.new.followed.rest fault) }
{
    let mut has_sent = false;
    loop {
        let Some(next) = file.next(alloc)? else {
            hand_on(out)?;
            return Ok(has_sent);
        };
        let CountedGroup { group, commits: _ } = next;
        send(alloc, out, &group)?;
        has_sent = true;
    }
}

// Sends a sign of life.
fn send_alive<W: Write>(alloc: Global, out: &mut W) -> Result<(), ShipFault>
    ensures ships { OnOk result ((past after : ℕ) (groups : List (List ℕ)) (first : Option (List ℕ))
        → Ships past after groups first (W.contents out.old) → Ships past after groups first (W.contents out.new)) }
    ensures part { OnErr result ((past after : ℕ) (groups : List (List ℕ)) (first : Option (List ℕ))
        → Ships past after groups first (W.contents out.old) → ShipsPart past after groups first (W.contents out.new)) }
    ensures fault { IfErr result (λ fault. (past after : ℕ) (file : List ℕ) (groups : List (List ℕ)) (behind : List ℕ)
        → TellsShipFault past after file groups behind fault) }
{
    let sign = sign_of_life(alloc)?;
    send(alloc, out, &sign)?;
    hand_on(out)
}

// Whether a second has passed since then. A clock that does not go tells of none.
fn is_long_ago<C: Clock>(clock: &C, since: Option<Instant>) -> bool {
    match (since, Instant::now(clock)) {
        (Some(since), Ok(now)) => now.duration_since(since) >= Duration::from_secs(SILENCE),
        _ => false,
    }
}

// Sends the groups as they come, and a sign of life behind each second of silence.
fn send_as_they_come<C: Clock, F: GrowingFile, W: Write>(
    clock: &C,
    alloc: Global,
    file: &mut ShippedFile<'_, F>,
    out: &mut W,
) -> Result<(), ShipFault>
    requires some { 0 < length file.old.followed.groups }
    requires all { (recovered (F.seen file.old.followed.file) ≡ file.old.followed.groups)
        × F.is_ended file.old.followed.file }
    ensures ships { OnOk result ((past after : ℕ) (first : Option (List ℕ))
        → Ships past after file.old.followed.groups first (W.contents out.old)
        → Ships past after file.new.followed.groups first (W.contents out.new)) }
    ensures all { OnOk result ((recovered (F.seen file.new.followed.file) ≡ file.new.followed.groups)
        × F.is_ended file.new.followed.file) }
    ensures part { OnErr result ((past after : ℕ) (first : Option (List ℕ))
        → Ships past after file.old.followed.groups first (W.contents out.old)
        → ShipsPart past after file.new.followed.groups first (W.contents out.new)) }
    ensures known { F.holds file.new.followed.file ≡ F.holds file.old.followed.file }
    ensures fault { IfErr result (λ fault. (past after : ℕ) → TellsShipFault past after (F.seen file.new.followed.file)
        file.new.followed.groups file.new.followed.rest fault) }
{
    let mut since = Instant::now(clock).ok();
    for _ in 0..u64::MAX {
        thread::sleep(clock, Duration::from_millis(BETWEEN_LOOKS));
        if send_new(alloc, file, out)? {
            since = Instant::now(clock).ok();
        } else if is_long_ago(clock, since) {
            send_alive(alloc, out)?;
            since = Instant::now(clock).ok();
        }
    }
    Ok(())
}

// The same as `ship`.
fn ship_all<C: Clock, F: GrowingFile, W: Write>(
    clock: &C,
    alloc: Global,
    file: &mut ShippedFile<'_, F>,
    shipment: Shipment,
    out: &mut W,
) -> Result<(), ShipFault>
    requires none { file.old.followed.groups ≡ [] }
    requires behind { shipment.past ≤ shipment.after }
    ensures shipped { OnOk result (ShipsAll shipment.past shipment.after file.new.followed.groups (W.contents out.old)
        (W.contents out.new)) }
    ensures all { OnOk result ((recovered (F.seen file.new.followed.file) ≡ file.new.followed.groups)
        × F.is_ended file.new.followed.file) }
    ensures part { OnErr result (ShipsNoMore shipment.past shipment.after file.new.followed.groups (W.contents out.old)
        (W.contents out.new)) }
    ensures known { F.holds file.new.followed.file ≡ F.holds file.old.followed.file }
    ensures fault { IfErr result (TellsShipFault shipment.past shipment.after (F.seen file.new.followed.file)
        file.new.followed.groups file.new.followed.rest) }
{
    let Some(head) = wait_for_head(clock, alloc, file, shipment)? else {
        return Ok(());
    };
    send_start(alloc, file, &head, shipment, out)?;
    send_new(alloc, file, out)?;
    if shipment.once {
        return Ok(());
    }
    send_as_they_come(clock, alloc, file, out)
}

/// Writes the groups of a journal's file that count, in their order and each once, as they come; or those that count
/// now. Each was synced before it is written. What was written is a beginning of their stream, whatever ends it, and all
/// of it where nothing fails.
pub fn ship<C: Clock, F: GrowingFile, W: Write>(
    clock: &C,
    alloc: Global,
    file: &mut ShippedFile<'_, F>,
    shipment: Shipment,
    out: &mut W,
) -> Result<(), ShipFault>
    requires none { file.old.followed.groups ≡ [] }
    requires behind { shipment.past ≤ shipment.after }
    ensures shipped { OnOk result (ShipsAll shipment.past shipment.after file.new.followed.groups (W.contents out.old)
        (W.contents out.new)) }
    ensures all { OnOk result ((recovered (F.seen file.new.followed.file) ≡ file.new.followed.groups)
        × F.is_ended file.new.followed.file) }
    ensures part { OnErr result (ShipsNoMore shipment.past shipment.after file.new.followed.groups (W.contents out.old)
        (W.contents out.new)) }
    // No crash takes away what was written.
    ensures on_disk { AreLeft file.new.followed.groups (F.may_leave file.new.followed.file) }
    ensures known { F.holds file.new.followed.file ≡ F.holds file.old.followed.file }
    ensures fault { IfErr result (TellsShipFault shipment.past shipment.after (F.seen file.new.followed.file)
        file.new.followed.groups file.new.followed.rest) }
{
    let shipped = ship_all(clock, alloc, file, shipment, out);
    file.followed.soundness();
    shipped
}
