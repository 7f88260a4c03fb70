//! `ship` of a store.

ghost use Rattle.std.specs.Prelude.{◌≡◌, ◌≢◌, IfErr, OnOk};
ghost use Rattle.store_command.specs.Shipped.{ShipsStore};
ghost use Rattle.store_command.specs.Status.{store_status, IsRefusedOrFailed};

use crate::fault::{StoreJobFault, StoreRefusal, of_ship};
use crate::finding::find;
use journal_file::JournalFile;
use ship_command::{Shipment, ShippedFile, ship};
use ssb_files::JobFault::Found;
use std::alloc::Global;
use std::cell::Cell;
use std::io::Write;
use std::rt::Files;
use std::time::Clock;
use store_folder::{GrowingStore, StoreFault};

/// A store whose groups are shipped, and which of them.
#[derive(Drop)]
pub struct StoreShip<'a, F: Files> {
    /// The files among which the store is.
    pub files: &'a F,
    /// The store's folder.
    pub folder: &'a str,
    /// Those that end with this commit of the store or before are left out.
    pub after: u64,
    /// Whether it ends with those that count now.
    pub once: bool,
}

// What a store's file tells of why it is not read any further.
fn of_store(fault: &StoreFault) -> StoreJobFault
    ensures { IsRefusedOrFailed (store_status result) }
{
    match fault.clone() {
        Ok(fault) => Found(StoreRefusal::Store(fault)),
        Err(_) => Found(StoreRefusal::Store(StoreFault::OutOfMemory)),
    }
}

// Writes the groups of a store as they come, or those that count now.
fn ship_store<C: Clock, F: Files, W: Write>(
    clock: &C,
    alloc: Global,
    place: &StoreShip<'_, F>,
    out: &mut W,
) -> Result<(), StoreJobFault>
where
    F::File: JournalFile,
    ensures shipped { OnOk result (ShipsStore place.now.after (W.contents out.old) (W.contents out.new)) }
    ensures statuses { IfErr result (λ fault. IsRefusedOrFailed (store_status fault)) }
{
    let found = find(place.files, alloc, place.folder, Some(place.after))?;
    let shipment = Shipment {
        past: found.after(),
        after: place.after,
        once: place.once,
    };
    let passed = Cell::new(shipment.past);
    let file = match GrowingStore::open(place.files, alloc, place.folder, &found, &passed) {
        Ok(file) => file,
        Err(fault) => return Err(Found(StoreRefusal::Store(fault))),
    };
    let mut file = ShippedFile::new(alloc, file, &passed);
    match ship(clock, alloc, &mut file, shipment, out) {
        Ok(()) => Ok(()),
        Err(fault) => match file.followed.file().fault() {
            Some(fault) => Err(of_store(fault)),
            None => Err(of_ship(fault)),
        },
    }
}

/// Ships the groups of a store, over the turns of its server from one segment to the next, and tells a fault on a line of
/// `err`. The stream is that of a journal over the newest tables that are after at most as many commits as are left out;
/// where it does not begin with the store's first commit, a mark tells how many come before. A store that has no such
/// tables, or fewer commits, is told (69), and so is where commits are missing (88), before what is behind them is
/// written.
///
/// The result is the exit status: 0 where all were written that the store has, 1 where it is refused, and else 4.
pub fn run_store_ship<C: Clock, F: Files, W: Write, E: Write>(
    clock: &C,
    alloc: Global,
    place: &StoreShip<'_, F>,
    out: &mut W,
    err: &mut E,
) -> u8
where
    F::File: JournalFile,
    ensures shipped { result ≡ 0 → ShipsStore place.now.after (W.contents out.old) (W.contents out.new) }
    ensures others { result ≢ 0 → result ≢ 1 → result ≡ 4 }
{
    match ship_store(clock, alloc, place, out) {
        Ok(()) => 0,
        Err(fault) => {
            // What is before the fault is handed on.
            let _ = out.flush();
            fault.tell(err)
        }
    }
}
