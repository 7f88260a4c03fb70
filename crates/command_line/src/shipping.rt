//! A journal or a store that is shipped as it grows.

use arguments::{ShipWords, ShippedWord};
use journal_file::JournalFile;
use ship_command::{Shipment, WatchedPath, run_ship};
use std::io::Write;
use std::rt::Files;
use std::time::Clock;
use store_command::{StoreShip, run_store_ship};

/// Ships the groups of a journal or a store, and gives the exit status.
pub(crate) fn ship_groups<R: Clock + AllocGlobal, F: Files, W: Write, E: Write>(
    rt: &R,
    files: &F,
    words: &ShipWords<'_>,
    out: &mut W,
    err: &mut E,
) -> u8
where
    F::File: JournalFile,
{
    let (after, once) = (words.after, words.once);
    match words.shipped {
        ShippedWord::Journal(path) => {
            let place = WatchedPath { files, path };
            let shipment = Shipment {
                past: 0,
                after,
                once,
            };
            run_ship(rt, rt.alloc(), &place, shipment, out, err)
        }
        ShippedWord::Store(folder) => {
            let place = StoreShip {
                files,
                folder,
                after,
                once,
            };
            run_store_ship(rt, rt.alloc(), &place, out, err)
        }
    }
}
