//! `ship`: a journal's groups on standard output, and the status that it ends with.

ghost use Rattle.std.specs.Prelude.{◌≡◌, ◌≢◌, ◌≤◌};
ghost use Rattle.ship_command.specs.Shipped.{ShipsFile};

use crate::fault::ShipFault;
use crate::fault::ShipRefusal::Journal;
use crate::opens::OpensGrowing;
use crate::sending::hand_on;
use crate::shipping::{Shipment, ship};
use crate::taking::ShippedFile;
use journal_opening::OpeningFault;
use ssb_files::JobFault::Found;
use std::alloc::Global;
use std::cell::Cell;
use std::io::Write;
use std::time::Clock;

/// Ships a journal's groups, as `ship` does, and tells a fault on a line of `err`.
///
/// The result is the exit status: 0 where all were written that the file stands for, 1 where the journal is refused, or
/// has no such commit, and else 4.
pub fn run_ship<C: Clock, P: OpensGrowing, W: Write, E: Write>(
    clock: &C,
    alloc: Global,
    place: &P,
    shipment: Shipment,
    out: &mut W,
    err: &mut E,
) -> u8
    requires { shipment.past ≤ shipment.after }
    ensures shipped { result ≡ 0 → ShipsFile shipment.past shipment.after (P.holds place.now) (W.contents out.old)
        (W.contents out.new) }
    ensures others { result ≢ 0 → result ≢ 1 → result ≡ 4 }
{
    let file = match place.open(alloc) {
        Ok(file) => file,
        Err(error) => {
            let fault: ShipFault = Found(Journal(OpeningFault::File(error)));
            return fault.tell(err);
        },
    };
    let passed = Cell::new(shipment.past);
    let mut file = ShippedFile::new(alloc, file, &passed);
    match ship(clock, alloc, &mut file, shipment, out) {
        Ok(()) => 0,
        Err(fault) => {
            // What is before the fault is handed on.
            let _ = hand_on(out);
            fault.tell(err)
        },
    }
}
