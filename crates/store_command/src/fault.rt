//! Why a store was not made or read, or has no newer tables.

ghost use Rattle.std.specs.Prelude.{◌≡◌, ℕ, List};
ghost use Rattle.export_command.specs.Status.{export_status};
ghost use Rattle.ship_command.specs.Shipped.{TellsShipFault};
ghost use Rattle.store_command.specs.Status.{store_status, IsRefusedOrFailed};

use export_command::{ExportFault, ExportRefusal, NotEmpty};
use journal::DiskError;
use journal_file::OpenError;
use journal_opening::OpeningFault;
use ship_command::{ShipFault, ShipRefusal};
use ssb_files::{Finding, JobFault};
use ssb_journal::{JournalFault, JournalOpenFault, ReplayFault};
use std::fmt;
use std::io::ErrorKind;
use store_folder::StoreFault;

/// Why a store was not made or read, or has no newer tables.
#[derive(Debug, Drop)]
pub enum StoreRefusal {
    /// The folder takes no store: it has something in it, or is none.
    Folder(NotEmpty),
    /// The folder, by its path, could not be written.
    CannotWrite(String),
    /// The folder is no store that can be read.
    Store(StoreFault),
    /// Another checkpoint is under way.
    InUse,
    /// The tables were not written.
    Tables(ExportRefusal),
}

impl Finding for StoreRefusal {
    ghost use Rattle.store_command.specs.Status.{refusal_status};

    ghost found_status = { refusal_status };

    fn status(&self) -> u8 {
        match self {
            StoreRefusal::Folder(_) | StoreRefusal::InUse => 1,
            StoreRefusal::CannotWrite(_) => 4,
            StoreRefusal::Store(fault) => fault.status(),
            StoreRefusal::Tables(fault) => fault.status(),
        }
    }
}

// Whether it is told as want of memory, whatever the job.
fn lacks_memory(fault: &OpeningFault) -> bool {
    match fault {
        OpeningFault::Kept(JournalOpenFault::Journal(JournalFault::OutOfMemory))
        | OpeningFault::Kept(JournalOpenFault::Disk(DiskError::OutOfMemory))
        | OpeningFault::Replay(ReplayFault::OutOfMemory) => true,
        OpeningFault::File(OpenError::Io(error)) => error.kind() == ErrorKind::OutOfMemory,
        _ => false,
    }
}

impl fmt::Display for StoreRefusal {
    fn fmt<W: fmt::Write>(&self, f: &mut fmt::Formatter<W>) -> fmt::Result {
        match self {
            StoreRefusal::Folder(fault) => write!(f, "store: {fault}"),
            StoreRefusal::CannotWrite(path) => write!(f, "cannot write {path}"),
            StoreRefusal::Store(StoreFault::OutOfMemory) => f.write_str("out of memory"),
            StoreRefusal::Store(fault) => write!(f, "store: {fault}"),
            StoreRefusal::InUse => write!(f, "store: 94 InUse"),
            StoreRefusal::Tables(ExportRefusal::Journal(fault)) if lacks_memory(fault) => {
                f.write_str("out of memory")
            }
            StoreRefusal::Tables(ExportRefusal::Journal(fault)) => write!(f, "store: {fault}"),
            StoreRefusal::Tables(ExportRefusal::Commit(fault)) => write!(f, "store: {fault}"),
            StoreRefusal::Tables(fault) => write!(f, "{fault}"),
        }
    }
}

/// Why a store was not made or read, or has no newer tables. The exit status is 1 where the data or the store is
/// refused, and else 4.
pub type StoreJobFault = JobFault<StoreRefusal>;

/// The fault of a job that meets this one of an export.
pub(crate) fn of_export(fault: ExportFault) -> StoreJobFault
    ensures { store_status result ≡ export_status fault }
{
    match fault {
        JobFault::Program(fault) => JobFault::Program(fault),
        JobFault::Found(fault) => JobFault::Found(StoreRefusal::Tables(fault)),
    }
}

/// The fault of a job that meets this one as it ships.
pub(crate) fn of_ship(fault: ShipFault) -> StoreJobFault
    ensures { (past after : ℕ) (file : List ℕ) (groups : List (List ℕ)) (behind : List ℕ)
        → TellsShipFault past after file groups behind fault → IsRefusedOrFailed (store_status result) }
{
    match fault {
        JobFault::Program(fault) => JobFault::Program(fault),
        JobFault::Found(ShipRefusal::Journal(fault)) => {
            JobFault::Found(StoreRefusal::Tables(ExportRefusal::Journal(fault)))
        }
        JobFault::Found(ShipRefusal::Commit(fault)) => {
            JobFault::Found(StoreRefusal::Tables(ExportRefusal::Commit(fault)))
        }
    }
}
