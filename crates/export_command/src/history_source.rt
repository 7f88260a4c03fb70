//! The tables after commits of a journal as the source of a base.

ghost use Rattle.std.specs.Prelude.{◌≢◌, ℕ, List, IfOk, IfErr};
ghost use Rattle.export_command.specs.Histories.{AreRefusedTogether, IsHistoryOf, TellsSourceFault, files_of};
ghost use Rattle.export_command.specs.Status.{export_status};
ghost use Rattle.ssb_schema.specs.declared.table.Table.{Table};
ghost use Rattle.ssb_text.specs.Layouts.{AreRows};

use crate::exporting::ExportSource;
use crate::fault::ExportFault;
use crate::fault::ExportRefusal::Journal;
use crate::history_tables::{TablesAt, read_history};
use crate::moment::Moment;
use base_source::{BaseSource, SourcedBase};
use journal_opening::{OpeningFault, OpensJournal, table_marks};
use ssb_files::JobFault::Found;
use ssb_files::{LoadedFor, TableBytes, checked_base_of};
use ssb_text::{TableFiles, TableLayout, Tables};
use std::alloc::Global;
use std::hash::RandomState;
use std::io::{Read, Write};
use std::sync::Arc;
use std::thread::Threads;

/// Five table files, and the journal of commits over them, up to a moment.
#[derive(Drop)]
pub struct HistorySource<'a, P: OpensJournal, I: Read + Drop> {
    /// The readers of the tables' files, and how these are laid out.
    pub tables: Tables<I>,
    pub layout: TableLayout,
    /// The bytes of the tables, which are counted while these are loaded.
    pub bytes: &'a TableBytes,
    /// The journal's file, which is there.
    pub journal: &'a P,
    pub hashing: RandomState,
    /// The commit after which the base is.
    pub moment: Moment,
}

/// The base of a source, and after how many commits it is. The tables are read first, and then the journal, which is as
/// it was.
pub fn read_source<'a, P: OpensJournal, I: Read + Drop>(
    rt: &(impl Threads + Sync),
    alloc: Global,
    source: HistorySource<'a, P, I>,
) -> Result<SourcedBase, ExportFault>
    ensures base { IfOk result (λ sourced. IsHistoryOf
        (AreRows I.remaining (files_of source.entry.tables source.entry.layout)) (P.holds source.entry.journal.now)
        source.entry.moment.past source.entry.moment.at sourced.base sourced.after) }
    ensures fault { IfErr result (λ fault. (texts : Table → List ℕ)
        → AreRows I.remaining (files_of source.entry.tables source.entry.layout) texts
        → TellsSourceFault texts (P.holds source.entry.journal.now) (P.is_taken source.entry.journal.now)
        (P.is_missing source.entry.journal.now) source.entry.moment.past source.entry.moment.at fault) }
    ensures words { IfErr result (λ fault. export_status fault ≢ 2) }
    ensures trace { IfErr result (λ fault. export_status fault ≢ 3) }
{
    let HistorySource {
        tables,
        layout,
        bytes,
        journal,
        hashing,
        moment,
    } = source;
    let tables = TableFiles { tables, layout };
    let loaded = checked_base_of(rt, alloc, tables, LoadedFor::Serving)?;
    let (base, checksums) = loaded;
    let marks = table_marks(&base, layout, bytes, &checksums);
    let base = Arc::new(alloc, base)?;
    let file = match journal.open(alloc) {
        Ok(file) => file,
        Err(error) => return Err(Found(Journal(OpeningFault::File(error)))),
    };
    let source = ExportSource {
        base,
        marks: &marks,
        file,
    };
    let read = match read_history(rt, alloc, hashing, source, moment) {
        Ok(read) => read,
        Err(fault) => return Err(fault),
    };
    let TablesAt { tables, after } = read;
    let base = tables.to_base(alloc)?;
    Ok(SourcedBase { base, after })
}

impl<'a, P: OpensJournal, I: Read + Drop> BaseSource for HistorySource<'a, P, I> {
    ghost holds = { λ source base after. IsHistoryOf (AreRows I.remaining (files_of source.tables source.layout))
        (P.holds source.journal.now) source.moment.past source.moment.at base after };

    ghost is_refused = { λ source. AreRefusedTogether (AreRows I.remaining (files_of source.tables source.layout))
        (P.holds source.journal.now) (P.is_taken source.journal.now) (P.is_missing source.journal.now)
        source.moment.past source.moment.at };

    fn load<R: Threads + Sync + AllocGlobal, E: Write>(
        self,
        rt: &R,
        err: &mut E,
    ) -> Result<SourcedBase, u8> {
        match read_source(rt, rt.alloc(), self) {
            Ok(sourced) => Ok(sourced),
            Err(fault) => Err(fault.tell(err)),
        }
    }
}
