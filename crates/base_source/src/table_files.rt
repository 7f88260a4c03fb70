//! Five table files as the source of a base.

ghost use Rattle.std.specs.Prelude.{◌≡◌, ◌⊎◌, ℕ, List, IfErr};
ghost use Rattle.base_source.specs.Spelled.{AreRefusedTables, IsSpelled};
ghost use Rattle.ssb_text.specs.Layouts.{AreRows};

use crate::source::{BaseSource, SourcedBase};
use ssb_files::{LoadedFor, base_of};
use ssb_text::TableFiles;
use std::io::{Read, Write};
use std::thread::Threads;

impl<I: Read + Drop> BaseSource for TableFiles<I> {
    ghost holds = { λ tables base after. IsSpelled (AreRows I.remaining tables) base after };

    ghost is_refused = { λ tables. AreRefusedTables (AreRows I.remaining tables) };

    fn load<R: Threads + Sync + AllocGlobal, E: Write>(
        self,
        rt: &R,
        err: &mut E,
    ) -> Result<SourcedBase, u8> {
        match base_of(rt, rt.alloc(), self, LoadedFor::Reports) {
            Ok(base) => Ok(SourcedBase { base, after: 0 }),
            Err(fault) => Err(fault.tell(err)),
        }
    }
}
