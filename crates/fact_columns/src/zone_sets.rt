//! Which rows of a dimension the lines of each chunk of places name.
ghost use Rattle.std.specs.Prelude.{◌≡◌, ◌≤◌, ◌<◌, ◌*◌, ◌^◌, [], length, OnOk, IfOk};
ghost use Rattle.scan_kernel.specs.Zones.{chunk_size};
ghost use Rattle.fact_columns.specs.Zoned.{Cover, HasRow, KeepSets};

use scan_kernel::{CHUNK, Zones, coarse_code, with_code};
use std::alloc::{AllocError, Global};
use std::marker::Model;

/// Of one dimension the coarse codes of its rows, and for each chunk of places the set of the codes of the rows that its
/// lines name. A set may have codes more, of lines that are gone.
#[derive(Drop)]
pub struct ZoneSets {
    codes: Vec<u8>,
    sets: Vec<u64>,
}

impl Model for ZoneSets {
    ghost use Rattle.fact_columns.specs.ZoneSets.{Sets, sets_of};

    ghost Value = { Sets };

    ghost view = { sets_of };
}

impl ZoneSets {
    /// No chunks.
    pub fn new(alloc: Global, codes: Vec<u8>) -> ZoneSets
        ensures { result ≡ record { codes = codes.items; sets = [] } }
    {
        ZoneSets {
            codes,
            sets: Vec::new(alloc),
        }
    }

    /// Has an empty set for each chunk of so many places for which there is none.
    pub fn cover(&mut self, places: usize) -> Result<(), AllocError>
        ensures covered { OnOk result (Cover places self.new) }
        ensures kept { KeepSets self.old self.new }
    {
        while self.sets.len() <= places / CHUNK {
            self.sets.push(0)?;
        }
        Ok(())
    }

    /// Puts a row's code into the set of a place's chunk.
    #[inline(always)]
    pub fn mark(&mut self, place: usize, row: u32)
        requires { place < chunk_size * length self.old.sets }
        ensures here { HasRow self.new place row }
        ensures kept { KeepSets self.old self.new }
    {
        let code = coarse_code(&self.codes, row as usize);
        let set = &mut self.sets[place / CHUNK];
        *set = with_code(*set, code);
    }

    /// The zones as a scan reads them.
    pub fn zones(&self) -> Zones<'_>
        ensures codes { result.codes.now ≡ self.now.codes }
        ensures sets { result.sets.now ≡ self.now.sets }
    {
        Zones {
            codes: &self.codes,
            sets: &self.sets,
        }
    }

    /// The same sets.
    pub fn copy(&self, alloc: Global) -> Result<ZoneSets, AllocError>
        ensures { IfOk result (λ copy. copy ≡ self.now) }
    {
        Ok(ZoneSets {
            codes: self.codes.to_vec(alloc)?,
            sets: self.sets.to_vec(alloc)?,
        })
    }
}
