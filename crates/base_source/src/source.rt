//! Where a base comes from.

ghost use Rattle.std.specs.Prelude.{◌≡◌, ◌⊎◌, ℕ, IfOk, IfErr, OnOk};
ghost use Rattle.std.specs.Thread.{IsSync};
ghost use Rattle.ssb_base.specs.Base.{Tables};

use ssb_base::Base;
use std::io::Write;
use std::thread::Threads;

/// A base, and after how many commits of its history it is: 0 for loaded tables.
#[derive(Drop)]
pub struct SourcedBase {
    pub base: Base,
    pub after: u64,
}

/// Where a base comes from.
pub trait BaseSource {
    /// It holds this base, which is after so many commits of its history.
    ghost holds: { Self → Tables → ℕ → Type 0 };

    /// What it holds is refused.
    ghost is_refused: { Self → Type 0 };

    /// The base; or a fault, which is a line of `err`, and the exit status that it brings: 1 where what is held is
    /// refused, and 4 where it could not be read or memory ran out.
    fn load<R: Threads + Sync + AllocGlobal, E: Write>(
        self,
        rt: &R,
        err: &mut E,
    ) -> Result<SourcedBase, u8>
        requires shared { IsSync R.row }
        ensures base { IfOk result (λ sourced. holds self sourced.base sourced.after) }
        ensures quiet { OnOk result (err.new ≡ err.old) }
        ensures data { IfErr result (λ status. status ≡ 1 → is_refused self) }
        ensures status { IfErr result (λ status. (status ≡ 1) ⊎ (status ≡ 4)) };
}
