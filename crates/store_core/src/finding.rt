//! What a start finds in a folder, segment by segment.
ghost use Rattle.std.specs.Prelude.{◌≡◌, ◌<◌, ◌+◌, ◌++◌, [], ◌∷◌, ◌↔◌, ℕ, List, filter, length, nat_lt, slice_index};
ghost use Rattle.std.specs.Prelude.{IsTrue, IfOk, IfErr, OnOk};
ghost use Rattle.store_core.specs.Finding.{AreNumbersOf, IsFaultOf, Tells};
ghost use Rattle.store_core.specs.Found.{Store, AreNewest, commits_in};
ghost use Rattle.store_core.specs.Walked.{IsWalked};
ghost use Rattle.store_core.specs.declared.finding.FindFault.TheVariants.{OutOfMemory};

use std::alloc::{AllocError, AllocFailed, Global};

/// Reads the segments of a store, each by its number.
pub trait ReadsSegments {
    /// Tables of the store.
    type Tables;

    /// A commit of the store.
    type Commit;

    /// Why a segment is not read.
    type Fault;

    /// The store as it reads.
    ghost store: { Self → Store Self.Tables Self.Commit };

    /// The numbers of the segments that were read or looked at, in order.
    ghost seen: { Self → List ℕ };

    /// Reads a segment whose commits a start makes again, and says how many it has.
    fn read(&mut self, number: u64) -> Result<u64, Self::Fault>
        ensures same { store self.new ≡ store self.old }
        ensures seen { seen self.new ≡ seen self.old ++ number ∷ [] }
        ensures count { IfOk result (λ count. count ≡ length (commits_in (store self.old).segments number)) };

    /// Looks whether a segment has commits, though a start makes none of them again.
    fn has_commits(&mut self, number: u64) -> Result<bool, Self::Fault>
        ensures same { store self.new ≡ store self.old }
        ensures seen { seen self.new ≡ seen self.old ++ number ∷ [] }
        ensures answer { IfOk result (λ answer. IsTrue answer ↔ (0 < length (commits_in (store self.old).segments number))) };
}

/// What a start finds: where the newest tables stand, and the segments behind them, all by their numbers.
#[derive(Debug, Drop)]
pub struct FoundStore {
    /// How many commits the newest tables have.
    pub after: u64,

    /// The segments that are closed, in order.
    pub closed: Vec<u64>,

    /// The segment behind them, in which a server goes on.
    pub last: u64,
}

/// Why a start does not find a store.
#[derive(Debug, Drop)]
pub enum FindFault<E> {
    /// There are no whole tables.
    NoStore,

    /// Commits are missing before this number: the newest tables have so many and no segment follows, or a segment of
    /// this number has commits, and no segment leads to it.
    Gap(u64),

    /// A segment was not read.
    Unread(E),

    /// Memory ran out.
    OutOfMemory,
}

impl<E> From<AllocError> for FindFault<E> {
    ghost from_gives = { λ _ fault. fault ≡ OutOfMemory };

    fn from(_: AllocError) -> Self {
        FindFault::OutOfMemory
    }
}

impl<E, T: Drop> From<AllocFailed<T>> for FindFault<E> {
    ghost from_gives = { λ _ fault. fault ≡ OutOfMemory };

    fn from(_: AllocFailed<T>) -> Self {
        FindFault::OutOfMemory
    }
}

/// Finds the newest tables and the segments behind them, by the numbers of the tables that are whole and of the
/// segments that are there, each list ascending. It reads the segment of the newest tables' number and each later one
/// once, in order. There is no store without whole tables; of several gaps the first is told. A segment that is not
/// read ends it, and so does a lack of memory.
pub fn find<R: ReadsSegments>(
    alloc: Global,
    reader: &mut R,
    tables: &[u64],
    segments: &[u64],
) -> Result<FoundStore, FindFault<R::Fault>>
    requires tables { AreNumbersOf (R.store reader.old).tables tables.now }
    requires segments { AreNumbersOf (R.store reader.old).segments segments.now }
    ensures found { IfOk result (Tells (R.store reader.old)) }
    ensures fault { IfErr result (IsFaultOf (R.store reader.old)) }
    ensures same { R.store reader.new ≡ R.store reader.old }
    ensures seen { IfOk result (λ found. R.seen reader.new
        ≡ R.seen reader.old ++ found.after ∷ filter (λ n. nat_lt found.after n) segments.now) }
{
    let Some(after) = tables.last() else {
        return Err(FindFault::NoStore);
    };
    if !segments.contains(after) {
        return Err(FindFault::Gap(*after));
    }
    let count = match reader.read(*after) {
        Ok(count) => count,
        Err(fault) => return Err(FindFault::Unread(fault)),
    };
    let mut next = after.checked_add(count);
    let mut found = FoundStore {
        after: *after,
        closed: Vec::new(alloc),
        last: *after,
    };
    for place in 0..segments.len() {
        if segments[place] > *after {
            follow(reader, segments, place, &mut found, &mut next)?;
        }
    }
    Ok(found)
}

/// Goes on to the segment at a place, behind those before it.
fn follow<R: ReadsSegments>(
    reader: &mut R,
    segments: &[u64],
    place: usize,
    found: &mut FoundStore,
    next: &mut Option<u64>,
) -> Result<(), FindFault<R::Fault>>
    requires place { place < length segments.now }
    requires numbers { AreNumbersOf (R.store reader.old).segments segments.now }
    requires newest { (tables : R.Tables) × AreNewest (R.store reader.old).tables found.old.after tables }
    requires behind { found.old.after < slice_index segments.now place }
    requires walked { IsWalked (R.store reader.old).segments segments.now place found.old next.old }
    ensures walked { OnOk result (IsWalked (R.store reader.old).segments segments.now (place + 1) found.new next.new) }
    ensures fault { IfErr result (IsFaultOf (R.store reader.old)) }
    ensures after { found.new.after ≡ found.old.after }
    ensures same { R.store reader.new ≡ R.store reader.old }
    ensures seen { OnOk result (R.seen reader.new ≡ R.seen reader.old ++ slice_index segments.now place ∷ []) }
{
    let number = segments[place];
    if *next == Some(number) {
        let count = match reader.read(number) {
            Ok(count) => count,
            Err(fault) => return Err(FindFault::Unread(fault)),
        };
        found.closed.push(found.last)?;
        found.last = number;
        *next = number.checked_add(count);
        return Ok(());
    }
    match reader.has_commits(number) {
        Ok(false) => Ok(()),
        Ok(true) => Err(FindFault::Gap(number)),
        Err(fault) => Err(FindFault::Unread(fault)),
    }
}
