//! What a start finds in a store.

ghost use Rattle.std.specs.Prelude.{◌≡◌, ◌≤◌, ◌++◌, ◌∷◌, [], IfOk, IfSome};
ghost use Rattle.store_folder.specs.Chain.{IsChainFrom};

use crate::fault::StoreFault;
use crate::file_name::{SEGMENT, TABLES, number_in, sizes_path};
use crate::segment::{open_any, open_segment};
use crate::sizes::Sizes;
use journal_file::JournalFile;
use journal_opening::NoSuchCommit;
use std::alloc::{AllocError, Global};
use std::fs;
use std::io::{self, BufReader, ErrorKind, Read};
use std::rt::Files;

// How often it is looked again for what a checkpoint may have taken away.
const MORE_LOOKS: usize = 2;

/// The numbers in the names of a store's folder, ascending.
#[derive(Drop)]
pub struct StoreNumbers {
    pub tables: Vec<u64>,
    pub segments: Vec<u64>,
}

impl StoreNumbers {
    // Takes note of a name.
    fn note(&mut self, name: &[u8]) -> Result<(), AllocError> {
        if let Some(after) = number_in(name, TABLES) {
            self.tables.push(after)?;
        }
        if let Some(after) = number_in(name, SEGMENT) {
            self.segments.push(after)?;
        }
        Ok(())
    }
}

/// The numbers of the tables and the segments of which a folder has names.
pub fn list_store<F: Files>(files: &F, alloc: Global, folder: &str) -> io::Result<StoreNumbers> {
    // The slash follows a link to a folder.
    let within = format!(in alloc; "{folder}/")?;
    let mut names = Vec::new(alloc);
    // The system gives names to a buffer alone that has room for the next one.
    BufReader::new(alloc, files.open_dir(within.as_str())?)?.read_to_end(&mut names)?;
    let mut numbers = StoreNumbers {
        tables: Vec::new(alloc),
        segments: Vec::new(alloc),
    };
    for name in names.split(|byte| *byte == 0) {
        numbers.note(name)?;
    }
    numbers.tables.sort_unstable();
    numbers.segments.sort_unstable();
    Ok(numbers)
}

/// What a start finds in a store: the newest tables, or those that it asks for, and the segments behind them.
#[derive(Drop)]
pub struct FoundStore {
    // What is told of the tables.
    sizes: Sizes,
    // The segments behind them that are closed, in order, and the one that a server goes on with.
    closed: Vec<u64>,
    last: u64,
    ghost chain: { IsChainFrom sizes.after (closed.items ++ last ∷ []) },
}

impl FoundStore {
    /// What is told of the tables.
    pub fn sizes(&self) -> &Sizes {
        &self.sizes
    }

    /// After how many commits of the store the tables are.
    pub fn after(&self) -> u64
        ensures { result ≡ self.now.sizes.after }
    {
        self.sizes.after
    }

    /// The segments behind the tables that are closed, in order.
    pub fn closed(&self) -> &[u64] {
        &self.closed
    }

    /// The segment that a server goes on with.
    pub fn last(&self) -> u64
        ensures { result ≡ self.now.last }
    {
        self.last
    }
}

// What `sizes` tells of the tables after so many commits, where it is there.
fn read_sizes<F: Files>(
    files: &F,
    alloc: Global,
    folder: &str,
    after: u64,
) -> Result<Option<Sizes>, StoreFault>
    ensures { IfOk result (λ found. IfSome found (λ sizes. sizes.after ≡ after)) }
{
    let path = sizes_path(alloc, folder, after)?;
    let mut bytes = Vec::new(alloc);
    let read = match fs::open(files, path.as_str()) {
        Ok(mut file) => file.read_to_end(&mut bytes),
        Err(error) if error.kind() == ErrorKind::NotFound => return Ok(None),
        Err(error) => Err(error),
    };
    if let Err(error) = read {
        return Err(StoreFault::of_path(path, error));
    }
    match Sizes::read(alloc, &bytes)? {
        Some(sizes) if sizes.after == after => Ok(Some(sizes)),
        _ => Err(StoreFault::Damaged(path)),
    }
}

// What is told of the newest tables that are whole and after at most so many commits.
fn newest<F: Files>(
    files: &F,
    alloc: Global,
    folder: &str,
    tables: &[u64],
    most: u64,
) -> Result<Sizes, StoreFault>
    ensures { IfOk result (λ sizes. sizes.after ≤ most) }
{
    for after in tables.iter().rev() {
        if *after <= most {
            if let Some(sizes) = read_sizes(files, alloc, folder, *after)? {
                return Ok(sizes);
            }
        }
    }
    Err(StoreFault::NoStore)
}

// The same; where whole tables are there, and all of them are after more commits, there is no such commit.
fn newest_up_to<F: Files>(
    files: &F,
    alloc: Global,
    folder: &str,
    tables: &[u64],
    number: u64,
) -> Result<Sizes, StoreFault>
    ensures { IfOk result (λ sizes. sizes.after ≤ number) }
{
    match newest(files, alloc, folder, tables, number) {
        Err(StoreFault::NoStore) => {}
        result => return result,
    }
    newest(files, alloc, folder, tables, u64::MAX)?;
    Err(StoreFault::NoSuchCommit(NoSuchCommit { number }))
}

// How long the segment of this number is, where it has commits, behind one that is so long.
fn size_behind<F: Files>(
    files: &F,
    alloc: Global,
    folder: &str,
    of: &[u8],
    number: u64,
    before: u64,
) -> Result<Option<u64>, StoreFault>
where
    F::File: JournalFile,
{
    match open_any(files, alloc, folder, number, of, false)? {
        Some(segment) if segment.has_groups && segment.before == before => Ok(Some(segment.size)),
        Some(segment) if segment.has_groups => Err(StoreFault::Gap(number)),
        _ => Ok(None),
    }
}

// The segments behind tables after so many commits: the one of their number, and each later one that has commits. It is
// told by each how long the one before it is.
fn chain<F: Files>(
    files: &F,
    alloc: Global,
    folder: &str,
    sizes: Sizes,
    segments: &[u64],
) -> Result<FoundStore, StoreFault>
where
    F::File: JournalFile,
    ensures { IfOk result (λ found. found.sizes ≡ sizes) }
{
    let first = sizes.after;
    if !segments.contains(&first) {
        return Err(StoreFault::Gap(first));
    }
    let mut size = open_segment(files, alloc, folder, first, &sizes.of, false)?.size;
    let mut closed = Vec::new(alloc);
    let mut last = first;
    for number in segments {
        if *number > last {
            if let Some(next) = size_behind(files, alloc, folder, &sizes.of, *number, size)? {
                closed.push(last)?;
                last = *number;
                size = next;
            }
        }
    }
    Ok(FoundStore {
        sizes,
        closed,
        last,
    })
}

// Finds them, where what is listed is there as it is read.
fn find_once<F: Files>(
    files: &F,
    alloc: Global,
    folder: &str,
    at: Option<u64>,
) -> Result<FoundStore, StoreFault>
where
    F::File: JournalFile,
    ensures { IfOk result (λ found. IfSome at (λ number. found.sizes.after ≤ number)) }
{
    let numbers = match list_store(files, alloc, folder) {
        Ok(numbers) => numbers,
        Err(error) if error.kind() == ErrorKind::NotFound => return Err(StoreFault::NoStore),
        Err(error) => {
            return Err(StoreFault::of_path(String::from_str(alloc, folder)?, error));
        }
    };
    let sizes = match at {
        Some(number) => newest_up_to(files, alloc, folder, &numbers.tables, number)?,
        None => newest(files, alloc, folder, &numbers.tables, u64::MAX)?,
    };
    chain(files, alloc, folder, sizes, &numbers.segments)
}

/// Finds the newest tables of a store, or the newest that are after at most so many commits, and the segments behind
/// them. Nothing is written.
pub fn find_store<F: Files>(
    files: &F,
    alloc: Global,
    folder: &str,
    at: Option<u64>,
) -> Result<FoundStore, StoreFault>
where
    F::File: JournalFile,
    ensures { IfOk result (λ found. IfSome at (λ number. found.sizes.after ≤ number)) }
{
    // A checkpoint may take away what was listed: newer tables are there then.
    for _ in 0..MORE_LOOKS {
        match find_once(files, alloc, folder, at) {
            Err(StoreFault::NoStore | StoreFault::CannotRead(_)) => {}
            result => return result,
        }
    }
    find_once(files, alloc, folder, at)
}
