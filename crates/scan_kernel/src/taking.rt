//! The parts that the places are divided into, and threads that take one after another and add it up.
ghost use Rattle.std.specs.Prelude.{◌≡◌, ◌≤◌, ◌+◌, ◌/◌, ◌^◌, All, IfOk, length};
ghost use Rattle.scan_kernel.specs.Parts.{bound, part_places, part_size};
ghost use Rattle.scan_kernel.specs.Room.{HasRoom};
ghost use Rattle.scan_kernel.specs.Zones.{chunk_size};
ghost use Rattle.scan_kernel.specs.Taken.{IsOfParts, IsOfPartsOk};
ghost use Rattle.scan_kernel.specs.Totals.{CanScan, HaveSizes, AddsBatch};

use crate::input::ScanInput;
use crate::range::{Room, add_range, no_batch_totals, room_for};
use crate::totals::Totals;
use crate::zones::CHUNK;
use rayon::current_num_threads;
use std::alloc::{AllocError, Global};
use std::sync::atomic::{AtomicU32, Ordering};
use std::thread::{Threads, map_indices};

/// How many places a part has: there are many more parts than processors, so that a thread that is held up takes fewer
/// of them, and holds nobody up.
const PART: usize = 65_536;

/// The parts that a thread took, by number, and the totals of their places.
#[derive(Drop)]
pub struct Taken {
    pub parts: Vec<u32>,
    pub totals: Vec<Totals>,
}

/// Into how many parts so many places are divided.
pub fn part_count(places: usize) -> u32
    requires { places ≤ 2 ^ 32 }
    ensures { result ≡ places / part_size + 1 }
{
    (places / PART + 1) as u32
}

// Where a part begins.
fn part_bound(places: usize, part: usize) -> usize
    requires { part ≤ 2 ^ 32 }
    ensures { result ≡ bound places part }
{
    (part * PART).min(places)
}

// Adds the places of a part to the totals of each question.
fn add_part(input: ScanInput<'_>, number: u32, room: &mut Room, totals: &mut [Totals])
    requires scan { CanScan input.lines.now input.masks.now input.groupings.now }
    requires room { HasRoom chunk_size room.old }
    requires sizes { HaveSizes input.groupings.now totals.old }
    ensures room { HasRoom chunk_size room.new }
    ensures sizes { HaveSizes input.entry.groupings.now totals.new }
    ensures added { AddsBatch input.entry.lines.now input.entry.masks.now input.entry.groupings.now
        (part_places (length input.entry.lines.now.customer.now) number) totals.old totals.new }
{
    let places = input.lines.customer.len();
    let from = part_bound(places, number as usize);
    let to = part_bound(places, number as usize + 1);
    add_range(input, from, to, room, totals);
}

// Takes a part after another while there are any, and adds each up.
fn take_parts(alloc: Global, input: ScanInput<'_>, next: &AtomicU32) -> Result<Taken, AllocError>
    requires scan { CanScan input.lines.now input.masks.now input.groupings.now }
    ensures { IfOk result (IsOfParts input.entry.lines.now input.entry.masks.now input.entry.groupings.now) }
{
    let count = part_count(input.lines.customer.len());
    let mut room = room_for(alloc, CHUNK)?;
    let mut totals = no_batch_totals(alloc, input.groupings)?;
    let mut parts = Vec::new(alloc);
    for _turn in 0..count {
        let number = next.fetch_add(1, Ordering::SeqCst);
        if number >= count {
            return Ok(Taken { parts, totals });
        }
        add_part(input, number, &mut room, &mut totals);
        parts.push(number)?;
    }
    Ok(Taken { parts, totals })
}

// How many threads take so many parts. For one part none is begun, and the system is not asked for its processors.
fn thread_count(rt: &impl Threads, parts: usize) -> usize {
    if parts == 1 {
        return 1;
    }
    current_num_threads(rt).min(parts)
}

/// The parts, added up by as many threads as there are processors, and no more than there are parts: what each took.
pub fn take_in_threads(
    rt: &(impl Threads + Sync),
    alloc: Global,
    input: ScanInput<'_>,
) -> Result<Vec<Result<Taken, AllocError>>, AllocError>
    requires scan { CanScan input.lines.now input.masks.now input.groupings.now }
    ensures { IfOk result (λ v. All (IsOfPartsOk input.entry.lines.now input.entry.masks.now input.entry.groupings.now)
        v.items) }
{
    let next = AtomicU32::new(0);
    let next = &next;
    let threads = thread_count(rt, part_count(input.lines.customer.len()) as usize);
    map_indices(
        rt,
        alloc,
        threads,
        &|_thread: usize| -> Result<Taken, AllocError>
            requires scan { CanScan input.lines.now input.masks.now input.groupings.now }
            ensures { IsOfPartsOk input.entry.lines.now input.entry.masks.now input.entry.groupings.now result }
        { take_parts(alloc, input, next) },
    )
}
