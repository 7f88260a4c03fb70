//! The totals of a batch over a range of places, in one thread.
ghost use Rattle.std.specs.Prelude.{◌≡◌, ℕ, ◌<◌, ◌≤◌, ◌+◌, ◌-◌, ◌*◌, ◌/◌, ◌^◌, IfOk, length, replicate, vec_len, slice_index_or};
ghost use Rattle.std.specs.List.{range_with_len};
ghost use Rattle.scan_kernel.specs.Dealt.{AreListsFor};
ghost use Rattle.scan_kernel.specs.Room.{HasRoom};
ghost use Rattle.scan_kernel.specs.Plan.{SufficesBetween};
ghost use Rattle.scan_kernel.specs.Zones.{chunk_size};
ghost use Rattle.scan_kernel.specs.declared.columns.Grouping.{Grouping};
ghost use Rattle.scan_kernel.specs.declared.totals.Totals.{Totals};
ghost use Rattle.scan_kernel.specs.Totals.{CanScan, HaveSizes, AddsBatch, AreBatchTotals, AreZeros};

use crate::batch::{Dealt, FoundPlaces, add_found};
use crate::columns::Grouping;
use crate::input::ScanInput;
use crate::masks::QUESTIONS_A_PASS;
use crate::plan::ChunkPlan;
use crate::search::search;
use crate::totals::Totals;
use crate::wanted::plan_of;
use crate::zones::CHUNK;
use std::alloc::{AllocError, Global};

/// What is found of a chunk.
#[derive(Drop)]
pub struct Room {
    places: Vec<u32>,
    masks: Vec<u16>,
    dealt: Dealt,
}

// Adds places of one chunk, some of which a question may take, to the totals of each question.
fn add_places_of_chunk(
    input: ScanInput<'_>,
    plan: ChunkPlan,
    from: usize,
    to: usize,
    room: &mut Room,
    totals: &mut [Totals],
)
    requires scan { CanScan input.lines.now input.masks.now input.groupings.now }
    requires within { to ≤ length input.lines.now.customer.now }
    requires order { from ≤ to }
    requires room { HasRoom (to - from) room.old }
    requires suffices { SufficesBetween input.lines.now input.masks.now from to plan }
    requires sizes { HaveSizes input.groupings.now totals.old }
    ensures room { (count : ℕ) → HasRoom count room.old → HasRoom count room.new }
    ensures sizes { HaveSizes input.entry.groupings.now totals.new }
    ensures added { AddsBatch input.entry.lines.now input.entry.masks.now input.entry.groupings.now
        (range_with_len from (to - from)) totals.old totals.new }
{
    let count = search(input, plan, from, to, &mut room.places, &mut room.masks);
    let found = FoundPlaces {
        from,
        to,
        places: &room.places[..count],
        masks: &room.masks[..count],
    };
    add_found(
        input.lines,
        input.masks,
        input.groupings,
        found,
        &mut room.dealt,
        totals,
    );
}

// Adds places of one chunk to the totals of each question. A chunk that no question takes a line of is not looked at.
fn add_chunk(input: ScanInput<'_>, from: usize, to: usize, room: &mut Room, totals: &mut [Totals])
    requires scan { CanScan input.lines.now input.masks.now input.groupings.now }
    requires within { to ≤ length input.lines.now.customer.now }
    requires order { from ≤ to }
    requires one { to ≤ (from / chunk_size + 1) * chunk_size }
    requires room { HasRoom (to - from) room.old }
    requires sizes { HaveSizes input.groupings.now totals.old }
    ensures room { (count : ℕ) → HasRoom count room.old → HasRoom count room.new }
    ensures sizes { HaveSizes input.entry.groupings.now totals.new }
    ensures added { AddsBatch input.entry.lines.now input.entry.masks.now input.entry.groupings.now
        (range_with_len from (to - from)) totals.old totals.new }
{
    let plan = plan_of(input, from / CHUNK);
    if plan.active != 0 {
        add_places_of_chunk(input, plan, from, to, room, totals);
    }
}

// The end of the places up to `to` that are of the chunk of the place `at`.
fn chunk_end(at: usize, to: usize) -> usize
    requires order { at < to }
    requires small { to ≤ 2 ^ 32 }
    ensures on { at < result }
    ensures within { result ≤ to }
    ensures few { result ≤ at + chunk_size }
    ensures one { result ≤ (at / chunk_size + 1) * chunk_size }
{
    ((at / CHUNK + 1) * CHUNK).min(to)
}

/// Adds the places of a range to the totals of each question, chunk by chunk.
pub fn add_range(
    input: ScanInput<'_>,
    from: usize,
    to: usize,
    room: &mut Room,
    totals: &mut [Totals],
)
    requires scan { CanScan input.lines.now input.masks.now input.groupings.now }
    requires within { to ≤ length input.lines.now.customer.now }
    requires order { from ≤ to }
    requires room { HasRoom chunk_size room.old }
    requires sizes { HaveSizes input.groupings.now totals.old }
    ensures room { HasRoom chunk_size room.new }
    ensures sizes { HaveSizes input.entry.groupings.now totals.new }
    ensures added { AddsBatch input.entry.lines.now input.entry.masks.now input.entry.groupings.now
        (range_with_len from (to - from)) totals.old totals.new }
{
    let mut at = from;
    while at < to {
        let end = chunk_end(at, to);
        add_chunk(input, at, end, room, totals);
        at = end;
    }
}

fn zeros(alloc: Global, count: usize) -> Result<Vec<u64>, AllocError>
    ensures items { IfOk result (λ v. v.items ≡ replicate count 0) }
    ensures len { IfOk result (λ v. vec_len v ≡ count) }
{
    vec![in alloc; 0u64; count]
}

fn masks_room(alloc: Global, count: usize) -> Result<Vec<u16>, AllocError>
    ensures { IfOk result (λ v. vec_len v ≡ count) }
{
    vec![in alloc; 0u16; count]
}

fn places_room(alloc: Global, count: usize) -> Result<Vec<u32>, AllocError>
    ensures { IfOk result (λ v. vec_len v ≡ count) }
{
    vec![in alloc; 0u32; count]
}

// Lists for so many places each, as many as a mask has bits.
fn lists_room(alloc: Global, count: usize) -> Result<Vec<Vec<u32>>, AllocError>
    ensures { IfOk result (λ lists. AreListsFor count lists.items) }
{
    let mut lists = Vec::with_capacity(alloc, QUESTIONS_A_PASS)?;
    for _bit in 0..QUESTIONS_A_PASS {
        lists.push(Vec::with_capacity(alloc, count)?)?;
    }
    Ok(lists)
}

/// Room for what is found of so many places.
pub fn room_for(alloc: Global, count: usize) -> Result<Room, AllocError>
    ensures { IfOk result (λ room. HasRoom count room) }
{
    let places = places_room(alloc, count)?;
    let masks = masks_room(alloc, count)?;
    let dealt = Dealt {
        lists: lists_room(alloc, count)?,
        groups: places_room(alloc, count)?,
    };
    Ok(Room {
        places,
        masks,
        dealt,
    })
}

/// Totals of no places.
fn no_totals(alloc: Global, size: usize) -> Result<Totals, AllocError>
    ensures { IfOk result (λ totals. AreZeros size totals) }
{
    let counts = zeros(alloc, size)?;
    let gains = zeros(alloc, size)?;
    let losses = zeros(alloc, size)?;
    Ok(Totals {
        counts,
        gains,
        losses,
    })
}

/// Totals of no places for each question.
pub fn no_batch_totals(alloc: Global, groupings: &[Grouping<'_>]) -> Result<Vec<Totals>, AllocError>
    ensures all { IfOk result (λ v. length v.items ≡ length groupings.now) }
    ensures each { IfOk result (λ v. (k : ℕ) (grouping : Grouping) (t : Totals) → k < length groupings.now
        → AreZeros (slice_index_or groupings.now k grouping).size (slice_index_or v.items k t)) }
{
    let mut all = Vec::with_capacity(alloc, groupings.len())?;
    for grouping in groupings {
        all.push(no_totals(alloc, grouping.size)?)?;
    }
    Ok(all)
}

/// The totals of each question over the places from `from` up to `to`.
pub fn range_totals(
    alloc: Global,
    input: ScanInput<'_>,
    from: usize,
    to: usize,
) -> Result<Vec<Totals>, AllocError>
    requires scan { CanScan input.lines.now input.masks.now input.groupings.now }
    requires within { to ≤ length input.lines.now.customer.now }
    requires order { from ≤ to }
    ensures { IfOk result (λ v. AreBatchTotals input.entry.lines.now input.entry.masks.now
        input.entry.groupings.now (range_with_len from (to - from)) v.items) }
{
    let mut room = room_for(alloc, CHUNK)?;
    let mut totals = no_batch_totals(alloc, input.groupings)?;
    add_range(input, from, to, &mut room, &mut totals);
    Ok(totals)
}
