//! The places that were found, dealt out to the questions that take them, and their groups.
ghost use Rattle.std.specs.Prelude.{◌≡◌, ℕ, [], ◌<◌, ◌≤◌, ◌+◌, ◌%◌, ◌^◌, All, Vec, length, map};
ghost use Rattle.std.specs.Prelude.{slice_index};
ghost use Rattle.std.specs.declared.alloc.Global.{Global};
ghost use Rattle.scan_kernel.specs.Dealt.{AreDealt, AreListsFor, GivesPlace, KeepRoom, in_list, len_of, room_of};
ghost use Rattle.scan_kernel.specs.Masks.{questions_a_pass};
ghost use Rattle.scan_kernel.specs.Places.{part_at, group_at, CanNumber};

use crate::columns::GroupColumn;

// Takes all places out of the lists.
fn clear_lists(lists: &mut [Vec<u32>])
    requires { length lists.old ≡ questions_a_pass }
    ensures room { KeepRoom lists.old lists.new }
    ensures none { (k : ℕ) (list : Vec ℕ Global) → k < questions_a_pass → in_list lists.new k list ≡ [] }
{
    for number in 0..lists.len() {
        let list = &mut lists[number];
        list.clear();
    }
}

// Adds a place to the lists of the bits that its mask has, from the lowest on: most places have one or two.
#[inline(always)]
fn deal_place(place: u32, mask: u16, lists: &mut [Vec<u32>])
    requires all { length lists.old ≡ questions_a_pass }
    requires room { (k : ℕ) (list : Vec ℕ Global) → k < questions_a_pass
        → len_of lists.old k list < room_of lists.old k list }
    ensures room { KeepRoom lists.old lists.new }
    ensures gives { GivesPlace place mask lists.old lists.new }
{
    let mut rest = mask;
    while rest != 0 {
        let number = rest.trailing_zeros();
        let list = &mut lists[number as usize];
        list.push_reserved(place);
        rest &= !(1 << number);
    }
}

/// Writes to the list of each question those places whose mask has the question's bit, in place of what was there.
#[inline(never)]
pub fn deal_places(places: &[u32], found: &[u16], lists: &mut [Vec<u32>])
    requires marks { length found.now ≡ length places.now }
    requires lists { AreListsFor (length places.now) lists.old }
    ensures room { KeepRoom lists.old lists.new }
    ensures dealt { (mask : ℕ → ℕ) → found.now ≡ map mask places.now → AreDealt mask places.now lists.new }
{
    clear_lists(lists);
    for at in 0..places.len() {
        deal_place(places[at], found[at], lists);
    }
}

#[inline(always)]
fn part_of(column: GroupColumn<'_>, place: usize) -> u32
    requires place { place < length column.positions.now }
    requires positions { All (λ position. position < length column.codes.now) column.positions.now }
    requires codes { All (λ code. code < length column.parts.now) column.codes.now }
    ensures { result ≡ part_at place column.entry }
{
    column.parts[column.codes[column.positions[place] as usize] as usize]
}

/// Adds to each place's number the part of a group column, modulo 2^32.
#[inline(never)]
fn add_parts(column: GroupColumn<'_>, places: &[u32], groups: &mut [u32])
    requires groups { length groups.old ≡ length places.now }
    requires places { All (λ place. place < length column.positions.now) places.now }
    requires positions { All (λ position. position < length column.codes.now) column.positions.now }
    requires codes { All (λ code. code < length column.parts.now) column.codes.now }
    ensures len { length groups.new ≡ length groups.old }
    ensures added { (at : ℕ) → at < length places.now → slice_index groups.new
        at ≡ (slice_index groups.old at + part_at (slice_index places.now at) column.entry) % 2 ^ 32 }
{
    for at in 0..places.len() {
        groups[at] = groups[at].wrapping_add(part_of(column, places[at] as usize));
    }
}

fn clear(groups: &mut [u32])
    ensures len { length groups.new ≡ length groups.old }
    ensures zeros { (at : ℕ) → at < length groups.old → slice_index groups.new at ≡ 0 }
{
    for at in 0..groups.len() {
        groups[at] = 0;
    }
}

/// Writes the number of each place's group.
pub fn number_groups(columns: &[GroupColumn<'_>], places: &[u32], groups: &mut [u32], count: usize)
    requires groups { length groups.old ≡ length places.now }
    requires places { All (λ place. place < count) places.now }
    requires columns { All (CanNumber count) columns.now }
    requires small { All (λ place. group_at columns.now place < 2 ^ 32) places.now }
    ensures groups { groups.new ≡ map (group_at columns.now) places.now }
{
    clear(groups);
    for column in columns {
        add_parts(*column, places, groups);
    }
}
