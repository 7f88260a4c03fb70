//! The places that some question of a batch takes, with their masks.
ghost use Rattle.std.specs.Prelude.{ℕ, ◌≡◌, ◌+◌, ◌^◌, ◌<◌, ◌≤◌, is_some, length, slice_index};
ghost use Rattle.scan_kernel.specs.Places.{tested, mask_in, Covers, CanSearch, IsSearch, IsSearchBy};
ghost use Rattle.scan_kernel.specs.Plan.{SufficesBetween, active_mask_at, looked_at};
ghost use Rattle.scan_kernel.specs.Tables.{masks_of};

use crate::columns::LineColumns;
use crate::input::ScanInput;
use crate::masks::Masks;
use crate::plan::{ChunkPlan, TestedDimensions};
use ssb_schema::Items;

/// The masks as slices, of which an untested dimension has none.
#[derive(Clone, Copy)]
struct MaskSlices<'a> {
    // The questions that may take a line; the bits of the others are left out of each mask.
    active: u16,
    tested: TestedDimensions,
    customers: &'a [u16],
    suppliers: &'a [u16],
    parts: &'a [u16],
    dates: &'a [u16],
    terms: &'a [u16],
}

#[inline(always)]
fn mask_in<const TESTED: bool>(masks: &[u16], positions: &[u32], place: usize) -> u16
    requires within { place < length positions.now }
    requires covers { Covers (tested TESTED masks.now) positions.now }
    ensures { result ≡ mask_in (tested TESTED masks.now) (slice_index positions.now place) }
{
    if TESTED {
        masks[positions[place] as usize]
    } else {
        u16::MAX
    }
}

/// The mask of the line at a place.
#[inline(always)]
fn line_mask<const C: bool, const S: bool, const P: bool, const D: bool>(
    lines: LineColumns<'_>,
    tables: MaskSlices<'_>,
    place: usize,
) -> u16
    requires within { place < length lines.customer.now }
    requires covers { CanSearch lines (masks_of C S P D tables) }
    ensures { result ≡ active_mask_at lines.entry (masks_of C S P D tables.entry) tables.entry.active place }
{
    let mask = tables.terms[lines.terms[place] as usize]
        & mask_in::<C>(tables.customers, lines.customer, place)
        & mask_in::<S>(tables.suppliers, lines.supplier, place)
        & mask_in::<P>(tables.parts, lines.part, place)
        & mask_in::<D>(tables.dates, lines.date, place);
    tables.active & mask
}

/// Writes the places from `from` up to `to` that some question takes, with their masks, and says how
/// many they are.
#[inline(never)]
fn find_places<const C: bool, const S: bool, const P: bool, const D: bool>(
    lines: LineColumns<'_>,
    tables: MaskSlices<'_>,
    from: usize,
    to: usize,
    places: &mut [u32],
    found: &mut [u16],
) -> usize
    requires order { from ≤ to }
    requires within { to ≤ length lines.customer.now }
    requires small { length lines.customer.now ≤ 2 ^ 32 }
    requires room { to ≤ from + length places.old }
    requires marks { length found.old ≡ length places.old }
    requires covers { CanSearch lines (masks_of C S P D tables) }
    ensures { IsSearchBy (active_mask_at lines.entry (masks_of C S P D tables.entry) tables.entry.active) from to result
        places.old places.new found.old found.new }
{
    let mut count = 0usize;
    for at in from..to {
        let mask = line_mask::<C, S, P, D>(lines, tables, at);
        places[count] = at as u32;
        found[count] = mask;
        if mask != 0 {
            count += 1;
        }
    }
    count
}

/// The search where it is known which of customers and suppliers are tested.
fn search_with<const C: bool, const S: bool>(
    lines: LineColumns<'_>,
    tables: MaskSlices<'_>,
    from: usize,
    to: usize,
    places: &mut [u32],
    found: &mut [u16],
) -> usize
    requires order { from ≤ to }
    requires within { to ≤ length lines.customer.now }
    requires small { length lines.customer.now ≤ 2 ^ 32 }
    requires room { to ≤ from + length places.old }
    requires marks { length found.old ≡ length places.old }
    requires covers { CanSearch lines (masks_of C S tables.tested.parts tables.tested.dates tables) }
    ensures { IsSearchBy (active_mask_at lines.entry (masks_of C S tables.entry.tested.parts tables.entry.tested.dates
        tables.entry) tables.entry.active) from to result places.old places.new found.old found.new }
{
    match (tables.tested.parts, tables.tested.dates) {
        (true, true) => find_places::<C, S, true, true>(lines, tables, from, to, places, found),
        (true, false) => find_places::<C, S, true, false>(lines, tables, from, to, places, found),
        (false, true) => find_places::<C, S, false, true>(lines, tables, from, to, places, found),
        (false, false) => find_places::<C, S, false, false>(lines, tables, from, to, places, found),
    }
}

/// The search where it is given which dimensions are tested.
fn search_tables(
    lines: LineColumns<'_>,
    tables: MaskSlices<'_>,
    from: usize,
    to: usize,
    places: &mut [u32],
    found: &mut [u16],
) -> usize
    requires order { from ≤ to }
    requires within { to ≤ length lines.customer.now }
    requires small { length lines.customer.now ≤ 2 ^ 32 }
    requires room { to ≤ from + length places.old }
    requires marks { length found.old ≡ length places.old }
    requires covers { CanSearch lines (masks_of tables.tested.customers tables.tested.suppliers tables.tested.parts
        tables.tested.dates tables) }
    ensures { IsSearchBy (active_mask_at lines.entry (masks_of tables.entry.tested.customers
        tables.entry.tested.suppliers tables.entry.tested.parts tables.entry.tested.dates tables.entry)
        tables.entry.active) from to result places.old places.new found.old found.new }
{
    match (tables.tested.customers, tables.tested.suppliers) {
        (true, true) => search_with::<true, true>(lines, tables, from, to, places, found),
        (true, false) => search_with::<true, false>(lines, tables, from, to, places, found),
        (false, true) => search_with::<false, true>(lines, tables, from, to, places, found),
        (false, false) => search_with::<false, false>(lines, tables, from, to, places, found),
    }
}

fn table(masks: &Option<Items<u16>>) -> &[u16]
    ensures { masks.now ≡ tested (is_some masks.now) result.now }
{
    match masks {
        Some(masks) => masks.as_slice(),
        None => &[],
    }
}

// The same masks, none of which has more than 16 bits.
#[inline(always)]
fn narrow(masks: &[u16]) -> &[u16]
    ensures same { result.now ≡ masks.now }
    ensures narrow { (at : ℕ) → slice_index masks.now at < 2 ^ 16 }
{
    masks
}

// The masks as slices, of the dimensions that a plan looks at.
fn slices_of(masks: &Masks, plan: ChunkPlan) -> MaskSlices<'_>
    ensures active { result.active ≡ plan.active }
    ensures looked_at { masks_of result.tested.customers result.tested.suppliers result.tested.parts
        result.tested.dates result ≡ looked_at plan.looks_at masks.now }
    ensures few { result.active < 2 ^ 16 }
    ensures small { (term : ℕ) → slice_index masks.now.terms term < 2 ^ 16 }
{
    let looks_at = plan.looks_at;
    MaskSlices {
        active: plan.active,
        tested: TestedDimensions {
            customers: looks_at.customers && masks.customers.is_some(),
            suppliers: looks_at.suppliers && masks.suppliers.is_some(),
            parts: looks_at.parts && masks.parts.is_some(),
            dates: looks_at.dates && masks.dates.is_some(),
        },
        customers: table(&masks.customers),
        suppliers: table(&masks.suppliers),
        parts: table(&masks.parts),
        dates: table(&masks.dates),
        terms: narrow(masks.terms.as_slice()),
    }
}

/// Writes the places from `from` up to `to` that some question takes, with their masks, and says how many they are.
/// What the plan does not look at is not looked at: the masks are the same.
pub fn search(
    input: ScanInput<'_>,
    plan: ChunkPlan,
    from: usize,
    to: usize,
    places: &mut [u32],
    found: &mut [u16],
) -> usize
    requires order { from ≤ to }
    requires within { to ≤ length input.lines.now.customer.now }
    requires small { length input.lines.now.customer.now ≤ 2 ^ 32 }
    requires room { to ≤ from + length places.old }
    requires marks { length found.old ≡ length places.old }
    requires covers { CanSearch input.lines.now input.masks.now }
    requires suffices { SufficesBetween input.lines.now input.masks.now from to plan }
    ensures { IsSearch input.entry.lines.now input.entry.masks.now from to result places.old places.new found.old
        found.new }
{
    let tables = slices_of(input.masks, plan);
    search_tables(*input.lines, tables, from, to, places, found)
}
