//! Which chunks no question of a batch takes a line of, and which dimensions of the others have to be looked at.
ghost use Rattle.std.specs.Prelude.{◌≡◌, ◌<◌, ℕ, true, length, slice_index, IfOk};
ghost use Rattle.std.specs.Int.{bit_at};
ghost use Rattle.scan_kernel.specs.Masks.{questions_a_pass};
ghost use Rattle.scan_kernel.specs.Zones.{HasCode, coarse};
ghost use Rattle.scan_kernel.specs.Places.{CanSearch};
ghost use Rattle.scan_kernel.specs.Plan.{AreSettled, LooksAtAll, Suffices, with_bit};
ghost use Rattle.scan_kernel.specs.Wanted.{HasTakers, HasLeavers, HaveBit, HaveTakers, HaveLeavers, AreWanted, Shares};
ghost use Rattle.scan_kernel.specs.Wanted.{zone_of};

use crate::columns::LineColumns;
use crate::input::ScanInput;
use crate::masks::{Masks, QUESTIONS_A_PASS};
use crate::plan::{ChunkPlan, TestedDimensions};
use crate::zones::{coarse_code, with_code};
use ssb_schema::Items;
use std::alloc::{AllocError, Global};

/// Of each dimension a set of coarse codes.
#[derive(Clone, Copy)]
pub struct DimensionCodes {
    pub customers: u64,
    pub suppliers: u64,
    pub parts: u64,
    pub dates: u64,
}

/// What a question makes of the rows of each dimension. Rows that share a code may be told apart by it, so a code may be
/// in both.
#[derive(Clone, Copy)]
pub struct Wanted {
    /// The codes of the rows that it takes: all, where it does not test the dimension.
    pub takes: DimensionCodes,
    /// The codes of the rows that it does not take.
    pub leaves: DimensionCodes,
}

// For each coarse code the questions that take some row that has it.
fn takers_of(masks: &[u16], codes: &[u8]) -> [u16; 64]
    ensures { (row k : ℕ) → row < length masks.now → bit_at (slice_index masks.now row) k ≡ 1
        → bit_at (slice_index result (coarse codes.now row)) k ≡ 1 }
{
    let mut takers = [0u16; 64];
    for row in 0..masks.len() {
        takers[coarse_code(codes, row) as usize] |= masks[row];
    }
    takers
}

// The same, of a dimension that may not be tested.
fn takers(masks: &Option<Items<u16>>, codes: &[u8]) -> [u16; 64]
    ensures { HasTakers masks.now codes.now result }
{
    match masks {
        Some(masks) => takers_of(masks.as_slice(), codes),
        None => [u16::MAX; 64],
    }
}

// For each coarse code the questions that leave out some row that has it.
fn leavers_of(masks: &[u16], codes: &[u8]) -> [u16; 64]
    ensures { (row k : ℕ) → row < length masks.now → k < questions_a_pass → bit_at (slice_index masks.now row) k ≡ 0
        → bit_at (slice_index result (coarse codes.now row)) k ≡ 1 }
{
    let mut leavers = [0u16; 64];
    for row in 0..masks.len() {
        leavers[coarse_code(codes, row) as usize] |= !masks[row];
    }
    leavers
}

// The same, of a dimension that may not be tested: of such a one no row is left out.
fn leavers(masks: &Option<Items<u16>>, codes: &[u8]) -> [u16; 64]
    ensures { HasLeavers masks.now codes.now result }
{
    match masks {
        Some(masks) => leavers_of(masks.as_slice(), codes),
        None => [0u16; 64],
    }
}

// The codes whose mask has the bit of a question.
fn codes_of(masks: &[u16; 64], question: usize) -> u64
    requires { question < questions_a_pass }
    ensures { (code : ℕ) → code < 64 → bit_at (slice_index masks.now code) question ≡ 1 → HasCode result code }
{
    let mut set = 0u64;
    for code in 0..64u8 {
        if (masks[code as usize] >> question) & 1 == 1 {
            set = with_code(set, code);
        }
    }
    set
}

// Of each dimension what a mask for each code says.
#[derive(Drop)]
struct CodeMasks {
    customers: [u16; 64],
    suppliers: [u16; 64],
    parts: [u16; 64],
    dates: [u16; 64],
}

impl CodeMasks {
    // The codes whose mask has the bit of a question.
    fn codes_of(&self, question: usize) -> DimensionCodes
        requires { question < questions_a_pass }
        ensures { HaveBit self.now question result }
    {
        DimensionCodes {
            customers: codes_of(&self.customers, question),
            suppliers: codes_of(&self.suppliers, question),
            parts: codes_of(&self.parts, question),
            dates: codes_of(&self.dates, question),
        }
    }
}

// The questions that take some row, by its code.
fn all_takers(lines: &LineColumns<'_>, masks: &Masks) -> CodeMasks
    ensures { HaveTakers lines.now masks.now result }
{
    CodeMasks {
        customers: takers(&masks.customers, lines.customer_zones.codes),
        suppliers: takers(&masks.suppliers, lines.supplier_zones.codes),
        parts: takers(&masks.parts, lines.part_zones.codes),
        dates: takers(&masks.dates, lines.date_zones.codes),
    }
}

// The questions that leave out some row, by its code.
fn all_leavers(lines: &LineColumns<'_>, masks: &Masks) -> CodeMasks
    ensures { HaveLeavers lines.now masks.now result }
{
    CodeMasks {
        customers: leavers(&masks.customers, lines.customer_zones.codes),
        suppliers: leavers(&masks.suppliers, lines.supplier_zones.codes),
        parts: leavers(&masks.parts, lines.part_zones.codes),
        dates: leavers(&masks.dates, lines.date_zones.codes),
    }
}

/// What each question of a batch makes of the rows.
pub fn all_wanted(
    alloc: Global,
    lines: &LineColumns<'_>,
    masks: &Masks,
) -> Result<Vec<Wanted>, AllocError>
    ensures { IfOk result (λ all. AreWanted lines.now masks.now all.items) }
{
    let takers = all_takers(lines, masks);
    let leavers = all_leavers(lines, masks);
    let mut all = Vec::with_capacity(alloc, QUESTIONS_A_PASS)?;
    for question in 0..QUESTIONS_A_PASS {
        all.push(Wanted {
            takes: takers.codes_of(question),
            leaves: leavers.codes_of(question),
        })?;
    }
    Ok(all)
}

// The set of a chunk; empty where there is no such chunk.
#[inline(always)]
fn set_of(sets: &[u64], chunk: usize) -> u64
    ensures { result ≡ slice_index sets.now chunk }
{
    match sets.get(chunk) {
        Some(set) => *set,
        None => 0,
    }
}

// Whether there is, in each dimension, a code that both have.
#[inline(always)]
fn shares(zone: DimensionCodes, takes: DimensionCodes) -> bool
    ensures shares { Shares zone takes → result ≡ true }
{
    zone.customers & takes.customers != 0
        && zone.suppliers & takes.suppliers != 0
        && zone.parts & takes.parts != 0
        && zone.dates & takes.dates != 0
}

// The codes of the rows that the lines of a chunk name.
#[inline(always)]
fn zone_of(lines: &LineColumns<'_>, chunk: usize) -> DimensionCodes
    ensures { result ≡ zone_of lines.now chunk }
{
    DimensionCodes {
        customers: set_of(lines.customer_zones.sets, chunk),
        suppliers: set_of(lines.supplier_zones.sets, chunk),
        parts: set_of(lines.part_zones.sets, chunk),
        dates: set_of(lines.date_zones.sets, chunk),
    }
}

// The plan with a question more. A dimension of which it leaves out no row that lines name stays as it was.
#[inline(always)]
fn with_question(
    plan: ChunkPlan,
    question: usize,
    zone: DimensionCodes,
    leaves: DimensionCodes,
) -> ChunkPlan
    requires { question < questions_a_pass }
    ensures active { result.active ≡ with_bit plan.active question }
    ensures settled { AreSettled result.looks_at zone leaves }
    ensures kept { LooksAtAll plan.looks_at result.looks_at }
{
    let looks_at = plan.looks_at;
    ChunkPlan {
        active: plan.active | (1 << question),
        looks_at: TestedDimensions {
            customers: looks_at.customers || zone.customers & leaves.customers != 0,
            suppliers: looks_at.suppliers || zone.suppliers & leaves.suppliers != 0,
            parts: looks_at.parts || zone.parts & leaves.parts != 0,
            dates: looks_at.dates || zone.dates & leaves.dates != 0,
        },
    }
}

/// What a search of the chunk has to look at.
pub fn plan_of(input: ScanInput<'_>, chunk: usize) -> ChunkPlan
    requires { CanSearch input.lines.now input.masks.now }
    ensures { Suffices input.entry.lines.now input.entry.masks.now chunk result }
{
    let zone = zone_of(input.lines, chunk);
    let mut plan = ChunkPlan {
        active: 0,
        looks_at: TestedDimensions {
            customers: false,
            suppliers: false,
            parts: false,
            dates: false,
        },
    };
    for question in 0..QUESTIONS_A_PASS {
        let wanted = input.wanted[question];
        if shares(zone, wanted.takes) {
            plan = with_question(plan, question, zone, wanted.leaves);
        }
    }
    plan
}
