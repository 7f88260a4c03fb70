//! The loops that add the places of a question to its groups.
ghost use Rattle.std.specs.Prelude.{◌≡◌, ℕ, ◌<◌, ◌≤◌, ◌*◌, ◌/◌, ◌%◌, ◌^◌, All, length, map, slice_index, vec_len};
ghost use Rattle.scan_kernel.specs.Places.{group_at, gain_at, loss_at, CanNumber};
ghost use Rattle.scan_kernel.specs.Sums.{Adds, add_at};
ghost use Rattle.scan_kernel.specs.Totals.{AddsPlaces};

use crate::columns::{Grouping, LineColumns};
use crate::selecting::number_groups;
use crate::totals::Totals;
use ssb_questions::Measure;

#[inline(always)]
fn add(sums: &mut [u64], group: usize, amount: u64)
    requires { group < length sums.old }
    ensures { sums.new ≡ add_at sums.old group amount }
{
    sums[group] = sums[group].wrapping_add(amount);
}

/// Counts the places in their groups.
#[inline(never)]
fn count_places(places: &[u32], groups: &[u32], counts: &mut [u64])
    requires groups { length groups.now ≡ length places.now }
    requires room { All (λ group. group < length counts.old) groups.now }
    ensures { (group : ℕ → ℕ) → groups.now ≡ map group places.now
        → Adds (λ place. 1) group places.now counts.old counts.new }
{
    for at in 0..groups.len() {
        add(counts, groups[at] as usize, 1);
    }
}

/// Adds to each group the amounts of its places.
#[inline(never)]
fn add_amounts(places: &[u32], groups: &[u32], amounts: &[u32], sums: &mut [u64])
    requires groups { length groups.now ≡ length places.now }
    requires within { All (λ place. place < length amounts.now) places.now }
    requires room { All (λ group. group < length sums.old) groups.now }
    ensures { (group : ℕ → ℕ) → groups.now ≡ map group places.now
        → Adds (λ place. slice_index amounts.now place) group places.now sums.old sums.new }
{
    for at in 0..places.len() {
        let amount = amounts[places[at] as usize];
        add(sums, groups[at] as usize, u64::from(amount));
    }
}

#[inline(always)]
fn price_times_discount(price: &[u32], terms: &[u16], place: usize) -> u64
    requires price { place < length price.now }
    requires terms { place < length terms.now }
    ensures { result ≡ slice_index price.now place * (slice_index terms.now place % 16) }
{
    u64::from(price[place]) * u64::from(terms[place] % 16)
}

/// Adds to each group price times discount of its places.
#[inline(never)]
fn add_discounts(places: &[u32], groups: &[u32], price: &[u32], terms: &[u16], sums: &mut [u64])
    requires groups { length groups.now ≡ length places.now }
    requires price { All (λ place. place < length price.now) places.now }
    requires terms { All (λ place. place < length terms.now) places.now }
    requires room { All (λ group. group < length sums.old) groups.now }
    ensures { (group : ℕ → ℕ) → groups.now ≡ map group places.now
        → Adds (λ place. slice_index price.now place * (slice_index terms.now place % 16)) group places.now sums.old
        sums.new }
{
    for at in 0..places.len() {
        let amount = price_times_discount(price, terms, places[at] as usize);
        add(sums, groups[at] as usize, amount);
    }
}

/// Adds to each group the quantities of its places.
#[inline(never)]
fn add_quantities(places: &[u32], groups: &[u32], terms: &[u16], sums: &mut [u64])
    requires groups { length groups.now ≡ length places.now }
    requires within { All (λ place. place < length terms.now) places.now }
    requires room { All (λ group. group < length sums.old) groups.now }
    ensures { (group : ℕ → ℕ) → groups.now ≡ map group places.now
        → Adds (λ place. slice_index terms.now place / 16) group places.now sums.old sums.new }
{
    for at in 0..places.len() {
        let amount = terms[places[at] as usize] / 16;
        add(sums, groups[at] as usize, u64::from(amount));
    }
}

/// Adds to each group what its places add to the measure.
fn add_gains(
    lines: &LineColumns<'_>,
    measure: Measure,
    places: &[u32],
    groups: &[u32],
    gains: &mut [u64],
)
    requires groups { length groups.now ≡ length places.now }
    requires places { All (λ place. place < length lines.now.customer.now) places.now }
    requires room { All (λ group. group < length gains.old) groups.now }
    ensures { (group : ℕ → ℕ) → groups.now ≡ map group places.now
        → Adds (gain_at lines.now measure) group places.now gains.old gains.new }
{
    match measure {
        Measure::PriceTimesDiscount => {
            add_discounts(places, groups, lines.price, lines.terms, gains);
        }
        Measure::Revenue | Measure::Profit => add_amounts(places, groups, lines.revenue, gains),
        Measure::Quantity => add_quantities(places, groups, lines.terms, gains),
        Measure::ExtendedPrice => add_amounts(places, groups, lines.price, gains),
        Measure::SupplyCost => add_amounts(places, groups, lines.cost, gains),
        Measure::Lines => count_places(places, groups, gains),
    }
}

/// Adds to each group what its places take away from the measure.
fn add_losses(
    lines: &LineColumns<'_>,
    measure: Measure,
    places: &[u32],
    groups: &[u32],
    losses: &mut [u64],
)
    requires groups { length groups.now ≡ length places.now }
    requires places { All (λ place. place < length lines.now.customer.now) places.now }
    requires room { All (λ group. group < length losses.old) groups.now }
    ensures { (group : ℕ → ℕ) → groups.now ≡ map group places.now
        → Adds (loss_at lines.now measure) group places.now losses.old losses.new }
{
    match measure {
        Measure::PriceTimesDiscount => {}
        Measure::Revenue => {}
        Measure::Profit => add_amounts(places, groups, lines.cost, losses),
        Measure::Quantity => {}
        Measure::ExtendedPrice => {}
        Measure::SupplyCost => {}
        Measure::Lines => {}
    }
}

/// Adds the places, each to its group.
fn add_to_groups(
    lines: &LineColumns<'_>,
    grouping: &Grouping<'_>,
    places: &[u32],
    groups: &[u32],
    totals: &mut Totals,
)
    requires groups { groups.now ≡ map (group_at grouping.now.columns.items) places.now }
    requires places { All (λ place. place < length lines.now.customer.now) places.now }
    requires room { All (λ group. group < vec_len totals.old.counts) groups.now }
    ensures size { vec_len totals.new.counts ≡ vec_len totals.old.counts }
    ensures counts { Adds (λ place. 1) (group_at grouping.now.columns.items) places.now totals.old.counts.items
        totals.new.counts.items }
    ensures gains { Adds (gain_at lines.now grouping.now.measure) (group_at grouping.now.columns.items) places.now
        totals.old.gains.items totals.new.gains.items }
    ensures losses { Adds (loss_at lines.now grouping.now.measure) (group_at grouping.now.columns.items) places.now
        totals.old.losses.items totals.new.losses.items }
{
    count_places(places, groups, &mut totals.counts);
    add_gains(lines, grouping.measure, places, groups, &mut totals.gains);
    add_losses(lines, grouping.measure, places, groups, &mut totals.losses);
}

/// Adds the places that a question takes, each to its group; as many of `groups` are written over.
pub fn add_places(
    lines: &LineColumns<'_>,
    grouping: &Grouping<'_>,
    places: &[u32],
    groups: &mut [u32],
    totals: &mut Totals,
)
    requires room { length places.now ≤ length groups.old }
    requires places { All (λ place. place < length lines.now.customer.now) places.now }
    requires columns { All (CanNumber (length lines.now.customer.now)) grouping.now.columns.items }
    requires groups { All (λ place. group_at grouping.now.columns.items place < vec_len totals.old.counts) places.now }
    requires few { vec_len totals.old.counts ≤ 2 ^ 32 }
    ensures room { length groups.new ≡ length groups.old }
    ensures size { vec_len totals.new.counts ≡ vec_len totals.old.counts }
    ensures added { AddsPlaces lines.now grouping.now places.now totals.old totals.new }
{
    let groups = &mut groups[..places.len()];
    let columns = grouping.columns.as_slice();
    number_groups(columns, places, groups, lines.customer.len());
    add_to_groups(lines, grouping, places, groups, totals);
}
