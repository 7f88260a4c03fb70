//! What a token's seat does at the table.
ghost use Rattle.std.specs.Prelude.{◌≡◌, ◌+◌, ◌<◌, true, false, ◌∷◌, length, None, MatchOption};
ghost use Rattle.atomic_table.specs.Table.{rest};
ghost use Rattle.history_core.specs.Counts.{most_clients};
ghost use Rattle.history.specs.Words.{store};
ghost use Rattle.history.specs.Rule.{terms_of, IsElsewhere};
ghost use Rattle.history.specs.Plays.{gathers, gave_back, hears, note_of, opened, posted, grabbed, without_writer};
ghost use Rattle.history.specs.Seats.{Has, Carries, IsToken, IsClientAt, IsDispatcherAt, IsFree, AreAll};
ghost use Rattle.history.specs.Seats.{members_of, IsClosed, Takes, LooksAt, Adds, Becomes, turns, MayServe, Serves};
ghost use Rattle.history.specs.Seats.{Collects, TakesWriter, MayPutWriter};

use crate::request::PostedRequest;
use crate::rule::{
    Collect, Gather, Grab, Hear, Look, OpenBox, Post, PutRows, PutWriter, RuledTable, Serve,
    TableSeat, Tell, TryRows, TryWriter, Yield,
};
use crate::view::SlotValue;
use history_core::Response;
use row_store::{Follower, RowStore};
use std::sync::Wait;
use std::time::Duration;

/// The first sleep of one that waits for the row store, in microseconds: then it tries again, though nobody woke it. A
/// live client holds the row store for a microsecond at a time.
const FIRST_SLEEP: u64 = 50;

/// The longest sleep, in microseconds: each is twice as long as the one before. Clients of scripts commit one refresh
/// after another, and lose their caches each time that the row store changes hands.
const LONGEST_SLEEP: u64 = 4_000;

/// One that waits for the row store is woken by each commit whose number this divides.
const COMMITS_A_RUN: u64 = 4_096;

/// Waits until the row store is home, and takes it.
pub(crate) fn take_rows<W: Follower + Drop, R: Wait>(
    rt: &R,
    ruled: &RuledTable<W>,
    seat: &mut TableSeat<W>,
) -> RowStore
    requires table { Has ruled.now.shared.table_id 0 × (seat.old.table_id ≡ ruled.now.shared.table_id) }
    requires token { IsToken seat.old }
    ensures { Takes seat.old result seat.new }
{
    let mut sleep = FIRST_SLEEP;
    for _ in rt.forever() {
        let found = ruled.shared.fetch_or::<TryRows>(seat, 0, 1);
        if found % 2 == 0 {
            let value = ruled.shared.exchange(seat, 0, None);
            let Some(SlotValue::Rows(store)) = value else {
                unreachable!()
            };
            return store;
        }
        ruled.shared.park_timeout(
            rt,
            0,
            (found % (1 << 32)) as u32,
            Duration::from_micros(sleep),
        );
        sleep = sleep.saturating_mul(2).min(LONGEST_SLEEP);
    }
    unreachable!()
}

/// Gives the row store back as it was taken.
pub(crate) fn put_back<W: Follower + Drop>(
    ruled: &RuledTable<W>,
    seat: &mut TableSeat<W>,
    rows: RowStore,
)
    requires table { Has ruled.now.shared.table_id 0 × (seat.old.table_id ≡ ruled.now.shared.table_id) }
    requires token { IsToken seat.old × (seat.old.me.0.holds_rows ≡ true) × Carries 0 seat.old }
    requires rows { rows ≡ store seat.old.me.0.terms.base seat.old.me.0.member.seen }
    ensures { Becomes seat.old (gave_back seat.old.me.0 rows.log) (rest seat.old.me.1) seat.new }
{
    ruled.shared.exchange(seat, 0, Some(SlotValue::Rows(rows)));
    ruled.shared.fetch_sub::<PutRows>(seat, 0, 1);
    ruled.shared.wake_one(0);
}

/// Wakes one that waits for the row store where a run of commits has ended with this one.
pub(crate) fn wake_by_runs<W: Follower + Drop>(ruled: &RuledTable<W>, commit: u64)
    requires { Has ruled.now.shared.table_id 0 }
{
    if commit % COMMITS_A_RUN == 0 {
        ruled.shared.wake_one(0);
    }
}

/// Wakes all who wait for the row store.
pub(crate) fn wake_waiting<W: Follower + Drop>(ruled: &RuledTable<W>)
    requires { Has ruled.now.shared.table_id 0 }
{
    ruled.shared.wake_all(0);
}

/// Gives the row store back with one commit more, and wakes nobody.
pub(crate) fn put_commit<W: Follower + Drop>(
    ruled: &RuledTable<W>,
    seat: &mut TableSeat<W>,
    rows: RowStore,
)
    requires table { Has ruled.now.shared.table_id 0 × (seat.old.table_id ≡ ruled.now.shared.table_id) }
    requires token { (seat.old.me.0.holds_rows ≡ true) × Carries 0 seat.old }
    requires rows { (rows.base ≡ seat.old.me.0.terms.base) × Adds seat.old rows.log }
    ensures { Becomes seat.old (gave_back seat.old.me.0 rows.log) (rest seat.old.me.1) seat.new }
{
    ruled.shared.exchange(seat, 0, Some(SlotValue::Rows(rows)));
    ruled.shared.fetch_add::<PutRows>(seat, 0, 1);
}

/// The length of the history, which the seat has seen then.
pub(crate) fn look<W: Follower + Drop>(ruled: &RuledTable<W>, seat: &mut TableSeat<W>) -> u64
    requires table { Has ruled.now.shared.table_id 0 × (seat.old.table_id ≡ ruled.now.shared.table_id) }
    requires token { IsToken seat.old }
    ensures { LooksAt seat.old result seat.new }
{
    ruled.shared.load::<Look>(seat, 0) / 2
}

/// Lets a seat know what another has seen.
pub(crate) fn hear<W: Follower + Drop>(
    ruled: &RuledTable<W>,
    seat: &mut TableSeat<W>,
    other: &mut TableSeat<W>,
)
    requires table { Has ruled.now.shared.table_id 0 × (seat.old.table_id ≡ ruled.now.shared.table_id)
        × (other.old.table_id ≡ ruled.now.shared.table_id) }
    requires token { IsToken seat.old × IsToken other.old }
    ensures own { Becomes seat.old (hears seat.old.me.0 (note_of other.old.me.0)) seat.old.me.1 seat.new }
    ensures other { Becomes other.old other.old.me.0 other.old.me.1 other.new }
{
    let note = ruled.shared.split_seat::<Tell>(other);
    ruled.shared.join_seat::<Hear>(seat, note);
}

/// A client takes the slot of its mailbox.
pub(crate) fn open_box<W: Follower + Drop>(
    ruled: &RuledTable<W>,
    seat: &mut TableSeat<W>,
    place: usize,
)
    requires table { Has ruled.now.shared.table_id 0 × (seat.old.table_id ≡ ruled.now.shared.table_id) }
    requires token { IsClientAt seat.old place × (seat.old.me.0.has_box ≡ false) }
    ensures { Becomes seat.old (opened seat.old.me.0) ((2 + place, None) ∷ seat.old.me.1) seat.new }
{
    ruled.shared.load::<OpenBox>(seat, 0);
}

/// A client puts a request into its mailbox.
pub(crate) fn post<W: Follower + Drop>(
    ruled: &RuledTable<W>,
    seat: &mut TableSeat<W>,
    place: usize,
    request: PostedRequest,
)
    requires table { (place < most_clients) × Has ruled.now.shared.table_id (2 + place)
        × (seat.old.table_id ≡ ruled.now.shared.table_id) }
    requires token { IsClientAt seat.old place }
    requires mailbox { (seat.old.me.0.has_box ≡ true) × (seat.old.me.0.asked ≡ None) × Carries (2 + place) seat.old }
    requires floor { request.floor ≡ length seat.old.me.0.member.seen }
    ensures { Becomes seat.old (posted seat.old.me.0 request) (rest seat.old.me.1) seat.new }
{
    ruled
        .shared
        .exchange(seat, 2 + place, Some(SlotValue::Asked(request)));
    ruled.shared.store::<Post>(seat, 2 + place, 1);
}

/// A dispatcher takes a request out of a client's mailbox, where there is one.
pub(crate) fn grab<W: Follower + Drop>(
    ruled: &RuledTable<W>,
    seat: &mut TableSeat<W>,
    place: usize,
    client: usize,
) -> Option<PostedRequest>
    requires table { (client < most_clients) × Has ruled.now.shared.table_id (2 + client)
        × (seat.old.table_id ≡ ruled.now.shared.table_id) }
    requires token { IsDispatcherAt seat.old place × (client < seat.old.me.0.terms.clients) }
    ensures { MatchOption result (Becomes seat.old seat.old.me.0 seat.old.me.1 seat.new)
        (λ request. Becomes seat.old (grabbed seat.old.me.0 client request) ((2 + client, None) ∷ seat.old.me.1)
        seat.new × IsElsewhere client seat.old.me.0.grabbed) }
{
    let _ = place;
    if ruled
        .shared
        .compare_exchange::<Grab>(seat, 2 + client, 1, 2)
        != 1
    {
        return None;
    }
    let value = ruled.shared.exchange(seat, 2 + client, None);
    let Some(SlotValue::Asked(request)) = value else {
        unreachable!()
    };
    Some(request)
}

/// A dispatcher puts an answer into the mailbox of a client whose request it has in hand.
pub(crate) fn put_answer<W: Follower + Drop>(
    ruled: &RuledTable<W>,
    seat: &mut TableSeat<W>,
    place: usize,
    client: usize,
    answer: Response,
)
    requires table { (client < most_clients) × Has ruled.now.shared.table_id (2 + client)
        × (seat.old.table_id ≡ ruled.now.shared.table_id) }
    requires token { IsDispatcherAt seat.old place × (client < seat.old.me.0.terms.clients) }
    requires answer { MayServe seat.old client answer }
    ensures { Serves seat.old client answer seat.new }
{
    let _ = place;
    ruled
        .shared
        .exchange(seat, 2 + client, Some(SlotValue::Answered(answer)));
    ruled.shared.store::<Serve>(seat, 2 + client, 3);
}

/// A client takes an answer out of its mailbox, where there is one.
pub(crate) fn collect<W: Follower + Drop>(
    ruled: &RuledTable<W>,
    seat: &mut TableSeat<W>,
    place: usize,
) -> Option<Response>
    requires table { (place < most_clients) × Has ruled.now.shared.table_id (2 + place)
        × (seat.old.table_id ≡ ruled.now.shared.table_id) }
    requires token { IsClientAt seat.old place × (seat.old.me.0.has_box ≡ true) }
    ensures { MatchOption result (Becomes seat.old seat.old.me.0 seat.old.me.1 seat.new)
        (λ answer. Collects seat.old place answer seat.new) }
{
    if ruled
        .shared
        .compare_exchange::<Collect>(seat, 2 + place, 3, 0)
        != 3
    {
        return None;
    }
    let value = ruled.shared.exchange(seat, 2 + place, None);
    let Some(SlotValue::Answered(answer)) = value else {
        unreachable!()
    };
    Some(answer)
}

/// Waits until the writer is home, and takes it.
pub(crate) fn take_writer<W: Follower + Drop, R: Wait>(
    rt: &R,
    ruled: &RuledTable<W>,
    seat: &mut TableSeat<W>,
    place: usize,
) -> W
    requires table { Has ruled.now.shared.table_id 1 × (seat.old.table_id ≡ ruled.now.shared.table_id) }
    requires token { IsDispatcherAt seat.old place }
    ensures { TakesWriter W.base W.commits seat.old result seat.new }
{
    let _ = place;
    for _ in rt.forever() {
        if ruled.shared.compare_exchange::<TryWriter>(seat, 1, 0, 1) == 0 {
            let value = ruled.shared.exchange(seat, 1, None);
            let Some(SlotValue::Writer(writer)) = value else {
                unreachable!()
            };
            return writer;
        }
        ruled.shared.park(rt, 1, 1);
    }
    unreachable!()
}

/// Gives the writer back, over the table's base; stands for a beginning of what the seat has seen.
pub(crate) fn put_writer<W: Follower + Drop>(
    ruled: &RuledTable<W>,
    seat: &mut TableSeat<W>,
    place: usize,
    writer: W,
)
    requires table { Has ruled.now.shared.table_id 1 × (seat.old.table_id ≡ ruled.now.shared.table_id) }
    requires token { IsDispatcherAt seat.old place × (seat.old.me.0.holds_writer ≡ true) × Carries 1 seat.old }
    requires writer { MayPutWriter W.base W.commits seat.old writer }
    ensures { Becomes seat.old (without_writer seat.old.me.0) (rest seat.old.me.1) seat.new }
{
    let _ = place;
    ruled
        .shared
        .exchange(seat, 1, Some(SlotValue::Writer(writer)));
    ruled.shared.store::<PutWriter>(seat, 1, 0);
    ruled.shared.wake_one(1);
}

/// So many of the slots in hand, from the first on, go behind the others.
pub(crate) fn turn_by<W>(seat: &mut TableSeat<W>, times: usize)
    ensures { Becomes seat.old seat.old.me.0 (turns times seat.old.me.1) seat.new }
{
    for _ in 0..times {
        seat.turn();
    }
}

/// Takes in the seat of a member that does nothing more.
pub(crate) fn gather<W: Follower + Drop>(
    ruled: &RuledTable<W>,
    seat: &mut TableSeat<W>,
    mut other: TableSeat<W>,
)
    requires table { Has ruled.now.shared.table_id 0 × (seat.old.table_id ≡ ruled.now.shared.table_id)
        × (other.table_id ≡ ruled.now.shared.table_id) }
    requires token { IsToken seat.old }
    requires other { IsFree other }
    ensures { Becomes seat.old (gathers seat.old.me.0 other.me.0) seat.old.me.1 seat.new }
{
    let token = ruled.shared.split_seat::<Yield>(&mut other);
    ruled.shared.join_seat::<Gather>(seat, token);
}

/// Ends the table by the seat that took in all others. The row store is home.
pub(crate) fn finish<W: Follower + Drop>(ruled: RuledTable<W>, seat: TableSeat<W>) -> RowStore
    requires table { (seat.table_id ≡ ruled.shared.table_id) × (seat.me.0.terms ≡ terms_of ruled.shared.key) }
    requires token { IsToken seat × (seat.me.0.holds_rows ≡ false) × (seat.me.0.holds_writer ≡ false)
        × (seat.me.0.asked ≡ None) }
    requires all { AreAll seat.me.0.terms (members_of seat.me.0) }
    ensures { IsClosed seat.me.0.terms (members_of seat.me.0) result }
{
    let mut closed = ruled.close_with(seat);
    let Some(SlotValue::Rows(rows)) = closed.take(0) else {
        unreachable!()
    };
    for slot in 1..closed.slot_count() {
        drop(closed.take(slot));
    }
    closed.free();
    rows
}
