//! A worked run of the machine without threads, which no program runs. Its replies were written by hand.

use crate::tests::same;
use history_core::{Event, EventReply, Stopped, Who, World};
use ssb_answers::{Query, Question, ResultRow, Unserved, Value};
use ssb_schema::{Items, Text};
use std::alloc::{AllocError, Global};
use std::hash::RandomState;
use std::process::Abort;
use std::random::RandomSource;
use std::test::Fail;
use std::thread::Threads;
use test_fixtures::{adding, standard_base};

const CLIENT: Who = Who::Client(1);

const DISPATCHER: Who = Who::Dispatcher(1);

// A request of these queries, with the benchmark's constants.
fn questions(alloc: Global, queries: &[Query]) -> Result<Items<Question>, Fail> {
    let mut asked = Vec::new(alloc);
    for query in queries {
        asked.push(Question::standard(alloc, *query)?)?;
    }
    Ok(Items::from_vec(asked))
}

// What the first request asks: the profit of 1997, and then the discounts of 1993.
fn first_questions(alloc: Global) -> Result<Items<Question>, Fail> {
    questions(alloc, &[Query::Q4_1, Query::Q1_1])
}

// What the second request asks.
fn second_questions(alloc: Global) -> Result<Items<Question>, Fail> {
    questions(alloc, &[Query::Q1_1])
}

// The one row of a question without groups.
fn row_without_groups(alloc: Global, sum: i64) -> Result<Items<ResultRow>, Fail> {
    let row = ResultRow {
        groups: Items::from_vec(Vec::new(alloc)),
        sum: Some(sum),
    };
    Ok(Items::from_vec(vec![in alloc; row]?))
}

// The row of the United States in 1997.
fn row_of_1997(alloc: Global, sum: i64) -> Result<Items<ResultRow>, Fail> {
    let nation = Text::from_str(alloc, "UNITED STATES")?;
    let groups = vec![in alloc; Value::Number(1997), Value::Text(nation)]?;
    let row = ResultRow {
        groups: Items::from_vec(groups),
        sum: Some(sum),
    };
    Ok(Items::from_vec(vec![in alloc; row]?))
}

// A client asks two questions in one request, a refresh comes in between, a dispatcher fetches and answers; a second
// request is given up.
fn worked_events(alloc: Global) -> Result<Vec<Event>, Fail> {
    let first = first_questions(alloc)?;
    let added = adding(alloc, 9)?;
    let second = second_questions(alloc)?;
    Ok(vec![in alloc;
        Event::Post(1, first),
        Event::Grab(1, 1),
        Event::TakeRows(CLIENT),
        Event::TakeRows(DISPATCHER),
        Event::PutRows(CLIENT, Some(added)),
        Event::TakeWriter(1),
        Event::TakeRows(DISPATCHER),
        Event::PutRows(DISPATCHER, None),
        Event::PutWriter(1),
        Event::Answer(1, 1),
        Event::Collect(1),
        Event::Collect(1),
        Event::Look(CLIENT),
        Event::Post(1, second),
        Event::Grab(1, 1),
        Event::Answer(1, 1),
        Event::GiveUp(1, 1, Unserved::OutOfMemory),
        Event::Collect(1),
    ]?)
}

// The reply with the rows of the first request, and that of the second one, which was given up.
fn told(alloc: Global) -> Result<(EventReply, EventReply), Fail> {
    let profit = row_of_1997(alloc, -1330)?;
    let discounts = row_without_groups(alloc, 3000)?;
    let rows = vec![in alloc; profit, discounts]?;
    let answered = EventReply::Rows {
        questions: first_questions(alloc)?,
        at: 1,
        rows: Items::from_vec(rows),
    };
    let given_up = EventReply::Unserved {
        questions: second_questions(alloc)?,
        cause: Unserved::OutOfMemory,
    };
    Ok((answered, given_up))
}

fn worked_replies(alloc: Global) -> Result<Vec<EventReply>, Fail> {
    let first = first_questions(alloc)?;
    let second = second_questions(alloc)?;
    let (answered, given_up) = told(alloc)?;
    Ok(vec![in alloc;
        EventReply::Done,
        EventReply::Asked(first),
        EventReply::Done,
        EventReply::NotEnabled,
        EventReply::Committed(1),
        EventReply::Done,
        EventReply::Done,
        EventReply::Done,
        EventReply::Done,
        EventReply::Done,
        answered,
        EventReply::NotEnabled,
        EventReply::Length(1),
        EventReply::Done,
        EventReply::Asked(second),
        EventReply::NotEnabled,
        EventReply::Done,
        given_up,
    ]?)
}

// What one does with the row store.
fn push_rows_events(alloc: Global, who: Who, events: &mut Vec<Event>) -> Result<(), Fail> {
    events.push(Event::TakeRows(who))?;
    events.push(Event::PutRows(who, None))?;
    events.push(Event::PutRows(who, Some(adding(alloc, 9)?)))?;
    events.push(Event::Look(who))?;
    Ok(())
}

// What a dispatcher does with a client's request.
fn push_turn_events(
    dispatcher: u32,
    client: u32,
    events: &mut Vec<Event>,
) -> Result<(), AllocError> {
    events.push(Event::Grab(dispatcher, client))?;
    events.push(Event::Answer(dispatcher, client))?;
    events.push(Event::GiveUp(dispatcher, client, Unserved::OutOfMemory))?;
    Ok(())
}

// Each event of this number.
fn push_unknown(alloc: Global, number: u32, events: &mut Vec<Event>) -> Result<(), Fail> {
    push_rows_events(alloc, Who::Client(number), events)?;
    push_rows_events(alloc, Who::Dispatcher(number), events)?;
    events.push(Event::Post(number, second_questions(alloc)?))?;
    events.push(Event::TakeWriter(number))?;
    events.push(Event::PutWriter(number))?;
    events.push(Event::Collect(number))?;
    push_turn_events(1, number, events)?;
    push_turn_events(number, 1, events)?;
    Ok(push_turn_events(number, number, events)?)
}

// Each event of an unknown number, where one client and one dispatcher are known.
fn unknown_events(alloc: Global) -> Result<Vec<Event>, Fail> {
    let mut events = Vec::new(alloc);
    push_unknown(alloc, 0, &mut events)?;
    push_unknown(alloc, 2, &mut events)?;
    Ok(events)
}

// The small data set with one client and one dispatcher.
fn opening<R: Threads + Sync + AllocGlobal + RandomSource>(rt: &R) -> Result<World, Fail> {
    let alloc = rt.alloc();
    let base = standard_base(rt, alloc)?;
    Ok(World::opening(alloc, base, RandomState::new(rt)?, 1, 1)?)
}

// Whether the reply to an event is this one.
fn replies(world: &mut World, event: &Event, reply: &EventReply) -> Result<bool, Fail> {
    Ok(world.step(event)? == *reply)
}

// The events are not enabled, one after another.
fn none_is_enabled<A: Abort>(rt: &A, world: &mut World, events: &[Event]) -> Result<(), Fail> {
    for event in events {
        same(rt, &replies(world, event, &EventReply::NotEnabled)?, &true);
    }
    Ok(())
}

// The events have these replies, and before each of them the others are not enabled.
fn step_among<A: Abort>(
    rt: &A,
    world: &mut World,
    (events, wanted): (&[Event], &[EventReply]),
    others: &[Event],
) -> Result<(), Fail> {
    for (event, reply) in events.iter().zip(wanted) {
        none_is_enabled(rt, world, others)?;
        same(rt, &replies(world, event, reply)?, &true);
    }
    Ok(())
}

// The worked run, with the events of unknown numbers before each of its own.
fn step_worked<A: Abort>(rt: &A, alloc: Global, world: &mut World) -> Result<(), Fail> {
    let events = worked_events(alloc)?;
    let wanted = worked_replies(alloc)?;
    let unknown = unknown_events(alloc)?;
    step_among(rt, world, (&events, &wanted), &unknown)
}

#[test]
fn an_unknown_number_is_never_enabled(rt: HostRuntime) -> Result<(), Fail> {
    let mut world = opening(&rt)?;
    step_worked(&rt, rt.alloc(), &mut world)
}

// Whether a run that was stopped and the rest of it have told what is wanted.
fn continues(stopped: &Stopped, rest: &[EventReply], wanted: &[EventReply]) -> bool {
    let taken = stopped.events;
    match (wanted.get(..taken), wanted.get(taken..)) {
        (Some(told), Some(left)) => stopped.replies.as_slice() == told && rest == left,
        _ => false,
    }
}

// Whether the world tells of the events what is wanted. Where it is stopped, it goes on.
fn runs(world: &mut World, events: &[Event], wanted: &[EventReply]) -> Result<bool, Fail> {
    match world.run(events) {
        Ok(found) => Ok(found.as_slice() == wanted),
        Err(stopped) => {
            let left = events.get(stopped.events..).ok_or("left")?;
            let rest = world.run(left).ok().ok_or("stopped again")?;
            Ok(continues(&stopped, &rest, wanted))
        }
    }
}

// Whether the world tells of the worked events what was worked out.
fn runs_worked(alloc: Global, world: &mut World) -> Result<bool, Fail> {
    let events = worked_events(alloc)?;
    let wanted = worked_replies(alloc)?;
    runs(world, &events, &wanted)
}

// With ample memory the run is not stopped; `bench/growths` refuses each growth in turn.
#[test]
fn a_request_is_answered_at_the_mark_fetched_after_its_grab(rt: HostRuntime) -> Result<(), Fail> {
    let mut world = opening(&rt)?;
    same(&rt, &runs_worked(rt.alloc(), &mut world)?, &true);
    Ok(())
}
