//! What is kept of what a client is told.
ghost use Rattle.std.specs.Prelude.{◌≡◌, ◌+◌, ◌<◌, ◌≤◌, ◌++◌, OnOk, IfSome, flat_map, vec_len, vec_capacity};
ghost use Rattle.std.specs.Option.{option_map};
ghost use Rattle.stream_sessions.specs.Keeping.{KeepsMore, answer_count};
ghost use Rattle.stream_sessions.specs.Replies.{reply_of};
ghost use Rattle.stream_sessions.specs.Served.{told_by, told_of};

use crate::reply::Reply;
use ssb_answers::Answer;
use ssb_audit::Told;
use std::alloc::AllocError;

// Keeps an answer that has rows.
fn keep(told: &mut Vec<Told>, client: u32, answer: Answer)
    requires { vec_len told.old < vec_capacity told.old }
    ensures items { told.new.items ≡ told.old.items ++ told_by client answer }
    ensures len { vec_len told.new ≤ vec_len told.old + 1 }
    ensures capacity { vec_capacity told.new ≡ vec_capacity told.old }
{
    if let Answer::Rows { question, at, rows } = answer {
        told.push_reserved(Told {
            client,
            at,
            question,
            rows,
        });
    }
}

// Keeps the answers that have rows, in order.
fn keep_all(told: &mut Vec<Told>, client: u32, answers: Vec<Answer>)
    requires { vec_len told.old + vec_len answers ≤ vec_capacity told.old }
    ensures { told.new.items ≡ told.old.items ++ flat_map (told_by client) answers.items }
{
    for answer in answers {
        keep(told, client, answer);
    }
}

/// Makes room for so many answers, where any are kept.
pub(crate) fn make_room(told: &mut Option<Vec<Told>>, count: usize) -> Result<(), AllocError>
    ensures same { option_map (λ kept. kept.items) told.new ≡ option_map (λ kept. kept.items) told.old }
    ensures room { OnOk result (IfSome told.new (λ kept. vec_len kept + count ≤ vec_capacity kept)) }
{
    match told {
        Some(kept) => match kept.reserve(count) {
            Ok(()) => Ok(()),
            Err(_) => Err(AllocError),
        },
        None => Ok(()),
    }
}

/// Keeps the answers of a reply that have rows, in room that was made before, where any are kept.
pub(crate) fn keep_reply(told: &mut Option<Vec<Told>>, client: u32, reply: Reply)
    requires { IfSome told.old (λ kept. vec_len kept + answer_count (reply_of reply) ≤ vec_capacity kept) }
    ensures { KeepsMore (option_map (λ kept. kept.items) told.old) (option_map (λ kept. kept.items) told.new)
        (told_of client (reply_of reply)) }
{
    let Some(kept) = told else {
        return;
    };
    match reply {
        Reply::Answered(answers) => keep_all(kept, client, answers),
        Reply::Listed(answers, _listing) => keep_all(kept, client, answers),
        Reply::Refreshed(_outcome) => {}
        Reply::Shown(_order) => {}
        Reply::Aborted => {}
    }
}
