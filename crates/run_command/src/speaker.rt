//! A script, spoken to a client: its requests are served from the first to the last.

ghost use Rattle.std.specs.Prelude.{◌≡◌, false, true, IfOk, IfSome};
ghost use Rattle.std.specs.Option.{is_some};
ghost use Rattle.stream_sessions.specs.OneRequest.{AreAlike};
ghost use Rattle.run_command.specs.Sessions.{IsSessionOf};

use crate::latency::{Timer, Times};
use row_store::Follower;
use ssb_audit::Told;
use ssb_clients::{Client, Server};
use ssb_script::Script;
use std::alloc::{AllocError, Global};
use std::marker::Model;
use std::sync::Wait;
use std::time::Clock;
use stream_sessions::{Acknowledges, Nothing, Service, Speaker, Speaks, ToldWith, serve_requests};

/// A script that a client is to be served, and whether its requests' times are taken.
#[derive(Drop)]
pub(crate) struct ScriptSpeaker {
    pub(crate) script: Script,
    pub(crate) timed: bool,
}

/// What a script that was served whole leaves: what was reported to its client, what the client was told, and how long
/// its requests took, where that was asked for.
#[derive(Drop)]
pub(crate) struct ScriptSession {
    pub(crate) report: Vec<u8>,
    pub(crate) told: Vec<Told>,
    pub(crate) times: Option<Times>,
}

impl Model for ScriptSession {
    ghost use Rattle.run_command.specs.Sessions.{SessionRecord};

    ghost Value = { SessionRecord };

    ghost view = { λ s. record { report = s.report.items; told = s.told.items } };
}

// Serves the client its script, with a report in memory: only running out of memory can end it early.
fn speak_script<W: Follower + Drop, R: Wait + Clock, K>(
    service: &Service<'_, W, R, K>,
    client: &mut Client<W>,
    speaker: ScriptSpeaker,
) -> Result<ScriptSession, AllocError>
    requires table { client.old.table ≡ service.now.server.now }
    requires quiet { is_some client.old.asked ≡ false }
    ensures same { AreAlike client.old client.new }
    ensures session { IfOk result (IsSessionOf speaker.script client.old client.new) }
{
    let ScriptSpeaker { script, timed } = speaker;
    let mut report = Vec::new(service.alloc);
    let mut kept = Some(Vec::new(service.alloc));
    let mut timer = Timer::new(service.alloc, service.rt, timed)?;
    let served = serve_requests(service, client, script, &mut report, &mut kept, &mut timer);
    match (served, kept) {
        (Ok(()), Some(told)) => Ok(ScriptSession {
            report,
            told,
            times: timer.into_times(),
        }),
        _ => Err(AllocError),
    }
}

impl Speaker for ScriptSpeaker {
    type Left = Option<ScriptSession>;

    ghost spoken = { λ speaker old new left. IfSome left (IsSessionOf speaker.script old new) };

    // Nobody is told while the threads are at work: the report is handed out when all of them have ended.
    ghost told = { λ _. 0 };

    ghost took = { λ _. true };

    fn commits_told(_left: &Option<ScriptSession>) -> u64 {
        0
    }

    fn took_refreshes(_left: &Option<ScriptSession>) -> bool {
        true
    }
}

impl<R: Wait + Clock> Speaks<R, Nothing> for ScriptSpeaker {
    fn speak<W: Follower + Drop, K: Acknowledges<Nothing>>(
        self,
        rt: &R,
        alloc: Global,
        acknowledger: &K,
        server: &Server<W>,
        client: &mut Client<W>,
    ) -> (Option<ScriptSession>, ToldWith<Nothing>) {
        let service = Service {
            rt,
            alloc,
            acknowledger,
            server,
        };
        let session = speak_script(&service, client, self).ok();
        (session, ToldWith::nothing())
    }
}
