//! The machine: its public calls, then a method for each event, then the parts of which these are made. Only the parts
//! know the fields; all else speaks of the world that they show.
ghost use Rattle.std.specs.Prelude.{◌≡◌, ◌≤◌, ◌<◌, length, take, map, Some, None, IfOk, IfErr, IfSome, OnOk, OnErr};
ghost use Rattle.row_store.specs.Legal.{IsLegal};
ghost use Rattle.history_core.specs.declared.event.Who.TheVariants.{Client, Dispatcher};
ghost use Rattle.history_core.specs.Applying.{applied};
ghost use Rattle.history_core.specs.Counts.{most_clients};
ghost use Rattle.history_core.specs.Events.{event_of, TakeRows, PutRows, Look, Post};
ghost use Rattle.history_core.specs.Events.{Grab, TakeWriter, PutWriter, Answer, GiveUp};
ghost use Rattle.history_core.specs.Mailboxes.{floor_of, asked_of, held_of, left_in, collected_of};
ghost use Rattle.history_core.specs.Numbered.{numbered};
ghost use Rattle.history_core.specs.Runs.{HasRun, IsTrueFromOpening};
ghost use Rattle.history_core.specs.World.{opening_world, rows_after, all_rows_after, is_known, is_same, holds_rows};
ghost use Rattle.history_core.specs.World.{holds_writer, mailbox_of, version_of, with_client};
ghost use Rattle.history_core.specs.World.{with_dispatcher, seen_by, into_mailbox, unmarked, gave, step_of};

use crate::client::{self, opening_clients};
use crate::dispatcher::{self, Given, Outcome, opening_dispatchers};
use crate::event::{Event, EventReply, Who};
use crate::mailbox::Mailbox;
use crate::numbered::{find, place_of};
use crate::questions::share;
use row_store::{ApplyError, Commit, PlainLines, Replica, RowStore};
use ssb_answers::{Question, ResultRow, Unserved, evaluate};
use ssb_base::Base;
use ssb_schema::{Items, Refresh};
use std::alloc::{AllocError, Global};
use std::hash::RandomState;
use std::marker::Model;
use std::mem;
use std::sync::Arc;

/// A base and the history of commits over it, who holds the row store and the writer, and what each client and each
/// dispatcher has seen and has in hand. Contracts see it as the `World` of `specs/World.antt`.
#[derive(Drop)]
pub struct World {
    alloc: Global,
    base: Arc<Base>,
    store: RowStore,
    // All commits: the row store may forget some of its own.
    commits: Vec<Commit>,
    rows: Option<Who>,
    writer: Option<u32>,
    clients: Vec<client::WorldClient>,
    dispatchers: Vec<dispatcher::WorldDispatcher>,
}

impl Model for World {
    ghost use Rattle.history_core.specs.World.{World as Shown};

    ghost Value = { Shown };

    ghost use Rattle.history_core.specs.View.{world_in, IsWorld};

    ghost view = { world_in };

    ghost invariant = { IsWorld };
}

/// How many events were taken before memory ran out, and the replies to them.
#[derive(Drop)]
pub struct Stopped {
    pub events: usize,
    pub replies: Vec<EventReply>,
}

fn same(holder: Who, who: Who) -> bool
    ensures { result ≡ is_same holder who }
{
    match (holder, who) {
        (Who::Client(a), Who::Client(b)) => a == b,
        (Who::Dispatcher(a), Who::Dispatcher(b)) => a == b,
        _ => false,
    }
}

impl World {
    /// The world in which nothing has happened, over a base, with so many clients and dispatchers. The row store hashes
    /// its keys with `hashing`, as `RandomState::new(&rt)?`.
    pub fn opening(
        alloc: Global,
        base: Arc<Base>,
        hashing: RandomState,
        clients: u32,
        dispatchers: u32,
    ) -> Result<World, AllocError>
        requires clients { (1 ≤ clients) × (clients ≤ most_clients) }
        requires dispatchers { (1 ≤ dispatchers) × (dispatchers ≤ 4) }
        ensures { IfOk result (λ world. world ≡ opening_world base.value clients dispatchers) }
    {
        let store = RowStore::new(alloc, Arc::try_clone(&base)?, hashing)?;
        let commits = Vec::new(alloc);
        let clients = opening_clients(alloc, clients)?;
        let dispatchers = opening_dispatchers(alloc, dispatchers)?;
        Ok(World {
            alloc,
            base,
            store,
            commits,
            rows: None,
            writer: None,
            clients,
            dispatchers,
        })
    }

    /// Takes an event and replies to it. An event that is not enabled changes nothing, and neither does running
    /// out of memory.
    pub fn step(&mut self, event: &Event) -> Result<EventReply, AllocError>
        ensures stepped { IfOk result (λ reply. step_of self.old (event_of event.now) ≡ (self.new, reply)) }
        ensures unchanged { OnErr result (self.new ≡ self.old) }
    {
        match event {
            Event::TakeRows(who) => Ok(self.take_rows(*who)),
            Event::PutRows(who, None) => Ok(self.return_rows(*who)),
            Event::PutRows(Who::Client(number), Some(refresh)) => {
                self.put_refresh(*number, refresh)
            }
            Event::PutRows(Who::Dispatcher(_), Some(_)) => Ok(EventReply::NotEnabled),
            Event::Look(who) => Ok(self.look(*who)),
            Event::Post(client, questions) => self.post(*client, questions),
            Event::Grab(dispatcher, client) => self.grab(*dispatcher, *client),
            Event::TakeWriter(dispatcher) => Ok(self.take_writer(*dispatcher)),
            Event::PutWriter(dispatcher) => Ok(self.put_writer(*dispatcher)),
            Event::Answer(dispatcher, client) => self.answer(*dispatcher, *client),
            Event::GiveUp(dispatcher, client, cause) => {
                self.give_up(*dispatcher, *client, *cause)
            }
            Event::Collect(client) => Ok(self.collect(*client)),
        }
    }

    /// Takes the events in turn. The room for each reply is taken before its event, so that no reply is lost.
    pub fn run(&mut self, events: &[Event]) -> Result<Vec<EventReply>, Stopped>
        ensures ran { IfOk result (λ replies. HasRun self.old (map event_of events.now) replies.items self.new) }
        ensures true_run { IfOk result (λ replies.
            IsTrueFromOpening self.old (map event_of events.now) replies.items self.new) }
        ensures fewer { IfErr result (λ stopped. stopped.events < length events.now) }
        ensures stopped { IfErr result (λ stopped.
            HasRun self.old (map event_of (take stopped.events events.now)) stopped.replies.items self.new) }
        ensures true_stop { IfErr result (λ stopped.
            IsTrueFromOpening self.old (map event_of (take stopped.events events.now)) stopped.replies.items
            self.new) }
    {
        let mut replies = Vec::new(self.alloc);
        for event in events {
            if replies.reserve(1).is_err() {
                return Err(Stopped {
                    events: replies.len(),
                    replies,
                });
            }
            let Ok(reply) = self.step(event) else {
                return Err(Stopped {
                    events: replies.len(),
                    replies,
                });
            };
            replies.push_reserved(reply);
        }
        Ok(replies)
    }
}

// The events.
impl World {
    // The row store is given out, while it is home, and its holder sees the whole history.
    fn take_rows(&mut self, who: Who) -> EventReply
        ensures { step_of self.old (TakeRows who) ≡ (self.new, result) }
    {
        if !self.knows(who) {
            return EventReply::NotEnabled;
        }
        if self.rows.is_some() {
            return EventReply::NotEnabled;
        }
        self.hold_rows(Some(who));
        self.see(who);
        EventReply::Done
    }

    // The row store comes home as it was.
    fn return_rows(&mut self, who: Who) -> EventReply
        ensures { step_of self.old (PutRows who None) ≡ (self.new, result) }
    {
        if !self.knows(who) {
            return EventReply::NotEnabled;
        }
        if !self.holds_rows(who) {
            return EventReply::NotEnabled;
        }
        self.hold_rows(None);
        match who {
            Who::Client(_) => {
                self.see(who);
                EventReply::Done
            }
            Who::Dispatcher(number) => {
                self.mark(number);
                EventReply::Done
            }
        }
    }

    // The row store comes home with a client's refresh.
    fn put_refresh(&mut self, client: u32, refresh: &Arc<Refresh>) -> Result<EventReply, AllocError>
        ensures stepped { IfOk result (λ reply.
            step_of self.old (PutRows (Client client) (Some refresh.now.value)) ≡ (self.new, reply)) }
        ensures unchanged { OnErr result (self.new ≡ self.old) }
    {
        let who = Who::Client(client);
        if !self.knows(who) {
            return Ok(EventReply::NotEnabled);
        }
        if !self.holds_rows(who) {
            return Ok(EventReply::NotEnabled);
        }
        let reply = self.apply(client, refresh)?;
        self.hold_rows(None);
        self.see(who);
        Ok(reply)
    }

    // The whole history is seen.
    fn look(&mut self, who: Who) -> EventReply
        ensures { step_of self.old (Look who) ≡ (self.new, result) }
    {
        if !self.knows(who) {
            return EventReply::NotEnabled;
        }
        let length = self.store.len();
        self.see(who);
        EventReply::Length(length as u64)
    }

    // Questions go into the client's empty mailbox, with what the client has seen as their floor.
    fn post(&mut self, client: u32, questions: &Items<Question>) -> Result<EventReply, AllocError>
        ensures stepped { IfOk result (λ reply. step_of self.old (Post client questions.now) ≡ (self.new, reply)) }
        ensures unchanged { OnErr result (self.new ≡ self.old) }
    {
        let Some(floor) = self.floor(client) else {
            return Ok(EventReply::NotEnabled);
        };
        let questions = share(self.alloc, questions)?;
        self.put(client, Mailbox::Asked { questions, floor });
        Ok(EventReply::Done)
    }

    // A request goes from its mailbox into the hand of a dispatcher, whose mark and version are void.
    fn grab(&mut self, number: u32, client: u32) -> Result<EventReply, AllocError>
        ensures stepped { IfOk result (λ reply. step_of self.old (Grab number client) ≡ (self.new, reply)) }
        ensures unchanged { OnErr result (self.new ≡ self.old) }
    {
        if !self.knows(Who::Dispatcher(number)) {
            return Ok(EventReply::NotEnabled);
        }
        let Some((questions, floor)) = self.asked(client)? else {
            return Ok(EventReply::NotEnabled);
        };
        let shared = share(self.alloc, &questions)?;
        let mailbox = Mailbox::InHand {
            dispatcher: number,
            questions,
            floor,
        };
        self.put(client, mailbox);
        self.unmark(number);
        Ok(EventReply::Asked(shared))
    }

    // The writer is given out, while it is home. The mark and the version of its holder are void.
    fn take_writer(&mut self, number: u32) -> EventReply
        ensures { step_of self.old (TakeWriter number) ≡ (self.new, result) }
    {
        if !self.knows(Who::Dispatcher(number)) {
            return EventReply::NotEnabled;
        }
        if self.writer.is_some() {
            return EventReply::NotEnabled;
        }
        self.hold_writer(Some(number));
        self.unmark(number);
        EventReply::Done
    }

    // The writer comes home: the mark is the version.
    fn put_writer(&mut self, number: u32) -> EventReply
        ensures { step_of self.old (PutWriter number) ≡ (self.new, result) }
    {
        if !self.knows(Who::Dispatcher(number)) {
            return EventReply::NotEnabled;
        }
        if !self.holds_writer(number) {
            return EventReply::NotEnabled;
        }
        self.hold_writer(None);
        self.set_version(number);
        EventReply::Done
    }

    // The request in hand is answered at the version. All that can fail comes before the first change.
    fn answer(&mut self, number: u32, client: u32) -> Result<EventReply, AllocError>
        ensures stepped { IfOk result (λ reply. step_of self.old (Answer number client) ≡ (self.new, reply)) }
        ensures unchanged { OnErr result (self.new ≡ self.old) }
    {
        let Some(at) = self.version(number) else {
            return Ok(EventReply::NotEnabled);
        };
        let Some((questions, floor)) = self.held(number, client)? else {
            return Ok(EventReply::NotEnabled);
        };
        let rows = self.all_rows_after(&questions, at)?;
        let given = Given {
            client,
            floor,
            outcome: Outcome::Served(at),
        };
        self.give(number, given)?;
        self.put(
            client,
            Mailbox::Answered {
                questions,
                at,
                rows,
            },
        );
        Ok(EventReply::Done)
    }

    // The request in hand is given up.
    fn give_up(
        &mut self,
        number: u32,
        client: u32,
        cause: Unserved,
    ) -> Result<EventReply, AllocError>
        ensures stepped { IfOk result (λ reply. step_of self.old (GiveUp number client cause) ≡ (self.new, reply)) }
        ensures unchanged { OnErr result (self.new ≡ self.old) }
    {
        if !self.knows(Who::Dispatcher(number)) {
            return Ok(EventReply::NotEnabled);
        }
        let Some((questions, floor)) = self.held(number, client)? else {
            return Ok(EventReply::NotEnabled);
        };
        let given = Given {
            client,
            floor,
            outcome: Outcome::GivenUp(cause),
        };
        self.give(number, given)?;
        self.put(client, Mailbox::Unserved { questions, cause });
        Ok(EventReply::Done)
    }
}

// The parts of events.
impl World {
    // Whether the number is known.
    fn knows(&self, who: Who) -> bool
        ensures { result ≡ is_known self.now who }
    {
        match who {
            Who::Client(number) => find(&self.clients, number).is_some(),
            Who::Dispatcher(number) => find(&self.dispatchers, number).is_some(),
        }
    }

    // It has seen the whole history.
    fn see(&mut self, who: Who)
        ensures { self.new ≡ seen_by self.old who }
    {
        let length = self.store.len();
        match who {
            Who::Client(number) => {
                if let Some(place) = place_of(number, self.clients.len()) {
                    self.clients[place].seen = length;
                }
            }
            Who::Dispatcher(number) => {
                if let Some(place) = place_of(number, self.dispatchers.len()) {
                    self.dispatchers[place].seen = length;
                }
            }
        }
    }

    // Who holds the row store, if anybody.
    fn hold_rows(&mut self, rows: Option<Who>)
        ensures { self.new ≡ record self.old { rows = rows } }
    {
        self.rows = rows;
    }

    // Who holds the writer, if anybody.
    fn hold_writer(&mut self, writer: Option<u32>)
        ensures { self.new ≡ record self.old { writer = writer } }
    {
        self.writer = writer;
    }

    // What lies in the client's mailbox from now on.
    fn put(&mut self, number: u32, mailbox: Mailbox)
        ensures { self.new ≡ into_mailbox self.old number mailbox }
    {
        if let Some(place) = place_of(number, self.clients.len()) {
            drop(mem::replace(&mut self.clients[place].mailbox, mailbox));
        }
    }

    // The dispatcher has neither a mark nor a version.
    fn unmark(&mut self, number: u32)
        ensures { self.new ≡ with_dispatcher self.old number unmarked }
    {
        if let Some(place) = place_of(number, self.dispatchers.len()) {
            let dispatcher = &mut self.dispatchers[place];
            dispatcher.mark = None;
            dispatcher.version = None;
        }
    }

    // So much of the history has the dispatcher seen when it gives the row store back.
    fn mark(&mut self, number: u32)
        ensures { self.new ≡ with_dispatcher self.old number
            (λ d. record d { seen = self.old.history; mark = Some (length self.old.history) }) }
    {
        let length = self.store.len();
        if let Some(place) = place_of(number, self.dispatchers.len()) {
            let dispatcher = &mut self.dispatchers[place];
            dispatcher.seen = length;
            dispatcher.mark = Some(length as u64);
        }
    }

    // The dispatcher's mark is its version.
    fn set_version(&mut self, number: u32)
        ensures { self.new ≡ with_dispatcher self.old number (λ d. record d { version = d.mark }) }
    {
        if let Some(place) = place_of(number, self.dispatchers.len()) {
            let dispatcher = &mut self.dispatchers[place];
            dispatcher.version = dispatcher.mark;
        }
    }

    // The dispatcher gave one answer more.
    fn give(&mut self, number: u32, given: Given) -> Result<(), AllocError>
        ensures gave { OnOk result (self.new ≡ with_dispatcher self.old number
            (gave given.client given.floor given.outcome)) }
        ensures unchanged { OnErr result (self.new ≡ self.old) }
    {
        if let Some(place) = place_of(number, self.dispatchers.len()) {
            self.dispatchers[place].given.push(given)?;
        }
        Ok(())
    }

    // What a client may ask with: how many commits it has seen, where its mailbox is empty.
    fn floor(&self, client: u32) -> Option<u64>
        ensures { result ≡ floor_of (numbered self.now.clients client) }
    {
        let client = find(&self.clients, client)?;
        client.mailbox.floor(client.seen as u64)
    }

    // The request of a client that nobody has grabbed.
    fn asked(&self, client: u32) -> Result<Option<(Items<Question>, u64)>, AllocError>
        ensures { IfOk result (λ request. request ≡ asked_of (mailbox_of (numbered self.now.clients client))) }
    {
        match find(&self.clients, client) {
            Some(client) => client.mailbox.asked(self.alloc),
            None => Ok(None),
        }
    }

    // The request of a client that the dispatcher has in hand.
    fn held(&self, number: u32, client: u32) -> Result<Option<(Items<Question>, u64)>, AllocError>
        ensures { IfOk result (λ request. request ≡ held_of number (mailbox_of (numbered self.now.clients client))) }
    {
        match find(&self.clients, client) {
            Some(client) => client.mailbox.held(self.alloc, number),
            None => Ok(None),
        }
    }

    // The version of a dispatcher, if it has one.
    fn version(&self, number: u32) -> Option<u64>
        ensures version { result ≡ version_of (numbered self.now.dispatchers number) }
        ensures within { IfSome result (λ at. at ≤ length self.now.history) }
    {
        find(&self.dispatchers, number)?.version
    }

    // Whether it is this one who holds the row store.
    fn holds_rows(&self, who: Who) -> bool
        ensures { result ≡ holds_rows self.now.rows who }
    {
        match self.rows {
            Some(holder) => same(holder, who),
            None => false,
        }
    }

    // Whether it is this dispatcher who holds the writer.
    fn holds_writer(&self, number: u32) -> bool
        ensures { result ≡ holds_writer self.now.writer number }
    {
        match self.writer {
            Some(holder) => holder == number,
            None => false,
        }
    }

    // Hands out the answer in a client's mailbox, if there is one.
    fn collect(&mut self, client: u32) -> EventReply
        ensures left { self.new ≡ with_client self.old client (λ c. record c { mailbox = left_in c.mailbox }) }
        ensures reply { result ≡ collected_of (mailbox_of (numbered self.old.clients client)) }
    {
        match place_of(client, self.clients.len()) {
            Some(place) => self.clients[place].mailbox.collect(),
            None => EventReply::NotEnabled,
        }
    }

    // The live lines after the first `at` commits, from the loaded ones on.
    fn lines_after(&self, at: u64) -> Result<PlainLines, AllocError>
        requires { at ≤ length self.now.history }
        ensures lines { IfOk result (λ lines. lines ≡ record { base = self.now.base; log = take at self.now.history }) }
        ensures legal { IsLegal self.now.base self.now.history }
    {
        self.store.soundness();
        let commits = &self.commits[..at as usize];
        let mut lines = PlainLines::new(self.alloc, Arc::try_clone(&self.base)?)?;
        for commit in commits {
            lines.absorb(commit)?;
        }
        Ok(lines)
    }

    // The rows that answer a question after the first `at` commits.
    fn rows_after(&self, question: &Question, at: u64) -> Result<Items<ResultRow>, AllocError>
        requires { at ≤ length self.now.history }
        ensures { IfOk result (λ rows. rows ≡ rows_after self.now.base question.now (take at self.now.history)) }
    {
        self.base.soundness();
        let lines = self.lines_after(at)?;
        let rows = evaluate(self.alloc, &self.base, lines.lines(), question)?;
        Ok(rows.list)
    }

    // The rows that answer each of these questions, all of them after the first `at` commits.
    fn all_rows_after(
        &self,
        questions: &Items<Question>,
        at: u64,
    ) -> Result<Items<Items<ResultRow>>, AllocError>
        requires { at ≤ length self.now.history }
        ensures { IfOk result (λ rows. rows ≡ all_rows_after self.now.base questions.now (take at self.now.history)) }
    {
        let list = questions.as_slice();
        let mut all = Vec::new(self.alloc);
        for question in list {
            all.push(self.rows_after(question, at)?)?;
        }
        Ok(Items::from_vec(all))
    }

    // Applies a client's refresh, which is accepted or refused.
    fn apply(&mut self, client: u32, refresh: &Arc<Refresh>) -> Result<EventReply, AllocError>
        ensures applied { IfOk result (λ reply. applied self.old client refresh.now.value ≡ (self.new, reply)) }
        ensures unchanged { OnErr result (self.new ≡ self.old) }
    {
        let refresh = Arc::try_clone(refresh)?;
        let kept = Arc::try_clone(&refresh)?;
        self.commits.reserve(1)?;
        let receipt = match self.store.apply(client, refresh) {
            Ok(receipt) => receipt,
            Err(ApplyError::Refused(refusal)) => {
                return Ok(EventReply::Refused {
                    at: self.store.len() as u64,
                    action: refusal.action,
                    cause: refusal.cause,
                });
            }
            Err(ApplyError::OutOfMemory) => return Err(AllocError),
        };
        let commit = Commit {
            client,
            refresh: kept,
        };
        self.commits.push_reserved(commit);
        Ok(EventReply::Committed(receipt.number))
    }
}
