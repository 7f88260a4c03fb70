//! The two copies: entered while the next commit is published, after a publication that was refused, and by three
//! readers beside a writer.
ghost use Rattle.std.specs.Prelude.{◌≡◌, [], ◌∷◌, ◌++◌, IfOk, OnOk};
ghost use Rattle.row_store.specs.History.{IsPrefix};
ghost use Rattle.row_store.specs.State.{StandsFor};

use crate::tests::same;
use row_store::{Commit, Follower, PlainLines, Replica};
use std::alloc::{AllocError, Global};
use std::process::Abort;
use std::sync::Wait;
use std::sync::atomic::{AtomicBool, Ordering};
use std::test::Fail;
use std::thread::{Threads, join, map_vec};
use test_fixtures::{adding, standard_base};
use twin_cell::{Guard, TwinReader, TwinWriter, twin};

// The commit of client 1 that adds this order, of one line.
fn adds(alloc: Global, key: u64) -> Result<Commit, Fail> {
    Ok(Commit {
        client: 1,
        refresh: adding(alloc, key)?,
    })
}

// A cell with one reader.
fn cell<R: Replica + Drop, W: Wait + Drop>(
    alloc: Global,
    rt: W,
    first: R,
) -> Result<(TwinWriter<R, W>, TwinReader<R>), Fail>
    requires { StandsFor (R.state first) [] }
    ensures base { IfOk result (λ made. made.1.base ≡ made.0.base) }
    ensures told { IfOk result (λ made. IsPrefix made.1.told made.0.published) }
{
    let (writer, mut readers) = twin(alloc, rt, first, 1)?;
    let reader = readers.pop().ok_or("no reader")?;
    Ok((writer, reader))
}

// The reader learns what is published.
fn tell<R: Replica + Drop, W: Wait + Drop>(
    writer: &mut TwinWriter<R, W>,
    reader: &mut TwinReader<R>,
) -> Result<(), AllocError>
    requires base { reader.old.base ≡ writer.old.base }
    requires told { IsPrefix reader.old.told writer.old.published }
    ensures kept { writer.new ≡ writer.old }
    ensures base { OnOk result (reader.new.base ≡ writer.old.base) }
    ensures told { OnOk result (reader.new.told ≡ writer.old.published) }
{
    reader.learn(writer.tell()?);
    Ok(())
}

// Appends the commit. Where memory is wanting the writer is as it was, and it is tried once more.
fn append<R: Replica + Drop, W: Wait + Drop>(
    writer: &mut TwinWriter<R, W>,
    commit: Commit,
) -> Result<(), AllocError>
    ensures { OnOk result (writer.new ≡ record writer.old { pending = writer.old.pending ++ commit ∷ [] }) }
{
    let again = commit.clone()?;
    let pending = writer.pending();
    if writer.append(commit).is_ok() {
        return Ok(());
    }
    if writer.pending() != pending {
        return Err(AllocError);
    }
    writer.append(again)
}

// Publishes the commit.
fn publish<R: Replica + Drop, W: Wait + Drop>(
    mut writer: TwinWriter<R, W>,
    commit: Commit,
) -> Result<TwinWriter<R, W>, AllocError>
    ensures base { IfOk result (λ after. after.base ≡ writer.base) }
    ensures longer { IfOk result (λ after. IsPrefix writer.published after.published) }
{
    append(&mut writer, commit)?;
    let (writer, published) = writer.publish();
    published?;
    Ok(writer)
}

// How many commits the copy has, and how many lines.
fn shown(guard: &Guard<PlainLines>) -> (u64, usize) {
    let lines = guard.replica();
    (lines.commits(), lines.lines().len())
}

// Publishes the commit in a thread, while the guard is held in another.
fn publish_beside<R: Threads + Wait + Sync, W: Wait + Drop + Send>(
    rt: &R,
    writer: TwinWriter<PlainLines, W>,
    commit: Commit,
    guard: &Guard<PlainLines>,
) -> Result<(TwinWriter<PlainLines, W>, (u64, usize)), AllocError>
    ensures base { IfOk result (λ after. after.0.base ≡ writer.base) }
    ensures longer { IfOk result (λ after. IsPrefix writer.published after.0.published) }
{
    let (published, seen) = join(rt, move || publish(writer, commit), || shown(guard));
    Ok((published?, seen))
}

#[test]
fn an_entered_copy_stays_as_it_is(rt: HostRuntime) -> Result<(), Fail> {
    let alloc = rt.alloc();
    let (writer, mut reader) = cell(
        alloc,
        &rt,
        PlainLines::new(alloc, standard_base(&rt, alloc)?)?,
    )?;
    let mut writer = publish(writer, adds(alloc, 9)?)?;
    tell(&mut writer, &mut reader)?;
    let guard = reader.enter(&rt);
    let (mut writer, beside) = publish_beside(&rt, writer, adds(alloc, 10)?, &guard)?;
    same(&rt, &(beside, shown(&guard)), &((1, 5), (1, 5)));
    let mut reader = guard.leave();
    tell(&mut writer, &mut reader)?;
    let guard = reader.enter(&rt);
    same(&rt, &shown(&guard), &(2, 6));
    Ok(())
}

// Plain lines that refuse so many commits at first.
#[derive(Drop)]
struct Refusing {
    lines: PlainLines,
    refusals: u64,
}

impl Replica for Refusing {
    ghost use Rattle.row_store.specs.State.{state_of};

    ghost state = { λ r. state_of r.lines.base r.lines.log };

    fn absorb(&mut self, commit: &Commit) -> Result<(), AllocError> {
        if self.refusals > 0 {
            self.refusals -= 1;
            return Err(AllocError);
        }
        self.lines.absorb(commit)
    }

    fn commits(&self) -> u64 {
        self.lines.commits()
    }

    fn copy(&self) -> Result<Refusing, AllocError> {
        Ok(Refusing {
            lines: self.lines.copy()?,
            refusals: self.refusals,
        })
    }
}

// The writer after a publication that was refused.
fn refused<R: Replica + Drop, W: Wait + Drop>(
    writer: TwinWriter<R, W>,
) -> Result<TwinWriter<R, W>, AllocError>
    ensures { IfOk result (λ after. after ≡ writer) }
{
    match writer.publish() {
        (writer, Err(_)) => Ok(writer),
        (_, Ok(())) => Err(AllocError),
    }
}

#[test]
fn a_refused_publication_changes_nothing(rt: HostRuntime) -> Result<(), Fail> {
    let alloc = rt.alloc();
    let lines = PlainLines::new(alloc, standard_base(&rt, alloc)?)?;
    let first = Refusing { lines, refusals: 1 };
    let (mut writer, mut reader) = cell(alloc, &rt, first)?;
    append(&mut writer, adds(alloc, 9)?)?;
    let mut writer = refused(writer)?;
    same(&rt, &(writer.pending(), writer.told()), &(1, 0));
    tell(&mut writer, &mut reader)?;
    let guard = reader.enter(&rt);
    same(&rt, &guard.replica().commits(), &0);
    let mut reader = guard.leave();
    let (mut writer, published) = writer.publish();
    published?;
    same(&rt, &(writer.pending(), writer.told()), &(0, 1));
    tell(&mut writer, &mut reader)?;
    let guard = reader.enter(&rt);
    same(&rt, &guard.replica().commits(), &1);
    Ok(())
}

const COMMITS: u64 = 1000;

// Publishes the commits one by one, and then says that it is done. It stops where memory is wanting.
fn write_all<W: Wait + Drop>(
    mut writer: TwinWriter<PlainLines, W>,
    commits: Vec<Commit>,
    done: &AtomicBool,
) -> TwinWriter<PlainLines, W> {
    for commit in commits {
        let appended = writer.append(commit);
        let (next, published) = writer.publish();
        writer = next;
        if appended.is_err() || published.is_err() {
            break;
        }
    }
    done.store(true, Ordering::SeqCst);
    writer
}

// Enters again and again, and once more after the writer is done. It gives the last number of commits, and how many
// copies were no state of the history or older than the one before.
fn read_all<W: Wait>(rt: &W, mut reader: TwinReader<PlainLines>, done: &AtomicBool) -> (u64, u32) {
    let (mut last, mut wrong) = (0, 0u32);
    for _ in rt.forever() {
        let is_last = done.load(Ordering::SeqCst);
        let guard = reader.enter(rt);
        let (commits, lines) = shown(&guard);
        reader = guard.leave();
        let torn = lines as u64 != commits.wrapping_add(4);
        wrong = wrong.wrapping_add((torn || commits < last) as u32);
        last = commits;
        if is_last {
            break;
        }
    }
    (last, wrong)
}

// The writer after it has published, and what each of the readers beside it has seen. A writer that went before its
// readers would let them wait for ever.
fn race<R: Threads + Wait + Sync, W: Wait + Drop + Send>(
    rt: &R,
    writer: TwinWriter<PlainLines, W>,
    commits: Vec<Commit>,
    readers: Vec<TwinReader<PlainLines>>,
) -> Result<(TwinWriter<PlainLines, W>, Vec<(u64, u32)>), AllocError> {
    let done = AtomicBool::new(false);
    let (writer, read) = join(
        rt,
        || write_all(writer, commits, &done),
        || map_vec(rt, readers, &|reader| read_all(rt, reader, &done)),
    );
    Ok((writer, read?))
}

// Commits that each add an order of one line.
fn many(alloc: Global) -> Result<Vec<Commit>, Fail> {
    let mut commits = Vec::new(alloc);
    for number in 0..COMMITS {
        commits.push(adds(alloc, 100 + number)?)?;
    }
    Ok(commits)
}

// Each of three readers has seen all commits at last, and nothing wrong.
fn have_seen_all<A: Abort>(rt: &A, read: &[(u64, u32)]) {
    let all = [(COMMITS, 0), (COMMITS, 0), (COMMITS, 0)];
    assert_eq!(rt; read, all.as_slice());
}

#[test]
fn readers_beside_a_writer_see_states_of_the_history(rt: HostRuntime) -> Result<(), Fail> {
    let alloc = rt.alloc();
    let commits = many(alloc)?;
    let first = PlainLines::new(alloc, standard_base(&rt, alloc)?)?;
    let (writer, readers) = twin(alloc, &rt, first, 3)?;
    let (writer, read) = race(&rt, writer, commits, readers)?;
    same(&rt, &writer.told(), &COMMITS);
    have_seen_all(&rt, &read);
    Ok(())
}
