//! What the word `status` shows.

ghost use Rattle.std.specs.Prelude.{Some};
ghost use Rattle.server_figures.specs.StatusText.{answered_text, memory_text, reply_text, state_text, status_text};

use crate::figures::Figures;
use crate::refused_text::RefusedTerms;
use ssb_base::MOST_LINES;
use std::fmt;

// The bytes of a megabyte.
const MEGABYTE: u64 = 1_000_000;

/// What the word `status` shows of a server.
#[derive(Clone, Copy, Debug, PartialEq, Eq)]
pub struct ServerStatus {
    pub figures: Figures,
    /// How many questions stand.
    pub standing: u64,
    /// How many bytes of memory the program has, where the system says so.
    pub resident_bytes: Option<u64>,
    /// How many seconds ago the last reply came, where one has come.
    pub since_reply: Option<u64>,
}

// The lines of what refreshes left, and of the clients.
#[derive(Clone, Copy)]
struct StateLines(Figures);

impl fmt::Display for StateLines {
    ghost output = { λ state. Some (state_text state.0) };

    #[tactic(auto, unfolding(crate::specs::StatusText::state_text))]
    fn fmt<W: fmt::Write>(&self, f: &mut fmt::Formatter<W>) -> fmt::Result {
        let commits = self.0.commits;
        let lines = self.0.lines;
        let sessions = self.0.sessions;
        let limit = MOST_LINES as u64;
        let refusals = self.0.refusals;
        let refused = RefusedTerms(self.0.refused);
        let broken = self.0.broken;
        writeln!(f, "commits {commits}")?;
        writeln!(f, "live lines {lines} of at most {limit}")?;
        writeln!(f, "refused {refusals}{refused}")?;
        writeln!(f, "sessions {sessions}, broken {broken}")
    }
}

// The lines of what was answered.
#[derive(Clone, Copy)]
struct AnswerLines(Figures);

impl fmt::Display for AnswerLines {
    ghost output = { λ answered. Some (answered_text answered.0) };

    #[tactic(auto, unfolding(crate::specs::StatusText::answered_text))]
    fn fmt<W: fmt::Write>(&self, f: &mut fmt::Formatter<W>) -> fmt::Result {
        let batches = self.0.batches;
        let answers = self.0.answers;
        let by_totals = self.0.by_totals;
        writeln!(f, "batches {batches}")?;
        writeln!(f, "answers {answers}, {by_totals} of them from totals")
    }
}

// The line of the memory, where it is known.
#[derive(Clone, Copy)]
struct MemoryLine(Option<u64>);

impl fmt::Display for MemoryLine {
    ghost output = { λ memory. Some (memory_text memory.0) };

    fn fmt<W: fmt::Write>(&self, f: &mut fmt::Formatter<W>) -> fmt::Result {
        match self.0 {
            Some(bytes) => {
                let megabytes = bytes / MEGABYTE;
                writeln!(f, "memory {megabytes} MB")
            }
            None => Ok(()),
        }
    }
}

// The line of the last reply, where one has come.
#[derive(Clone, Copy)]
struct ReplyLine(Option<u64>);

impl fmt::Display for ReplyLine {
    ghost output = { λ reply. Some (reply_text reply.0) };

    fn fmt<W: fmt::Write>(&self, f: &mut fmt::Formatter<W>) -> fmt::Result {
        match self.0 {
            Some(seconds) => writeln!(f, "last reply {seconds} s ago"),
            None => Ok(()),
        }
    }
}

impl fmt::Display for ServerStatus {
    ghost output = { λ status. Some (status_text status) };

    fn fmt<W: fmt::Write>(&self, f: &mut fmt::Formatter<W>) -> fmt::Result {
        let state = StateLines(self.figures);
        let answered = AnswerLines(self.figures);
        let standing = self.standing;
        let memory = MemoryLine(self.resident_bytes);
        let reply = ReplyLine(self.since_reply);
        write!(f, "{state}{answered}")?;
        writeln!(f, "standing questions {standing}")?;
        write!(f, "{memory}{reply}")
    }
}
