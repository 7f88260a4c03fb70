//! A terminal that is read: a prompt before each wait, and the words that are its own.

use crate::fields::{are_alike, said, trimmed};
use crate::on_demand::ShowsOnDemand;
use crate::question::session_line;
use crate::request::TypedRequest;
use crate::statement::{TypedStatement, begins_statement};
use crate::stopwatch::ReplyWatch;
use crate::word::TerminalWord;
use ssb_script::{BlockKind, begun_behind, ends_request};
use std::alloc::Global;
use std::io;
use std::io::{BufRead, BufReader, Read, Write};
use std::time::Clock;

// What stands before the first prompt.
const GREETING: &str = "\
Q1.1 asks; ask .. answer asks several at once; begin .. commit refreshes; abort drops
help lists the words and the queries; quit ends
";

const PROMPT: &str = "> ";

// Where a refresh is open, and where questions are.
const REFRESH_PROMPT: &str = "begin> ";

const ASK_PROMPT: &str = "ask> ";

// Where a statement goes on.
const STATEMENT_PROMPT: &str = "sql> ";

// What the session reads where the terminal does what a line says. It has no reply.
const NOTHING: &[u8] = b"\n";

/// A terminal that is read line by line. Before it waits it writes a prompt to the screen, which shows which block is
/// open, and before the first of them a line of help. What is read of it is what a session reads for each line.
#[derive(Drop)]
pub struct Prompted<'a, C: Clock, I: Read + Drop, E: Write + Drop, S: ShowsOnDemand> {
    alloc: Global,
    terminal: BufReader<I>,
    screen: E,
    shows: &'a S,
    request: &'a TypedRequest,
    watch: ReplyWatch<'a, C>,
    // The line that was typed last.
    line: Vec<u8>,
    // What a session reads for it, and how many bytes of that were read.
    ready: Vec<u8>,
    taken: usize,
    // The block that is open behind it.
    begun: Option<BlockKind>,
    is_greeted: bool,
    has_ended: bool,
}

impl<'a, C: Clock, I: Read + Drop, E: Write + Drop, S: ShowsOnDemand> Prompted<'a, C, I, E, S> {
    /// The terminal, with the screen for its prompts and for what it shows. The request that is typed is kept.
    pub fn new(
        alloc: Global,
        clock: &'a C,
        terminal: I,
        screen: E,
        shows: &'a S,
        request: &'a TypedRequest,
    ) -> io::Result<Prompted<'a, C, I, E, S>> {
        Ok(Prompted {
            alloc,
            terminal: BufReader::new(alloc, terminal)?,
            screen,
            shows,
            request,
            watch: ReplyWatch::new(clock),
            line: Vec::new(alloc),
            ready: Vec::new(alloc),
            taken: 0,
            begun: None,
            is_greeted: false,
            has_ended: false,
        })
    }

    // Shows how long the last reply took, and the prompt, as far as the screen takes them.
    fn prompt(&mut self) {
        self.watch.show(&mut self.screen);
        if !self.is_greeted {
            self.is_greeted = true;
            let _ = self.screen.write_all(GREETING.as_bytes());
        }
        let prompt = match self.begun {
            Some(BlockKind::Refreshing) => REFRESH_PROMPT,
            Some(BlockKind::Asking) => ASK_PROMPT,
            None => PROMPT,
        };
        let _ = self.screen.write_all(prompt.as_bytes());
    }

    // Does what a word says.
    fn obey(&mut self, word: TerminalWord) -> io::Result<()> {
        match word {
            TerminalWord::Help => {
                let _ = self.screen.write_all(self.shows.help().as_bytes());
            }
            TerminalWord::HelpStar => {
                let _ = self
                    .screen
                    .write_all(self.shows.help_with_star().as_bytes());
            }
            TerminalWord::HelpBegin => {
                let _ = self
                    .screen
                    .write_all(self.shows.help_with_refreshes().as_bytes());
            }
            TerminalWord::Schema => {
                let _ = self.screen.write_all(self.shows.schema().as_bytes());
            }
            TerminalWord::Timing => self.watch.switch(&mut self.screen),
            TerminalWord::Status => {
                let since_reply = self.watch.since_reply();
                self.shows.show_status(since_reply, &mut self.screen);
            }
            TerminalWord::Quit => {
                self.has_ended = true;
                return Ok(());
            }
        }
        self.ready.extend_from_slice(NOTHING)?;
        Ok(())
    }

    // Makes ready what a session reads for the line.
    fn hand_on(&mut self) -> io::Result<()> {
        self.ready = session_line(self.alloc, self.line.as_slice())?;
        let line = self.ready.as_slice();
        self.request.keep(line, self.begun.is_some());
        if ends_request(self.begun, line) {
            self.begun = None;
            if !trimmed(line).is_empty() {
                self.watch.begin();
            }
        } else {
            self.begun = begun_behind(self.begun, line);
            self.request.help_in_block(&mut self.screen);
        }
        Ok(())
    }

    // Takes the lines of a statement, of which the first was read, up to its end or that of the input; an `abort` in place
    // of one drops it.
    fn take_statement(&mut self) -> io::Result<()> {
        let mut statement = TypedStatement::new(self.alloc)?;
        for _ in 0..u64::MAX {
            if are_alike(b"abort", said(self.line.as_slice())) {
                self.ready.extend_from_slice(NOTHING)?;
                return Ok(());
            }
            statement.add(self.line.as_slice())?;
            if statement.has_ended() || self.line.is_empty() {
                break;
            }
            let _ = self.screen.write_all(STATEMENT_PROMPT.as_bytes());
            self.line.clear();
            self.terminal.read_until(b'\n', &mut self.line)?;
        }
        self.line = statement.into_record()?;
        self.hand_on()
    }

    // Waits for the next line, and does what it says, or makes ready what a session reads for it.
    fn take_line(&mut self) -> io::Result<()> {
        self.line.clear();
        self.ready.clear();
        self.taken = 0;
        if self.has_ended {
            return Ok(());
        }
        self.prompt();
        self.terminal.read_until(b'\n', &mut self.line)?;
        match TerminalWord::typed(self.line.as_slice()) {
            Some(word) => self.obey(word),
            None if self.begun.is_none() && begins_statement(self.line.as_slice()) => {
                self.take_statement()
            }
            None => self.hand_on(),
        }
    }

    // What is ready, and was not read.
    fn rest(&self) -> &[u8] {
        self.ready.as_slice().get(self.taken..).unwrap_or(b"")
    }
}

impl<'a, C: Clock, I: Read + Drop, E: Write + Drop, S: ShowsOnDemand> Read
    for Prompted<'a, C, I, E, S> {
    fn read(&mut self, buf: &mut [u8]) -> io::Result<usize> {
        if self.rest().is_empty() {
            self.take_line()?;
        }
        let mut rest = self.rest();
        let count = rest.read(buf)?;
        self.taken = self.taken.saturating_add(count);
        Ok(count)
    }
}
