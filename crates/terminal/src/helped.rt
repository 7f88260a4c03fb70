//! The replies at a terminal, and help below a fault or a refusal.

ghost use Rattle.std.specs.Prelude.{◌≡◌};

use crate::on_demand::ShowsOnDemand;
use crate::request::TypedRequest;
use std::alloc::Global;
use std::io;
use std::io::Write;

// How many bytes of a reply are kept. The line of a fault has fewer, and so has that of a refusal.
const MOST_KEPT: usize = 256;

// The beginning of a reply.
#[derive(Drop)]
struct ReplyStart {
    bytes: Vec<u8>,
}

impl ReplyStart {
    // Keeps what there is room for. Without memory nothing is kept.
    fn keep(&mut self, bytes: &[u8]) {
        let room = MOST_KEPT.saturating_sub(self.bytes.len());
        let kept = bytes.get(..room).unwrap_or(bytes);
        if self.bytes.extend_from_slice(kept).is_err() {
            self.bytes.clear();
        }
    }

    // What was kept, where it is a text.
    fn text(&self) -> Option<&str> {
        str::from_utf8(self.bytes.as_slice()).ok()
    }

    // Its first line, where the whole of it was kept.
    fn first_line(&self) -> Option<&str> {
        let (line, _) = self.text()?.split_once('\n')?;
        Some(line)
    }

    // Whether it may be an answer without rows, or of a sum of no lines.
    fn may_be_empty(&self) -> bool {
        match self.text() {
            Some(text) => {
                text.contains("rows 0")
                    || text.contains(" 0 rows")
                    || text.contains("NULL")
                    || text.contains("null")
                    || text.contains("[]")
            }
            None => false,
        }
    }
}

/// The output of a session at a terminal: it gets what is written, byte by byte. Where that is the line of a fault
/// or of a refusal, help stands below it on the screen, if it is wanted; and notes, where it is an empty answer.
///
/// A session hands a reply on at once, and before it reads on: so what is written up to a flush is the reply to the
/// request that was typed last.
#[derive(Drop)]
pub struct HelpedOutput<'a, O: Write + Drop, E: Write + Drop, S: ShowsOnDemand> {
    /// What gets the replies.
    pub output: O,
    screen: E,
    request: &'a TypedRequest,
    shows: &'a S,
    // Of what was written since the last flush.
    reply: ReplyStart,
}

impl<'a, O: Write + Drop, E: Write + Drop, S: ShowsOnDemand> HelpedOutput<'a, O, E, S> {
    /// Over this output. A fault or a refusal that is written has help on the screen, about the request.
    pub fn new(
        alloc: Global,
        output: O,
        screen: E,
        request: &'a TypedRequest,
        shows: &'a S,
    ) -> HelpedOutput<'a, O, E, S>
        ensures output { result.output ≡ output }
    {
        HelpedOutput {
            output,
            screen,
            request,
            shows,
            reply: ReplyStart {
                bytes: Vec::new(alloc),
            },
        }
    }
}

impl<'a, O: Write + Drop, E: Write + Drop, S: ShowsOnDemand> Write for HelpedOutput<'a, O, E, S> {
    ghost contents = { λ helped. O.contents helped.output };

    fn write(&mut self, buf: &[u8]) -> io::Result<usize> {
        let count = self.output.write(buf)?;
        self.reply.keep(&buf[..count]);
        Ok(count)
    }

    fn flush(&mut self) -> io::Result<()> {
        self.output.flush()?;
        if let Some(line) = self.reply.first_line() {
            self.request.help(line, &mut self.screen);
        }
        if self.reply.may_be_empty() {
            self.request.note(self.shows, &mut self.screen);
        }
        self.reply.bytes.clear();
        Ok(())
    }
}
