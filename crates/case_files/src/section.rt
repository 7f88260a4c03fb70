//! The sections of a case: their headings, where they may stand, and the bytes that their lines spell.

use crate::fault::CaseLineFault;
use std::alloc::Global;

/// What a section says.
#[derive(Clone, Copy)]
pub enum SectionKind<'a> {
    /// A file that is there before, by its path.
    File(&'a str),
    /// A command line.
    Command,
    /// A file by its path, or a stream of the command, and behind how many of its bytes it fails.
    Breaks(&'a str, usize),
    /// A file by its path, which another process has.
    Taken(&'a str),
    /// Standard input.
    Input,
    /// Standard output.
    Output,
    /// Standard error.
    Errors,
    /// An exit status.
    Status(u8),
    /// A file that is there afterwards, by its path.
    Leaves(&'a str),
}

/// A section, by its heading.
#[derive(Clone, Copy)]
pub struct Section<'a> {
    pub part: SectionKind<'a>,
    is_escaped: bool,
}

impl<'a> SectionKind<'a> {
    // The place among the sections of a command.
    fn place(self) -> u8 {
        match self {
            SectionKind::File(_) => 0,
            SectionKind::Command => 1,
            SectionKind::Breaks(..) => 2,
            SectionKind::Taken(_) => 3,
            SectionKind::Input => 4,
            SectionKind::Output => 5,
            SectionKind::Errors => 6,
            SectionKind::Status(_) => 7,
            SectionKind::Leaves(_) => 8,
        }
    }

    // Whether several may stand one behind another.
    fn repeats(self) -> bool {
        matches!(
            self,
            SectionKind::Breaks(..) | SectionKind::Taken(_) | SectionKind::Leaves(_)
        )
    }

    /// Whether it may stand behind the last one, or as the first: files, and then the sections of each command.
    pub fn may_follow(self, last: Option<SectionKind<'_>>) -> bool {
        match (self, last) {
            (SectionKind::Command, _) | (SectionKind::File(_), None | Some(SectionKind::File(_))) =>
                true,
            (SectionKind::File(_), _) | (_, None | Some(SectionKind::File(_))) => false,
            (part, Some(last)) if part.repeats() => last.place() <= part.place(),
            (part, Some(last)) => last.place() < part.place(),
        }
    }
}

// How far an escape is read.
#[derive(Clone, Copy)]
enum Escape {
    Outside,
    Begun,
    Hex,
    HexDigit(u8),
}

fn hex_digit(byte: u8) -> Option<u8> {
    match byte {
        b'0'..=b'9' => Some(byte - b'0'),
        b'a'..=b'f' => Some(byte - b'a' + 10),
        b'A'..=b'F' => Some(byte - b'A' + 10),
        _ => None,
    }
}

impl Escape {
    // Reads the next byte of a line, and appends the byte that ends here.
    fn read(self, text: &mut Vec<u8>, byte: u8) -> Result<Escape, CaseLineFault> {
        let spelled = match (self, byte) {
            (Escape::Outside, b'\\') => return Ok(Escape::Begun),
            (Escape::Outside, byte) => byte,
            (Escape::Begun, b'x') => return Ok(Escape::Hex),
            (Escape::Begun, b'n') => b'\n',
            (Escape::Begun, b'r') => b'\r',
            (Escape::Begun, b't') => b'\t',
            (Escape::Begun, b'\\') => b'\\',
            (Escape::Begun, _) => return Err(CaseLineFault::NoEscape),
            (Escape::Hex, byte) => match hex_digit(byte) {
                Some(high) => return Ok(Escape::HexDigit(high)),
                None => return Err(CaseLineFault::NoDigit),
            },
            (Escape::HexDigit(high), byte) => match hex_digit(byte) {
                Some(low) => (high << 4) | low,
                None => return Err(CaseLineFault::NoDigit),
            },
        };
        text.push(spelled)?;
        Ok(Escape::Outside)
    }
}

// Appends the bytes that a line spells, and says how far an escape at its end is read.
fn read_escapes(text: &mut Vec<u8>, line: &str) -> Result<Escape, CaseLineFault> {
    let mut escape = Escape::Outside;
    for byte in line.bytes() {
        escape = escape.read(text, byte)?;
    }
    Ok(escape)
}

impl<'a> Section<'a> {
    /// The section that a heading begins, which is a line without its `== `.
    pub fn parse(heading: &'a str) -> Option<Section<'a>> {
        let (words, is_escaped) = match heading.strip_suffix(" escaped") {
            Some(words) => (words, true),
            None => (heading, false),
        };
        let part = match words.split_once(' ') {
            Some(("file", path)) => SectionKind::File(path),
            Some(("leaves", path)) => SectionKind::Leaves(path),
            Some(("breaks", words)) if !is_escaped => {
                let (name, after) = words.rsplit_once(" after ")?;
                SectionKind::Breaks(name, after.parse().ok()?)
            }
            Some(("taken", path)) if !is_escaped => SectionKind::Taken(path),
            Some(("status", number)) if !is_escaped => SectionKind::Status(number.parse().ok()?),
            Some(_) => return None,
            None => match words {
                "command" => SectionKind::Command,
                "input" => SectionKind::Input,
                "output" => SectionKind::Output,
                "errors" => SectionKind::Errors,
                _ => return None,
            },
        };
        Some(Section { part, is_escaped })
    }

    /// The word that a word of the section's line spells.
    pub fn word(self, alloc: Global, word: &str) -> Result<String, CaseLineFault> {
        if !self.is_escaped {
            return Ok(String::from_str(alloc, word)?);
        }
        let mut text = Vec::new(alloc);
        match read_escapes(&mut text, word)? {
            Escape::Outside => match String::from_utf8(text) {
                Ok(word) => Ok(word),
                Err(_) => Err(CaseLineFault::NoEscape),
            },
            _ => Err(CaseLineFault::CutOff),
        }
    }

    /// Appends the bytes that a line of the section spells.
    pub fn append(self, text: &mut Vec<u8>, line: &str) -> Result<(), CaseLineFault> {
        if !self.is_escaped {
            text.extend_from_slice(line.as_bytes())?;
            text.push(b'\n')?;
            return Ok(());
        }
        match read_escapes(text, line)? {
            Escape::Outside => Ok(text.push(b'\n')?),
            // the lone backslash at the line's end
            Escape::Begun => Ok(()),
            Escape::Hex | Escape::HexDigit(_) => Err(CaseLineFault::CutOff),
        }
    }
}
