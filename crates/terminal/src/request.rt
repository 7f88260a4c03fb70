//! The request that was typed last.

use crate::on_demand::ShowsOnDemand;
use crate::request_help::{write_open_help, write_reply_help};
use std::alloc::Global;
use std::io::Write;
use std::sync::Mutex;

// A block of more bytes than these is not looked at before its end: each line looks at all before it.
const MOST_LOOKED_AT: usize = 65_536;

// What was typed of a request, and whether it was told that a record of it has a fault.
#[derive(Drop)]
struct TypedText {
    bytes: Vec<u8>,
    is_told: bool,
}

/// What a session read of the last request at a terminal, which is open, or was just answered. Who reads the terminal
/// keeps it, and who shows help looks at it: both are one thread's, so neither finds it locked.
#[derive(Drop)]
pub struct TypedRequest {
    alloc: Global,
    // Whether help is wanted.
    is_helped: bool,
    text: Mutex<TypedText>,
}

impl TypedRequest {
    /// Nothing was typed. Help is shown where it is wanted.
    pub fn new(alloc: Global, is_helped: bool) -> TypedRequest {
        TypedRequest {
            alloc,
            is_helped,
            text: Mutex::new(TypedText {
                bytes: Vec::new(alloc),
                is_told: false,
            }),
        }
    }

    /// Keeps a line, which begins a request or goes on with one. Without memory nothing is kept. No bytes are the end
    /// of the input, and no line.
    pub(crate) fn keep(&self, line: &[u8], goes_on: bool) {
        if line.is_empty() {
            return;
        }
        let Some(mut text) = self.text.try_lock() else {
            return;
        };
        if !goes_on {
            text.bytes.clear();
            text.is_told = false;
        }
        if text.bytes.extend_from_slice(line).is_err() {
            text.bytes.clear();
        }
    }

    /// Shows what is wrong with the lines of a block that has not ended, once, as far as the screen takes it.
    pub(crate) fn help_in_block<E: Write>(&self, screen: &mut E) {
        if !self.is_helped {
            return;
        }
        let Some(mut text) = self.text.try_lock() else {
            return;
        };
        if text.is_told || text.bytes.len() > MOST_LOOKED_AT {
            return;
        }
        if let Ok(is_told) = write_open_help(self.alloc, text.bytes.as_slice(), screen) {
            text.is_told = is_told;
        }
    }

    /// Shows what is wrong with it, by the first line of its reply, as far as the screen takes it.
    pub(crate) fn help<E: Write>(&self, reply: &str, screen: &mut E) {
        if !self.is_helped {
            return;
        }
        if let Some(text) = self.text.try_lock() {
            let _ = write_reply_help(self.alloc, reply, text.bytes.as_slice(), screen);
        }
    }

    /// Shows what it asks for that no row has, where it asks, as far as the screen takes it.
    pub(crate) fn note<S: ShowsOnDemand, E: Write>(&self, shows: &S, screen: &mut E) {
        if !self.is_helped {
            return;
        }
        if let Some(text) = self.text.try_lock() {
            shows.note_request(text.bytes.as_slice(), screen);
        }
    }
}
