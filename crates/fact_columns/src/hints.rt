//! Where free places may be.
ghost use Rattle.std.specs.Prelude.{◌≡◌};

use crate::span::Span;
use std::alloc::{AllocError, Global};

const LONGEST: usize = 7;

/// Spans of places that were free when they were offered, by their length: from 1 to 7 places, as an order has lines.
/// Nothing relies on a hint: who takes one looks at its places before writing there.
#[derive(Drop)]
pub struct Hints {
    by_length: [Vec<Span>; LONGEST],
}

impl Hints {
    /// No hints.
    pub fn new(alloc: Global) -> Hints {
        Hints {
            by_length: [
                Vec::new(alloc),
                Vec::new(alloc),
                Vec::new(alloc),
                Vec::new(alloc),
                Vec::new(alloc),
                Vec::new(alloc),
                Vec::new(alloc),
            ],
        }
    }

    /// Takes memory for so many hints more, of whatever length.
    pub fn reserve(&mut self, count: usize) -> Result<(), AllocError> {
        for spans in self.by_length.iter_mut() {
            spans.reserve(count)?;
        }
        Ok(())
    }

    /// Remembers the span, where there is memory for it.
    pub fn offer(&mut self, span: Span) {
        if span.first >= span.end {
            return;
        }
        let length = ((span.end - span.first) as usize).min(LONGEST);
        let spans = &mut self.by_length[length - 1];
        if spans.len() < spans.capacity() {
            spans.push_reserved(span);
        }
    }

    /// The first of so many adjacent places that may be free, from the shortest span that has them.
    pub fn take(&mut self, count: usize) -> Option<u32> {
        if count == 0 {
            return None;
        }
        for length in count..LONGEST + 1 {
            if let Some(span) = self.by_length[length - 1].pop() {
                if let Some(rest) = span.first.checked_add(count as u32) {
                    self.offer(Span {
                        first: rest,
                        end: span.end,
                    });
                }
                return Some(span.first);
            }
        }
        None
    }

    /// The same hints.
    pub fn copy(&self, alloc: Global) -> Result<Hints, AllocError> {
        let mut copy = Hints::new(alloc);
        for (spans, own) in copy.by_length.iter_mut().zip(self.by_length.iter()) {
            spans.extend_from_slice(own.as_slice())?;
        }
        Ok(copy)
    }
}
