//! What a second server has told of its disk.

ghost use Rattle.std.specs.Prelude.{◌≡◌, ◌<◌, ◌^◌, ℕ, IfSome, IsSome, max};
ghost use Rattle.confirmed_commits.specs.Receipts.{IsReceipt};

use itoa::Buffer;
use std::str;

/// The evidence that a second server has told of the first commits, so many of them. It is made of a line that was read
/// of it, and of nothing else; that of no commits needs no line.
#[derive(Clone, Copy, Debug, PartialEq, Eq)]
pub struct Confirmed {
    commits: u64,
}

impl Confirmed {
    /// The evidence of no commits.
    pub fn nothing() -> Confirmed
        ensures { result.commits ≡ 0 }
    {
        Confirmed { commits: 0 }
    }

    /// The evidence of a line, without its end; none where it is no receipt.
    pub fn of_line(line: &[u8]) -> Option<Confirmed>
        ensures receipt { IfSome result (λ confirmed. IsReceipt line.now confirmed.commits) }
        ensures each { (number : ℕ) → number < 2 ^ 64 → IsReceipt line.now number → IsSome result }
    {
        let number = line.strip_prefix(b"committed ".as_slice())?;
        let Ok(text) = str::from_utf8(number) else {
            return None;
        };
        let Ok(commits) = text.parse::<u64>() else {
            return None;
        };
        if Buffer::new().format(commits).as_bytes() != number {
            return None;
        }
        Some(Confirmed { commits })
    }

    /// How many commits.
    pub fn commits(self) -> u64
        ensures { result ≡ self.commits }
    {
        self.commits
    }

    /// That of the two which is of more commits.
    pub fn or_more(self, other: Confirmed) -> Confirmed
        ensures { result.commits ≡ max self.commits other.commits }
    {
        if self.commits < other.commits {
            other
        } else {
            self
        }
    }
}
