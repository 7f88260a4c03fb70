//! Signed lines: what a commit brought, and what it took away.

ghost use Rattle.std.specs.Prelude.{◌≡◌};
ghost use Rattle.changes_command.specs.Signed.{is_asked};

/// Whether a line came by a commit, or went.
#[derive(Clone, Copy, Debug, PartialEq, Eq)]
pub enum Sign {
    /// It came: 1.
    Came,
    /// It went: -1.
    Went,
}

/// From where on the changes of a history are asked for.
#[derive(Clone, Copy, Debug, PartialEq, Eq)]
pub enum ChangesStart {
    /// From the loaded lines on, which came by the last commit before the journal's, or by commit 0.
    Loaded,
    /// Behind the first commits of the history, so many of them.
    Behind(u64),
}

impl ChangesStart {
    /// Whether the changes of the commit of this number are asked for.
    pub(crate) fn asks(self, commit: u64) -> bool
        ensures { result ≡ is_asked self commit }
    {
        match self {
            ChangesStart::Loaded => true,
            ChangesStart::Behind(count) => count < commit,
        }
    }
}
