//! What a person at a terminal may see of a server beside the replies.

use crate::memory::resident;
use crate::seconds_view::NamedSeconds;
use crate::store_figures::StoreCommits;
use crate::stores::ServedStore;
use arguments::{HintsWord, REFRESH_HELP, SCHEMA_HELP, STAR_HELP, TERMINAL_HELP};
use serve_command::ServeSettings;
use server_figures::{LiveFigures, ServerStatus};
use ssb_hints::{NamedTables, write_request_notes};
use std::alloc::AllocError;
use std::io::Write;
use std::rt::Files;
use std::sync::{Arc, Wait};
use std::time::Duration;
use terminal::ShowsOnDemand;

/// What a person at a terminal may see of a server: its figures, help, and help below a fault.
#[derive(Drop)]
pub(crate) struct TerminalView<'a, 't, R, F: Files> {
    rt: &'a R,
    files: &'a F,
    figures: Arc<LiveFigures>,
    // How many questions stand.
    standing: u64,
    /// The tables' files; none where they are built in.
    pub(crate) tables: Option<NamedTables<'t>>,
    /// The second servers, where there are some.
    pub(crate) seconds: Option<NamedSeconds<'t>>,
    /// The store, where there is one.
    pub(crate) store: Option<Arc<ServedStore>>,
    /// What the words say of help below a fault.
    pub(crate) hints: HintsWord,
}

impl<'a, 't, R, F: Files> TerminalView<'a, 't, R, F> {
    /// That of a server which is served so, over built-in tables.
    pub(crate) fn of(
        rt: &'a R,
        files: &'a F,
        settings: &ServeSettings,
        hints: HintsWord,
    ) -> Result<TerminalView<'a, 't, R, F>, AllocError> {
        Ok(TerminalView {
            rt,
            files,
            figures: Arc::try_clone(&settings.figures)?,
            standing: settings.standing.len() as u64,
            tables: None,
            seconds: None,
            store: None,
            hints,
        })
    }
}

impl<'a, 't, R: Wait, F: Files + AllocGlobal> ShowsOnDemand for TerminalView<'a, 't, R, F> {
    fn help(&self) -> &str {
        TERMINAL_HELP
    }

    fn help_with_star(&self) -> &str {
        STAR_HELP
    }

    fn help_with_refreshes(&self) -> &str {
        REFRESH_HELP
    }

    fn schema(&self) -> &str {
        SCHEMA_HELP
    }

    fn note_request<E: Write>(&self, request: &[u8], screen: &mut E) {
        if let Some(tables) = self.tables {
            write_request_notes(self.files, tables, request, screen);
        }
    }

    fn show_status<E: Write>(&self, since_reply: Option<Duration>, screen: &mut E) {
        let figures = self.figures.now();
        let commits = match &self.store {
            Some(store) => Some(StoreCommits::of(&**store, figures)),
            None => None,
        };
        let status = ServerStatus {
            figures: match commits {
                Some(commits) => commits.counted(figures),
                None => figures,
            },
            standing: self.standing,
            resident_bytes: resident(self.files),
            since_reply: since_reply.map(|time| time.as_secs()),
        };
        let _ = write!(screen, "{status}");
        if let Some(commits) = commits {
            let _ = write!(screen, "{commits}");
        }
        if let Some(seconds) = &self.seconds {
            seconds.write_status(self.rt, screen);
        }
    }
}
