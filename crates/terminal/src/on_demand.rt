//! What a person at a terminal may ask to see.

use std::io::Write;
use std::time::Duration;

/// What a person at a terminal may ask to see: help, and how the server does. It promises nothing.
pub trait ShowsOnDemand {
    /// The words and the queries.
    fn help(&self) -> &str;

    /// How questions of one's own are asked.
    fn help_with_star(&self) -> &str;

    /// How a refresh is written.
    fn help_with_refreshes(&self) -> &str;

    /// The tables and their columns.
    fn schema(&self) -> &str;

    /// Writes to the screen what the questions of a request look for that no row has, as far as that takes it.
    fn note_request<E: Write>(&self, request: &[u8], screen: &mut E);

    /// Writes to the screen how the server does, as far as that takes it. The last reply came so long ago, if one has
    /// come.
    fn show_status<E: Write>(&self, since_reply: Option<Duration>, screen: &mut E);
}
