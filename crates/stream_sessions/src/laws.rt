//! What holds of every request and of every session: each law is the contract of a function that does nothing.
ghost use Rattle.std.specs.Prelude.{ℕ, List};
ghost use Rattle.stream_sessions.specs.Events.{Event};
ghost use Rattle.stream_sessions.specs.Moment.{OneMoment};
ghost use Rattle.stream_sessions.specs.Exchange.{TellsReplies};
ghost use Rattle.stream_sessions.specs.ReadingOnly.{CommitsNothing};
ghost use Rattle.stream_sessions.specs.WholeScripts.{HasRepliesOfScript};

/// The questions of one request are answered in order, all after the same number of commits, no fewer than the client
/// had seen when it asked; or none of them is answered, for one cause.
pub fn one_moment()
    ensures { OneMoment }
{}

/// A legal script that is answered request by request, as it comes, has the replies of the whole script, where the
/// session takes refreshes or the script has none; or the text of a statement that it asks is refused.
pub fn replies_of_script()
    ensures { (text : List ℕ) → HasRepliesOfScript text }
{}

/// A session that takes no refreshes has committed nothing of its client when it ends, however it ends.
pub fn commits_nothing()
    ensures { (events : List Event) → CommitsNothing events }
{}

/// What was told in a conversation is the replies to the requests that were taken, one after another, whatever is known of
/// the streams.
pub fn conversation_tells_replies()
    ensures { (events : List Event) → TellsReplies events }
{}
