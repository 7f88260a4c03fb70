//! What follows of what clients are served: each law is the contract of a function that does nothing.
ghost use Rattle.run_command.specs.Alone.{OneClientIsOneThread, AloneSeesItsOwn};
ghost use Rattle.run_command.specs.Alone.{AloneIsOneThread, AloneEndsAsOneThread};
ghost use Rattle.run_command.specs.TraceFiles.{TracesMayBeReplaced};
ghost use Rattle.run_command.specs.Traces.{RunsAreLegal};

/// The log of a closed server and what each of its clients was told, in any order of the clients, are a legal trace:
/// nothing speaks against it in an audit.
pub fn runs_are_legal()
    ensures { RunsAreLegal }
{}

/// What the only client of a server is served from the beginning on is what the one-thread warehouse serves.
pub fn one_client_is_one_thread()
    ensures { OneClientIsOneThread }
{}

/// What the only client of a server sees is its own commits. What it is served, from any state on in which it asks
/// nothing, is what the one-thread warehouse serves after these; and so it is where serving ends early.
pub fn alone_is_one_thread()
    ensures sees { AloneSeesItsOwn }
    ensures whole { AloneIsOneThread }
    ensures broken { AloneEndsAsOneThread }
{}

/// A file with a trace may be written over by the trace of another run.
pub fn traces_may_be_replaced()
    ensures { TracesMayBeReplaced }
{}
