//! What looks on while the threads of a run are at work.

/// Is told when the threads of a run begin and when all of them have ended, as a clock that takes the time. It promises
/// nothing, and what is served is the same with any of them.
pub trait WatchesRun {
    /// The first thread starts from here on.
    fn begin(&mut self);

    /// All threads have ended. A run that runs out of memory has no end.
    fn end(&mut self);
}

/// Looks at nothing.
#[derive(Clone, Copy, Debug)]
pub struct NoWatch;

impl WatchesRun for NoWatch {
    fn begin(&mut self) {}

    fn end(&mut self) {}
}
