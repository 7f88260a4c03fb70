//! A law over the definitions in `specs/`. It is the contract of a function that does nothing.
ghost use Rattle.server_figures.specs.Laws.{TextsMayBeReplaced};

/// A file with a text of metrics may be written over, whatever the figures are.
pub fn texts_may_be_replaced()
    ensures { TextsMayBeReplaced }
{}
