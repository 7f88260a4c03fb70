//! What holds of every run of a store: each law is the contract of a function that does nothing.
ghost use Rattle.store_core.specs.Called.{CallsAreARun, CallsKeepWhatWasTold};
ghost use Rattle.store_core.specs.Copies.{CopiesAreTrue};
ghost use Rattle.store_core.specs.Finding.{OneFinding};
ghost use Rattle.store_core.specs.Found.{Store};
ghost use Rattle.store_core.specs.Making.{MadeStoreStays, MakesNoneOrAll};
ghost use Rattle.store_core.specs.Needed.{BeginsEarly, DropsEarly, FoldsOpen, GoesOnEarly, NamesUnsynced};
ghost use Rattle.store_core.specs.Worked.{WorkedRun, WorkedCalls};
ghost use Rattle.store_core.specs.Runs.{NothingToldIsLost, OneStart, WhatIsToldStays};

/// After any run, whatever a crash leaves, a start finds a beginning of the log, with all that anyone was told of.
pub fn nothing_told_is_lost<T, C>()
    ensures { (next : T → C → T) → NothingToldIsLost next }
{}

/// A start finds one thing only.
pub fn one_start<T, C>()
    ensures { (store : Store T C) → OneStart store }
{}

/// A start finds a store, or tells one fault: never both, and of gaps one alone.
pub fn one_finding<T, C>()
    ensures { (store : Store T C) → OneFinding store }
{}

/// What was told at some moment of a run stays in the log, whatever crashes and starts come later.
pub fn what_is_told_stays<T, C>()
    ensures { (next : T → C → T) → WhatIsToldStays next }
{}

/// Whatever moments the files of a copy are of, what a start finds in it is a beginning of the log.
pub fn copies_are_true<T, C>()
    ensures { (next : T → C → T) → CopiesAreTrue next }
{}

/// The rules let a server and a checkpoint do all that they are for: a run with each of the steps, which calls make.
pub fn worked_run()
    ensures run { WorkedRun }
    ensures calls { WorkedCalls }
{}

/// Each rule is needed: without it, what was told is lost.
pub fn rules_are_needed()
    ensures names_unsynced { NamesUnsynced }
    ensures drops_early { DropsEarly }
    ensures begins_early { BeginsEarly }
    ensures goes_on_early { GoesOnEarly }
    ensures folds_open { FoldsOpen }
{}

/// A server and a checkpoint that make their calls by the rules make a run, in whatever order these come, and whatever
/// crashes and failures there are; so nothing is lost that anyone was told of.
pub fn calls_are_a_run<T, C>()
    ensures run { (next : T → C → T) → CallsAreARun next }
    ensures kept { (next : T → C → T) → CallsKeepWhatWasTold next }
{}

/// A new store that is made by the rules is there whole or not at all, whenever a crash comes.
pub fn a_new_store_is_whole<T, C>()
    ensures none_or_all { MakesNoneOrAll T C }
    ensures stays { MadeStoreStays T C }
{}
