//! What holds of every trace: the law is the contract of a function that does nothing.
ghost use Rattle.ssb_audit.specs.Legal.{NoFaultIsLegal};

/// Nothing speaks against a trace exactly where it is legal.
pub fn no_fault_is_legal()
    ensures { NoFaultIsLegal }
{}
