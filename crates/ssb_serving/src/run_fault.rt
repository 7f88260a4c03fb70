//! Why scripts were not served.
ghost use Rattle.std.specs.Prelude.{◌≡◌};
ghost use Rattle.ssb_serving.specs.declared.run_fault.RunFault.TheVariants.{OutOfMemory};
ghost use Rattle.ssb_serving.specs.RunFaults.{fault_of};

use ssb_server::OpenFault;
use std::alloc::AllocError;
use thiserror::Error;

/// Why scripts were not served. Running out of memory is one fault, wherever it is met.
#[derive(Clone, Copy, Debug, PartialEq, Eq, Error)]
pub enum RunFault {
    /// No server was opened; no script was begun.
    #[error("open: {0}")]
    Open(OpenFault),
    /// A thread could not be started, or a growth was refused.
    #[error("out of memory")]
    OutOfMemory,
}

impl From<AllocError> for RunFault {
    ghost from_gives = { λ _ e. e ≡ OutOfMemory };

    fn from(_e: AllocError) -> RunFault {
        RunFault::OutOfMemory
    }
}

impl From<OpenFault> for RunFault {
    ghost from_gives = { λ fault e. e ≡ fault_of fault };

    fn from(fault: OpenFault) -> RunFault {
        match fault {
            OpenFault::OutOfMemory => RunFault::OutOfMemory,
            OpenFault::ClientCount => RunFault::Open(fault),
            OpenFault::DispatcherCount => RunFault::Open(fault),
            OpenFault::NoReader => RunFault::Open(fault),
        }
    }
}
