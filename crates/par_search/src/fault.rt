//! The faults of a search.
use std::alloc::AllocError;
use store_core::CallFault;
use thiserror::Error;

/// The reasons why a search does not begin, go on or end.
#[derive(Clone, Copy, Debug, PartialEq, Eq, Error)]
pub enum SearchFault {
    /// The most pins are held.
    #[error("no pin is free")]
    Pins,
    /// The service answers no call any more.
    #[error("worn")]
    Worn,
    #[error("out of memory")]
    NoMemory,
}

impl From<AllocError> for SearchFault {
    ghost use Rattle.std.specs.Prelude.{◌≡◌};
    ghost use Rattle.par_search.specs.declared.fault.SearchFault.TheVariants.{NoMemory};

    ghost from_gives = { λ _ e. e ≡ NoMemory };

    fn from(_: AllocError) -> SearchFault {
        SearchFault::NoMemory
    }
}

impl From<CallFault> for SearchFault {
    ghost use Rattle.std.specs.Prelude.{◌≡◌};
    ghost use Rattle.par_search.specs.Faults.{fault_of};

    ghost from_gives = { λ fault e. e ≡ fault_of fault };

    fn from(fault: CallFault) -> SearchFault {
        match fault {
            CallFault::Worn => SearchFault::Worn,
            CallFault::NoMemory => SearchFault::NoMemory,
        }
    }
}
