//! Why a module can't be enclosed, or its text not be put back.
ghost use Rattle.std.specs.Prelude.{◌≡◌};
ghost use Rattle.text_whole.specs.declared.error.WholeError.TheVariants.{OutOfMemory};

use std::alloc::{AllocError, AllocFailed};
use std::fmt;
use text_outline::Fault;

/// Why a module has no core text, or a printed text is no module.
#[derive(Clone, Copy, Debug, PartialEq, Eq)]
pub enum WholeError {
    /// Its text is no module (ECMA-262, 16.2), or is nested too deep.
    Outline(Fault),
    /// A text has 2^31 bytes or more.
    TooLong,
    /// What begins at this byte of the text can't be shown by a call: it mentions `arguments` or `eval`, or declares a name that
    /// the code round it can use, and jumps.
    NoStandIn { at: u32 },
    /// The printed text has no place for what begins at this byte of the module's text.
    Lost { at: u32 },
    OutOfMemory,
}

impl fmt::Display for WholeError {
    fn fmt<W: fmt::Write>(&self, f: &mut fmt::Formatter<W>) -> fmt::Result {
        match self {
            WholeError::Outline(Fault::Syntax { at }) => write!(f, "syntax at {at}"),
            WholeError::Outline(Fault::OutOfCore { at, what }) => {
                write!(f, "out of core at {at}: {what}")
            }
            WholeError::Outline(Fault::NumberRange { at }) => write!(f, "number range at {at}"),
            WholeError::Outline(Fault::TooDeep) => write!(f, "too deep"),
            WholeError::Outline(Fault::OutOfMemory) | WholeError::OutOfMemory => {
                write!(f, "out of memory")
            }
            WholeError::TooLong => write!(f, "too long"),
            WholeError::NoStandIn { at } => write!(f, "kept text at {at} can't be enclosed"),
            WholeError::Lost { at } => write!(f, "kept text at {at} has no place"),
        }
    }
}

impl std::error::Error for WholeError {}

impl From<AllocError> for WholeError {
    ghost from_gives = { λ _ e. e ≡ OutOfMemory };

    fn from(_error: AllocError) -> WholeError {
        WholeError::OutOfMemory
    }
}

impl<T: Drop> From<AllocFailed<T>> for WholeError {
    ghost from_gives = { λ _ e. e ≡ OutOfMemory };

    fn from(_error: AllocFailed<T>) -> WholeError {
        WholeError::OutOfMemory
    }
}

impl From<Fault> for WholeError {
    fn from(fault: Fault) -> WholeError {
        match fault {
            Fault::OutOfMemory => WholeError::OutOfMemory,
            _ => WholeError::Outline(fault),
        }
    }
}
