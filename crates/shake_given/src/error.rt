//! Why what is given isn't put.
ghost use Rattle.std.specs.Prelude.{◌≡◌, Some};
ghost use Rattle.shake_given.specs.declared.error.GivenError.TheVariants.{OutOfMemory};
ghost use Rattle.shake_given.specs.Refused.{of_pass};
ghost use Rattle.shake_given.specs.Told.{error_text};

use crate::line::Line;
use std::alloc::{AllocError, AllocFailed};
use std::error::Error;
use std::fmt;
use swc_ast::PassError;
use swc_text::ReadError;

/// Why what is given isn't put. Its text is one line.
#[derive(Debug, PartialEq, Eq, Drop)]
pub enum GivenError {
    /// A key or a value isn't read as an expression.
    Unreadable { key: String, fault: ReadError },
    /// A key is read, but it is no name and no chain of members from a name on.
    NoChain { key: String },
    /// A value is read, but it binds a name or isn't in the core.
    Unfit { key: String },
    /// A value leads back to itself: the name, or the one that its chain begins with.
    Cyclic { name: String },
    /// A given module has no value of the name that is imported.
    NoExport { name: String, module: String },
    /// A given module has no `default`, which is imported.
    NoDefault { module: String },
    /// The namespace of a given module is used otherwise than to name an export.
    Namespace { name: String },
    /// A name that is imported from a given module is exported again.
    ReExported { name: String },
    /// The levels of the module and of values that stand in one another are too many.
    TooDeep,
    /// Memory was refused.
    OutOfMemory,
}

impl fmt::Display for GivenError {
    ghost output = { λ e. Some (error_text e) };

    fn fmt<W: fmt::Write>(&self, f: &mut fmt::Formatter<W>) -> fmt::Result {
        match self {
            GivenError::Unreadable { key, fault } => write!(f, "given {}: {fault}", Line(key)),
            GivenError::NoChain { key } => write!(f, "given {}: no chain", Line(key)),
            GivenError::Unfit { key } => write!(f, "given {}: unfit", Line(key)),
            GivenError::Cyclic { name } => write!(f, "cyclic {}", Line(name)),
            GivenError::NoExport { name, module } => {
                write!(f, "no export {} in {}", Line(name), Line(module))
            }
            GivenError::NoDefault { module } => write!(f, "no default in {}", Line(module)),
            GivenError::Namespace { name } => write!(f, "namespace {}", Line(name)),
            GivenError::ReExported { name } => write!(f, "re-exported {}", Line(name)),
            GivenError::TooDeep => write!(f, "too deep"),
            GivenError::OutOfMemory => write!(f, "out of memory"),
        }
    }
}

impl Error for GivenError {}

impl From<AllocError> for GivenError {
    ghost from_gives = { λ _ e. e ≡ OutOfMemory };

    fn from(_e: AllocError) -> GivenError {
        GivenError::OutOfMemory
    }
}

impl<T: Drop> From<AllocFailed<T>> for GivenError {
    ghost from_gives = { λ _ e. e ≡ OutOfMemory };

    fn from(_e: AllocFailed<T>) -> GivenError {
        GivenError::OutOfMemory
    }
}

/// The same refusal, in the words of the program. A value whose text isn't read is told by its text's key, so that no pass
/// tells it.
impl From<PassError> for GivenError {
    ghost from_gives = { λ p e. e ≡ of_pass p };

    fn from(error: PassError) -> GivenError {
        match error {
            PassError::CyclicGlobals { name } => GivenError::Cyclic { name },
            PassError::MissingExport { module, export } => GivenError::NoExport {
                name: export,
                module,
            },
            PassError::MissingDefault { module } => GivenError::NoDefault { module },
            PassError::BareNamespace { name } => GivenError::Namespace { name },
            PassError::ReExported { name } => GivenError::ReExported { name },
            PassError::UnreadableValue {
                module: _,
                export,
                at,
            } => GivenError::Unreadable {
                key: export,
                fault: ReadError::Syntax { at },
            },
            PassError::OutOfMemory => GivenError::OutOfMemory,
        }
    }
}
