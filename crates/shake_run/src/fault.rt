//! Why a run fails, and what is said of it.
ghost use Rattle.std.specs.Prelude.{◌≡◌};
ghost use Rattle.shake_run.specs.Status.{status_of};

use shake_given::GivenError;
use swc_ast::PassError;
use swc_text::{PrintError, ReadError};
use thiserror::Error;

/// Why a run fails. Its text stands behind `shake: ` on standard error.
#[derive(Debug, Drop, Error)]
pub enum Fault {
    /// The words behind the program's name aren't understood.
    #[error("arguments")]
    Arguments,
    /// A read failed, or what was read isn't UTF-8.
    #[error("input")]
    Input,
    /// The text isn't read as a module.
    #[error("{0}")]
    Read(ReadError),
    /// A flag isn't read, or what it gives isn't put.
    #[error("{0}")]
    Given(GivenError),
    /// The pass refused.
    #[error("{0}")]
    Pass(PassError),
    /// The answer isn't printed.
    #[error("{0}")]
    Print(PrintError),
    /// A write to standard output failed.
    #[error("output")]
    Output,
    /// Memory was refused.
    #[error("out of memory")]
    OutOfMemory,
}

impl Fault {
    /// The exit status of a run that fails so: 2 for arguments, else 1.
    pub fn status(&self) -> u8
        ensures { result ≡ status_of self.now }
    {
        match self {
            Fault::Arguments => 2,
            _ => 1,
        }
    }
}
