//! Why a run on a whole module fails, and what is said of it.
ghost use Rattle.std.specs.Prelude.{◌≡◌, ◌≢◌, ◌↔◌, ◌≤◌};
ghost use Rattle.shake_whole.specs.declared.stop.Stop.TheVariants.{Arguments};

use shake_run::{Fault, tell};
use std::io::Write;
use text_whole::WholeError;
use thiserror::Error;

/// Why a run fails.
#[derive(Debug, Drop, Error)]
pub(crate) enum Stop {
    /// The words behind the program's name aren't understood.
    #[error("arguments")]
    Arguments,
    /// What the work on the core text said already.
    #[error("")]
    Said,
    /// Reading or writing failed.
    #[error("{0}")]
    Stream(Fault),
    /// The text is no module, or what is kept has no place in it.
    #[error("{0}")]
    Whole(WholeError),
    /// A flag gives something for a name that is mentioned in what is kept, from this byte on.
    #[error("kept text at {at} mentions {name}")]
    Mentioned { name: String, at: u32 },
    /// Memory was refused.
    #[error("out of memory")]
    OutOfMemory,
}

impl Stop {
    /// Says it in one line on `errors`, where that isn't done, and returns the exit status: 2 for arguments, else 1. A failed write
    /// changes no status.
    pub(crate) fn tell<E: Write>(self, errors: &mut E) -> u8
        ensures status { result ≤ 2 }
        ensures failed { result ≢ 0 }
        ensures arguments { (result ≡ 2) ↔ (self ≡ Arguments) }
    {
        match self {
            Stop::Arguments => tell(Fault::Arguments, errors),
            Stop::Said => 1,
            stop => {
                let _ = writeln!(errors, "shake: {stop}");
                1
            }
        }
    }
}
