//! Names inlined: what they stand for put in their places.
#![tactic(auto)]

ghost use Rattle.std.specs.Prelude.{◌≡◌, false};

mod config;
mod pass;

pub use config::{Config, ScopeKind};
pub use pass::Inlining;
use swc_pass::Repeated;

/// Returns the pass that inlines names. It is for programs with any mark.
pub fn inlining(_config: Config) -> Inlining
    ensures { ⟦<Inlining as Repeated>⟧.is_changed result ≡ false }
{
    Inlining::new()
}
