//! The tree shaker: what declares names that nothing uses goes, and so do assignments to names that nothing reads.
#![tactic(auto)]

ghost use Rattle.swc_dce.specs.Shaken.{LawfulShaking, WalkIsShaken, WalkTells};

mod config;
mod peel;
mod rules;
mod shaker;

pub use config::Config;
pub use peel::Peeled;
pub use rules::ShakeRules;
pub use shaker::{TreeShaker, dce};

/// The laws of the tree shaker, which its contract states.
pub fn laws()
    ensures shaken { WalkIsShaken }
    ensures tells { WalkTells }
    ensures lawful { LawfulShaking }
{}
