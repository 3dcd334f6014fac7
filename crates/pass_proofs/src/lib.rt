//! What the laws of the passes have in common: refinement of runs, known values, what is left of a tree, and defaults.
#![tactic(auto)]

ghost use Rattle.pass_proofs.specs.Laws.{DefaultsOwe, TreesAreExpressions, VoidsAreUndefined};

/// The laws of expressions and defaults, which its contract states.
pub fn laws()
    ensures trees { TreesAreExpressions }
    ensures defaults { VoidsAreUndefined }
    ensures defaults_owe { DefaultsOwe }
{}
