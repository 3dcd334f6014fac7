//! Rewritten modules do the same: the relation between a module and what a pass makes of it, and its theorem.
#![tactic(auto)]

ghost use Rattle.meaning_proofs.specs.Laws.{RewrittenIsSame, RewrittenIsSameIn, SameGoesOn, SpansDoNotMatter};

/// The laws of rewritten modules, which its contract states.
pub fn sameness()
    ensures rewritten { RewrittenIsSame }
    ensures rewritten_in { RewrittenIsSameIn }
    ensures spans { SpansDoNotMatter }
    ensures goes_on { SameGoesOn }
{}
