//! What follows of every walk from the steps of its pass: the module does what it did, stays resolved and in the core, gets
//! lighter where it changes, and holds no redex where it doesn't.
#![tactic(auto)]

ghost use Rattle.walk_proofs.specs.Laws.{RightIsSame, DyingIsSame, ResolvedIsKept, CoreIsKept, ChangedIsLighter, UnchangedIsFree, UnchangedIsSame};

use tree_walk::Rules;

/// The laws of walks, which its contract states of any pass.
pub fn laws<R: Rules>(_rules: &R)
    ensures same { RightIsSame (R.pass _rules.now) }
    ensures dying { DyingIsSame (R.pass _rules.now) }
    ensures resolved { ResolvedIsKept (R.pass _rules.now) }
    ensures core { CoreIsKept (R.pass _rules.now) }
    ensures lighter { ChangedIsLighter (R.pass _rules.now) }
    ensures free { UnchangedIsFree (R.pass _rules.now) }
    ensures unchanged { UnchangedIsSame (R.pass _rules.now) }
{}
