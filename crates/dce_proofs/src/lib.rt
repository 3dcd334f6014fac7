//! What the tree shaker owes for its steps, and what follows for its walks.
#![tactic(auto)]

ghost use Rattle.dce_proofs.specs.Laws.{ReachedStands, ShakenIsCore, ShakenIsLighter, ShakenIsResolved, ShakenIsSame, UnchangedIsKept};

/// The laws of the tree shaker's walks, which its contract states.
pub fn laws()
    ensures same { ShakenIsSame }
    ensures resolved { ShakenIsResolved }
    ensures core { ShakenIsCore }
    ensures lighter { ShakenIsLighter }
    ensures reached { ReachedStands }
    ensures left { UnchangedIsKept }
{}
