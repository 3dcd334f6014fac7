//! Propagation keeps what a module does: by facts of names that resolved modules of the core have, and with nothing else asked
//! of a module than that it is a view.
#![tactic(auto)]

ghost use Rattle.carry_proofs.specs.Propagation.{PropagatedIsAnswer, PropagationIsLawful};
ghost use Rattle.carry_proofs.specs.Laws.{LiteralsArePut, ModulesAreWhole, PropagationIsCore, PropagationIsResolved, PropagationIsSame, PropagationIsValid, ScriptsAreWhole, VoidIsPut};

/// The laws of propagation, which its contract states.
pub fn laws()
    ensures same { PropagationIsSame }
    ensures resolved { PropagationIsResolved }
    ensures valid { PropagationIsValid }
    ensures core { PropagationIsCore }
    ensures lawful { PropagationIsLawful }
    ensures modules { ModulesAreWhole }
    ensures scripts { ScriptsAreWhole }
    ensures literals { LiteralsArePut }
    ensures voids { VoidIsPut }
    ensures answers { PropagatedIsAnswer }
{}
