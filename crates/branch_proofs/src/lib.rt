//! What each rule of the dead-branch remover owes: it means the same, is lighter, and keeps what is static.
#![tactic(auto)]

ghost use Rattle.branch_proofs.specs.Laws.{FinishedIsFree, FinishedIsSettled, NoVarGoes, RemovesAreRight, RemovesDie, StepsOwe, TidiedIsExact, ValidIsFree};

/// The laws of the rules, which its contract states.
pub fn laws()
    ensures right { RemovesAreRight }
    ensures owe { StepsOwe }
    ensures free { FinishedIsFree }
    ensures settled { FinishedIsSettled }
    ensures valid_free { ValidIsFree }
    ensures lists { TidiedIsExact }
    ensures vars { NoVarGoes }
    ensures dying { RemovesDie }
{}
