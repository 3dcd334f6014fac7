//! Static facts of rewrites: what each step of a pass owes so that a module stays valid, resolved and in the core, gets
//! lighter, and is left without redexes.
#![tactic(auto)]

ghost use Rattle.static_proofs.specs.Laws.{KeptIsResolved, KeptIsCore, WeighedIsSame, FreeOfBoth, ModulesAreShaped, ScriptsAreShaped};

/// The laws of what rewrites keep and of what views are, which its contract states.
pub fn laws()
    ensures resolved { KeptIsResolved }
    ensures core { KeptIsCore }
    ensures exactly { WeighedIsSame }
    ensures free { FreeOfBoth }
    ensures modules { ModulesAreShaped }
    ensures scripts { ScriptsAreShaped }
{}
