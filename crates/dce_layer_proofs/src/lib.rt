//! Rounds of the tree shaker in which nothing but functions and variables of one list goes, a module's own or that of a wrapper in
//! it: items, each given the round in which it goes, that are what so many rounds leave one by one.
#![tactic(auto)]

ghost use Rattle.dce_layer_proofs.specs.Walked.{LayersGo};

/// The law of layers, which its contract states.
pub fn laws()
    ensures go { LayersGo }
{}
