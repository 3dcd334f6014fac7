//! The rules of the expression simplifier, as one relation on trees: what may stand where a node stands.
#![tactic(auto)]
