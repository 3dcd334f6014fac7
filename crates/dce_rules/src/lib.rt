//! The rules of the tree shaker: which names of a module are used, what is free to go, and what a walk may do to a tree.
#![tactic(auto)]
