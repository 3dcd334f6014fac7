//! Propagation: what is carried from a declaration to the reads behind it, and that a module does the same.
#![tactic(auto)]
