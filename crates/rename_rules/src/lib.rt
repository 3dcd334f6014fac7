//! What a module is with other names.
#![tactic(auto)]
