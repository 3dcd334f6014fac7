//! The keys of an object literal: whether each is there once.
#![tactic(auto)]

mod keys;

pub use keys::are_keys;
