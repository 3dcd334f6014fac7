//! What is left of expressions whose values are not used, and what expressions become beside that.
#![tactic(auto)]

mod ignored;
mod lists;
mod objects;
mod operators;
mod parts;
mod rest;
mod rules;

pub use ignored::{Left, ignore};
pub use rules::{fold_arms, fold_front, fold_itself};
