//! Items of a list by the numbers of names: in which round of the tree shaker each goes, where nothing but items goes.
#![tactic(auto)]

mod access;
mod item;
mod layers;
mod plan;
mod rest;

pub use access::Access;
pub use item::Item;
pub use layers::{Layering, layers_of};
pub use rest::what_stays;
