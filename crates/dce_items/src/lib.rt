//! The items of a list by the numbers of names, a module's own or that of the body of a wrapper in it, and how many rounds of the
//! tree shaker in which nothing but functions and variables of the list goes are known beforehand.
#![tactic(auto)]

mod access;
mod describe;
mod gather;
mod inside;
mod kinds;
mod known;
mod nodes;
mod notes;
mod parts;
mod remaining;
mod rounds;
mod wrapper;

pub use inside::{Inside, rounds_inside};
pub use rounds::rounds_of;
