//! What names of imports of given modules stand for, and why a module with such imports is refused.
#![tactic(auto)]

mod faults;
mod given;
mod imports;
mod resolve;
mod table;
mod unload;

pub use given::GivenModules;
pub use resolve::resolve_locals;
pub use table::Locals;
pub use unload::unloaded;
