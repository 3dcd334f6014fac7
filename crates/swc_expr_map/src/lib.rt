//! Values by expressions that are compared without spans and contexts.
#![tactic(auto)]

ghost use Rattle.swc_expr_map.specs.Laws.{KeysAreOrdered, KeysAreShapes};

mod code;
mod compare;
mod entry;
mod leading;
mod map;
mod numbers;
mod search_tree;
mod texts;

pub use map::GlobalExprMap;

/// The laws of keys, which its contract states: their order is total, and agrees with equality without spans and contexts.
pub fn key_laws()
    ensures order { KeysAreOrdered }
    ensures agrees { KeysAreShapes }
{}
