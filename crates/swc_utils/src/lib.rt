//! What is known of expressions without running them.
#![tactic(auto)]

mod answers;
mod context;
mod effects;
mod ext;
mod globals;
mod literals;
mod number_text;
mod operators;
mod purity;
mod texts;
mod types;
mod values;

pub use answers::{Purity, Value, ValueType};
pub use context::ExprCtx;
pub use effects::{has_spread, has_spread_prop, preserve_effects};
pub use ext::ExprExt;
pub use literals::is_literal;
pub use types::is_numeric;
