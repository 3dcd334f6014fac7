//! The parser of core text. So that a level of the text takes little of the stack, what builds a node stands in functions of its
//! own, named `.._of`, and what was read of nodes and lists that have not ended is kept by the parser. So that results fit in
//! registers, the parser also notes why it refuses the text, and how many levels that has which was read last.
#![tactic(auto)]

mod contexts;
mod control;
mod cursor;
mod exports;
mod expression;
mod function;
mod kept;
mod lookahead;
mod loops;
mod members;
mod module;
mod names;
mod object;
mod operators;
mod parse;
mod primary;
mod scopes;
mod statement;
mod targets;

pub use parse::{parse_expr, parse_module, parse_script, parse_spanless_expr};
pub use text_lexer::{Construct, Fault};
