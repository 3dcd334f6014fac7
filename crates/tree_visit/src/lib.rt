//! A tree as it is read: what each node is, and its children.
#![tactic(auto)]

mod children;
mod class;
mod expressions;
mod kind;
mod lists;
mod modules;
mod node;
mod opened;
mod statements;

pub use children::Children;
pub use class::Class;
pub use expressions::open_expr;
pub use kind::Kind;
pub use lists::NodeList;
pub use modules::open_module_decl;
pub use node::Node;
pub use opened::Opened;
pub use statements::open_stmt;
