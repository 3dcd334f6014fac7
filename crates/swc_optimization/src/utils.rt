//! Answers on expressions, statements and items alike, and the names of trees.
pub use stmt_like::StmtLike;
pub use swc_names::{Names, collect_decls, extract_var_ids, find_pat_ids};
pub use swc_utils::{ExprCtx, ExprExt, Purity, Value, ValueType, is_literal, preserve_effects};
