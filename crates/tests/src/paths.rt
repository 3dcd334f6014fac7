//! Each public type and function has its path in `swc_optimization`: the compiler finds it there.

// Expressions.
pub use swc_optimization::ast::{
    ArrayLit, ArrowExpr, AssignExpr, AssignOp, AssignTarget, BinExpr, BinaryOp, BlockStmtOrExpr,
    Bool, CallExpr, ComputedPropName, CondExpr, Expr, ExprOrSpread, FnExpr, Invalid, KeyValueProp,
    Lit, MemberExpr, MemberProp, MethodProp, NewExpr, Null, Number, ObjectLit, Prop, PropName,
    PropOrSpread, SeqExpr, SpreadElement, Str, ThisExpr, Tpl, TplElement, UnaryExpr, UnaryOp,
    UpdateExpr, UpdateOp, VarDeclOrExpr,
};

// Statements.
pub use swc_optimization::ast::{
    AssignPat, BlockStmt, BreakStmt, CatchClause, ContinueStmt, Decl, DoWhileStmt, EmptyStmt,
    ExprStmt, FnDecl, ForStmt, Function, IfStmt, LabeledStmt, Pat, ReturnStmt, Stmt, SwitchCase,
    SwitchStmt, ThrowStmt, TryStmt, VarDecl, VarDeclKind, VarDeclarator, WhileStmt,
};

// Modules and names.
pub use swc_optimization::ast::{
    ExportDecl, ExportDefaultDecl, ExportDefaultExpr, ExportNamedSpecifier, Id, Ident, IdentName,
    ImportDecl, ImportDefaultSpecifier, ImportNamedSpecifier, ImportSpecifier,
    ImportStarAsSpecifier, Mark, Module, ModuleDecl, ModuleItem, NamedExport, PassError, Script,
    Span, SyntaxContext,
};

// Passes, and what they are told.
pub use swc_optimization::simplify::const_propagation::ConstPropagation;
pub use swc_optimization::simplify::dce::Config as DceConfig;
pub use swc_optimization::simplify::inlining::{Config as InliningConfig, Inlining};
pub use swc_optimization::simplify::{
    Config, ExprSimplifierConfig, Remover, ScopeKind, Simplifier, SimplifyExpr, TreeShaker,
};
pub use swc_optimization::{ConstModules, GlobalExprMap, InlineGlobals, JsonParse};

// Answers on expressions, names and texts.
pub use swc_optimization::text::{Construct, PrintError, ReadError};
pub use swc_optimization::utils::{ExprCtx, Names, Purity, Value, ValueType};

// Makers of passes.
pub use swc_optimization::simplify::const_propagation::constant_propagation;
pub use swc_optimization::simplify::dce::dce;
pub use swc_optimization::simplify::inlining::inlining;
pub use swc_optimization::simplify::{dead_branch_remover, expr_simplifier, simplifier};
pub use swc_optimization::{const_modules, inline_globals, inline_globals2, json_parse};

// Passes made of passes, and what passes have in common.
pub use swc_optimization::pass::{Chain, CompilerPass, Pass, Repeat, Repeated};

// Questions about trees and names, and texts.
pub use swc_optimization::ast::{
    EqIgnoreSpan, is_core, is_resolved, is_script_core, is_script_resolved, weight,
};
pub use swc_optimization::debug::{is_script_valid, is_valid};
pub use swc_optimization::text::{print, print_script, read_expr, read_module, read_script};
pub use swc_optimization::utils::{
    collect_decls, extract_var_ids, find_pat_ids, is_literal, preserve_effects,
};
