//! The syntax tree, whether a tree is resolved and in the core, and what it weighs.
pub use core_trees::{is_core, is_script_core};
pub use swc_ast::{
    ArrayLit, ArrowExpr, AssignExpr, AssignOp, AssignPat, AssignTarget, Atom, BinExpr, BinaryOp,
    BlockStmt, BlockStmtOrExpr, Bool, BreakStmt, CallExpr, CatchClause, Compare, ComputedPropName,
    CondExpr, ContinueStmt, DUMMY_SP, Decl, DoWhileStmt, EmptyStmt, EqIgnoreSpan, ExportDecl,
    ExportDefaultDecl, ExportDefaultExpr, ExportNamedSpecifier, Expr, ExprOrSpread, ExprStmt,
    FnDecl, FnExpr, ForStmt, Function, Id, Ident, IdentName, IfStmt, ImportDecl,
    ImportDefaultSpecifier, ImportNamedSpecifier, ImportSpecifier, ImportStarAsSpecifier, Invalid,
    KeyValueProp, LabeledStmt, Lit, Mark, MemberExpr, MemberProp, MethodProp, Module, ModuleDecl,
    ModuleItem, NamedExport, NewExpr, Null, Number, ObjectLit, PassError, Pat, Prop, PropName,
    PropOrSpread, ReturnStmt, Script, SeqExpr, Span, SpreadElement, Stmt, Str, SwitchCase,
    SwitchStmt, SyntaxContext, ThisExpr, ThrowStmt, Tpl, TplElement, TryStmt, UnaryExpr, UnaryOp,
    UpdateExpr, UpdateOp, VarDecl, VarDeclKind, VarDeclOrExpr, VarDeclarator, WhileStmt,
};
pub use swc_resolved::{is_resolved, is_script_resolved};
pub use swc_weight::{weight, weight_of_script};
