//! `==` of the nodes that hold each other: they are the same, spans too.
ghost use Rattle.swc_ast.specs.Views.{expr_tree, function_trees, prop_or_spread_tree, prop_tree, method_tree, arrow_tree, arrow_body_tree, decl_tree, stmt_tree, if_tree, switch_tree, for_tree};
ghost use Rattle.swc_ast.specs.Expressions.{call_tree, fn_expr_tree};
ghost use Rattle.swc_ast.specs.Nodes.{function_tree, case_tree, loop_tree};
ghost use Rattle.swc_ast.specs.Statements.{fn_decl_tree};
ghost use Rattle.std.specs.Prelude.{true};
ghost use Rattle.swc_ast.specs.Same.{same};
ghost use Rattle.swc_ast.specs.SameLaws.{partial-by, equivalence-by};

use crate::declarations::{Decl, FnDecl, Function};
use crate::expressions::{
    ArrowExpr, BlockStmtOrExpr, CallExpr, Expr, FnExpr, MethodProp, Prop, PropOrSpread,
};
use crate::same::Compare;
use crate::statements::{ForStmt, IfStmt, Stmt, SwitchCase, SwitchStmt, WhileStmt};

impl PartialEq for Expr {
    ghost eq = { λ a b. same true (expr_tree a) (expr_tree b) };

    ghost laws = { partial-by expr_tree };

    fn eq(&self, other: &Expr) -> bool {
        self.is_same(other, true)
    }
}

impl Eq for Expr {
    ghost laws = { equivalence-by expr_tree };
}

impl PartialEq for CallExpr {
    ghost eq = { λ a b. same true (call_tree expr_tree a) (call_tree expr_tree b) };

    ghost laws = { partial-by (call_tree expr_tree) };

    fn eq(&self, other: &CallExpr) -> bool {
        self.is_same(other, true)
    }
}

impl Eq for CallExpr {
    ghost laws = { equivalence-by (call_tree expr_tree) };
}

impl PartialEq for FnExpr {
    ghost eq = { λ a b. same true (fn_expr_tree function_trees a) (fn_expr_tree function_trees b) };

    ghost laws = { partial-by (fn_expr_tree function_trees) };

    fn eq(&self, other: &FnExpr) -> bool {
        self.is_same(other, true)
    }
}

impl Eq for FnExpr {
    ghost laws = { equivalence-by (fn_expr_tree function_trees) };
}

impl PartialEq for PropOrSpread {
    ghost eq = { λ a b. same true (prop_or_spread_tree a) (prop_or_spread_tree b) };

    ghost laws = { partial-by prop_or_spread_tree };

    fn eq(&self, other: &PropOrSpread) -> bool {
        self.is_same(other, true)
    }
}

impl Eq for PropOrSpread {
    ghost laws = { equivalence-by prop_or_spread_tree };
}

impl PartialEq for Prop {
    ghost eq = { λ a b. same true (prop_tree a) (prop_tree b) };

    ghost laws = { partial-by prop_tree };

    fn eq(&self, other: &Prop) -> bool {
        self.is_same(other, true)
    }
}

impl Eq for Prop {
    ghost laws = { equivalence-by prop_tree };
}

impl PartialEq for MethodProp {
    ghost eq = { λ a b. same true (method_tree a) (method_tree b) };

    ghost laws = { partial-by method_tree };

    fn eq(&self, other: &MethodProp) -> bool {
        self.is_same(other, true)
    }
}

impl Eq for MethodProp {
    ghost laws = { equivalence-by method_tree };
}

impl PartialEq for ArrowExpr {
    ghost eq = { λ a b. same true (arrow_tree a) (arrow_tree b) };

    ghost laws = { partial-by arrow_tree };

    fn eq(&self, other: &ArrowExpr) -> bool {
        self.is_same(other, true)
    }
}

impl Eq for ArrowExpr {
    ghost laws = { equivalence-by arrow_tree };
}

impl PartialEq for BlockStmtOrExpr {
    ghost eq = { λ a b. same true (arrow_body_tree a) (arrow_body_tree b) };

    ghost laws = { partial-by arrow_body_tree };

    fn eq(&self, other: &BlockStmtOrExpr) -> bool {
        self.is_same(other, true)
    }
}

impl Eq for BlockStmtOrExpr {
    ghost laws = { equivalence-by arrow_body_tree };
}

impl PartialEq for Function {
    ghost eq = { λ a b. same true (function_tree a) (function_tree b) };

    ghost laws = { partial-by function_tree };

    fn eq(&self, other: &Function) -> bool {
        self.is_same(other, true)
    }
}

impl Eq for Function {
    ghost laws = { equivalence-by function_tree };
}

impl PartialEq for Decl {
    ghost eq = { λ a b. same true (decl_tree a) (decl_tree b) };

    ghost laws = { partial-by decl_tree };

    fn eq(&self, other: &Decl) -> bool {
        self.is_same(other, true)
    }
}

impl Eq for Decl {
    ghost laws = { equivalence-by decl_tree };
}

impl PartialEq for FnDecl {
    ghost eq = { λ a b. same true (fn_decl_tree function_trees a) (fn_decl_tree function_trees b) };

    ghost laws = { partial-by (fn_decl_tree function_trees) };

    fn eq(&self, other: &FnDecl) -> bool {
        self.is_same(other, true)
    }
}

impl Eq for FnDecl {
    ghost laws = { equivalence-by (fn_decl_tree function_trees) };
}

impl PartialEq for Stmt {
    ghost eq = { λ a b. same true (stmt_tree a) (stmt_tree b) };

    ghost laws = { partial-by stmt_tree };

    fn eq(&self, other: &Stmt) -> bool {
        self.is_same(other, true)
    }
}

impl Eq for Stmt {
    ghost laws = { equivalence-by stmt_tree };
}

impl PartialEq for IfStmt {
    ghost eq = { λ a b. same true (if_tree a) (if_tree b) };

    ghost laws = { partial-by if_tree };

    fn eq(&self, other: &IfStmt) -> bool {
        self.is_same(other, true)
    }
}

impl Eq for IfStmt {
    ghost laws = { equivalence-by if_tree };
}

impl PartialEq for SwitchStmt {
    ghost eq = { λ a b. same true (switch_tree a) (switch_tree b) };

    ghost laws = { partial-by switch_tree };

    fn eq(&self, other: &SwitchStmt) -> bool {
        self.is_same(other, true)
    }
}

impl Eq for SwitchStmt {
    ghost laws = { equivalence-by switch_tree };
}

impl PartialEq for SwitchCase {
    ghost eq = { λ a b. same true (case_tree a) (case_tree b) };

    ghost laws = { partial-by case_tree };

    fn eq(&self, other: &SwitchCase) -> bool {
        self.is_same(other, true)
    }
}

impl Eq for SwitchCase {
    ghost laws = { equivalence-by case_tree };
}

impl PartialEq for WhileStmt {
    ghost eq = { λ a b. same true (loop_tree a) (loop_tree b) };

    ghost laws = { partial-by loop_tree };

    fn eq(&self, other: &WhileStmt) -> bool {
        self.is_same(other, true)
    }
}

impl Eq for WhileStmt {
    ghost laws = { equivalence-by loop_tree };
}

impl PartialEq for ForStmt {
    ghost eq = { λ a b. same true (for_tree a) (for_tree b) };

    ghost laws = { partial-by for_tree };

    fn eq(&self, other: &ForStmt) -> bool {
        self.is_same(other, true)
    }
}

impl Eq for ForStmt {
    ghost laws = { equivalence-by for_tree };
}
