//! `==` of nodes: they are the same, spans too.
ghost use Rattle.std.specs.Prelude.{true};
ghost use Rattle.swc_ast.specs.Parts.{ident_tree, word_tree, lit_tree};
ghost use Rattle.swc_ast.specs.Expressions.{array_tree, spread_tree, key_tree, key_value_tree, update_tree, bin_tree, assign_tree, target_tree, member_tree, cond_tree, new_tree, seq_tree, tpl_tree, param_tree};
ghost use Rattle.swc_ast.specs.Statements.{return_tree, throw_tree, expr_stmt_tree, var_tree, block_tree, labeled_tree, try_tree, break_tree, continue_tree};
ghost use Rattle.swc_ast.specs.Same.{same};
ghost use Rattle.swc_ast.specs.SameLaws.{partial-by, equivalence-by};

use crate::declarations::{Pat, VarDecl};
use crate::expressions::{
    ArrayLit, AssignExpr, AssignTarget, BinExpr, CondExpr, KeyValueProp, MemberExpr, NewExpr,
    PropName, SeqExpr, SpreadElement, Tpl, UpdateExpr,
};
use crate::literals::Lit;
use crate::names::{Ident, IdentName};
use crate::same::Compare;
use crate::statements::{
    BlockStmt, BreakStmt, ContinueStmt, ExprStmt, LabeledStmt, ReturnStmt, ThrowStmt, TryStmt,
};

impl PartialEq for Ident {
    ghost eq = { λ a b. same true (ident_tree a) (ident_tree b) };

    ghost laws = { partial-by ident_tree };

    fn eq(&self, other: &Ident) -> bool {
        self.is_same(other, true)
    }
}

impl Eq for Ident {
    ghost laws = { equivalence-by ident_tree };
}

impl PartialEq for IdentName {
    ghost eq = { λ a b. same true (word_tree a) (word_tree b) };

    ghost laws = { partial-by word_tree };

    fn eq(&self, other: &IdentName) -> bool {
        self.is_same(other, true)
    }
}

impl Eq for IdentName {
    ghost laws = { equivalence-by word_tree };
}

impl PartialEq for Lit {
    ghost eq = { λ a b. same true (lit_tree a) (lit_tree b) };

    ghost laws = { partial-by lit_tree };

    fn eq(&self, other: &Lit) -> bool {
        self.is_same(other, true)
    }
}

impl Eq for Lit {
    ghost laws = { equivalence-by lit_tree };
}

impl PartialEq for BreakStmt {
    ghost eq = { λ a b. same true (break_tree a) (break_tree b) };

    ghost laws = { partial-by break_tree };

    fn eq(&self, other: &BreakStmt) -> bool {
        self.is_same(other, true)
    }
}

impl Eq for BreakStmt {
    ghost laws = { equivalence-by break_tree };
}

impl PartialEq for ContinueStmt {
    ghost eq = { λ a b. same true (continue_tree a) (continue_tree b) };

    ghost laws = { partial-by continue_tree };

    fn eq(&self, other: &ContinueStmt) -> bool {
        self.is_same(other, true)
    }
}

impl Eq for ContinueStmt {
    ghost laws = { equivalence-by continue_tree };
}

impl<E: Compare> PartialEq for ArrayLit<E> {
    ghost eq = { λ a b. same true (array_tree E.tree a) (array_tree E.tree b) };

    ghost laws = { partial-by (array_tree E.tree) };

    fn eq(&self, other: &ArrayLit<E>) -> bool {
        self.is_same(other, true)
    }
}

impl<E: Compare> Eq for ArrayLit<E> {
    ghost laws = { equivalence-by (array_tree E.tree) };
}

impl<E: Compare> PartialEq for SpreadElement<E> {
    ghost eq = { λ a b. same true (spread_tree E.tree a) (spread_tree E.tree b) };

    ghost laws = { partial-by (spread_tree E.tree) };

    fn eq(&self, other: &SpreadElement<E>) -> bool {
        self.is_same(other, true)
    }
}

impl<E: Compare> Eq for SpreadElement<E> {
    ghost laws = { equivalence-by (spread_tree E.tree) };
}

impl<E: Compare> PartialEq for PropName<E> {
    ghost eq = { λ a b. same true (key_tree E.tree a) (key_tree E.tree b) };

    ghost laws = { partial-by (key_tree E.tree) };

    fn eq(&self, other: &PropName<E>) -> bool {
        self.is_same(other, true)
    }
}

impl<E: Compare> Eq for PropName<E> {
    ghost laws = { equivalence-by (key_tree E.tree) };
}

impl<E: Compare> PartialEq for KeyValueProp<E> {
    ghost eq = { λ a b. same true (key_value_tree E.tree a) (key_value_tree E.tree b) };

    ghost laws = { partial-by (key_value_tree E.tree) };

    fn eq(&self, other: &KeyValueProp<E>) -> bool {
        self.is_same(other, true)
    }
}

impl<E: Compare> Eq for KeyValueProp<E> {
    ghost laws = { equivalence-by (key_value_tree E.tree) };
}

impl<E: Compare> PartialEq for UpdateExpr<E> {
    ghost eq = { λ a b. same true (update_tree E.tree a) (update_tree E.tree b) };

    ghost laws = { partial-by (update_tree E.tree) };

    fn eq(&self, other: &UpdateExpr<E>) -> bool {
        self.is_same(other, true)
    }
}

impl<E: Compare> Eq for UpdateExpr<E> {
    ghost laws = { equivalence-by (update_tree E.tree) };
}

impl<E: Compare> PartialEq for BinExpr<E> {
    ghost eq = { λ a b. same true (bin_tree E.tree a) (bin_tree E.tree b) };

    ghost laws = { partial-by (bin_tree E.tree) };

    fn eq(&self, other: &BinExpr<E>) -> bool {
        self.is_same(other, true)
    }
}

impl<E: Compare> Eq for BinExpr<E> {
    ghost laws = { equivalence-by (bin_tree E.tree) };
}

impl<E: Compare> PartialEq for AssignExpr<E> {
    ghost eq = { λ a b. same true (assign_tree E.tree a) (assign_tree E.tree b) };

    ghost laws = { partial-by (assign_tree E.tree) };

    fn eq(&self, other: &AssignExpr<E>) -> bool {
        self.is_same(other, true)
    }
}

impl<E: Compare> Eq for AssignExpr<E> {
    ghost laws = { equivalence-by (assign_tree E.tree) };
}

impl<E: Compare> PartialEq for AssignTarget<E> {
    ghost eq = { λ a b. same true (target_tree E.tree a) (target_tree E.tree b) };

    ghost laws = { partial-by (target_tree E.tree) };

    fn eq(&self, other: &AssignTarget<E>) -> bool {
        self.is_same(other, true)
    }
}

impl<E: Compare> Eq for AssignTarget<E> {
    ghost laws = { equivalence-by (target_tree E.tree) };
}

impl<E: Compare> PartialEq for MemberExpr<E> {
    ghost eq = { λ a b. same true (member_tree E.tree a) (member_tree E.tree b) };

    ghost laws = { partial-by (member_tree E.tree) };

    fn eq(&self, other: &MemberExpr<E>) -> bool {
        self.is_same(other, true)
    }
}

impl<E: Compare> Eq for MemberExpr<E> {
    ghost laws = { equivalence-by (member_tree E.tree) };
}

impl<E: Compare> PartialEq for CondExpr<E> {
    ghost eq = { λ a b. same true (cond_tree E.tree a) (cond_tree E.tree b) };

    ghost laws = { partial-by (cond_tree E.tree) };

    fn eq(&self, other: &CondExpr<E>) -> bool {
        self.is_same(other, true)
    }
}

impl<E: Compare> Eq for CondExpr<E> {
    ghost laws = { equivalence-by (cond_tree E.tree) };
}

impl<E: Compare> PartialEq for NewExpr<E> {
    ghost eq = { λ a b. same true (new_tree E.tree a) (new_tree E.tree b) };

    ghost laws = { partial-by (new_tree E.tree) };

    fn eq(&self, other: &NewExpr<E>) -> bool {
        self.is_same(other, true)
    }
}

impl<E: Compare> Eq for NewExpr<E> {
    ghost laws = { equivalence-by (new_tree E.tree) };
}

impl<E: Compare> PartialEq for SeqExpr<E> {
    ghost eq = { λ a b. same true (seq_tree E.tree a) (seq_tree E.tree b) };

    ghost laws = { partial-by (seq_tree E.tree) };

    fn eq(&self, other: &SeqExpr<E>) -> bool {
        self.is_same(other, true)
    }
}

impl<E: Compare> Eq for SeqExpr<E> {
    ghost laws = { equivalence-by (seq_tree E.tree) };
}

impl<E: Compare> PartialEq for Tpl<E> {
    ghost eq = { λ a b. same true (tpl_tree E.tree a) (tpl_tree E.tree b) };

    ghost laws = { partial-by (tpl_tree E.tree) };

    fn eq(&self, other: &Tpl<E>) -> bool {
        self.is_same(other, true)
    }
}

impl<E: Compare> Eq for Tpl<E> {
    ghost laws = { equivalence-by (tpl_tree E.tree) };
}

impl<E: Compare> PartialEq for Pat<E> {
    ghost eq = { λ a b. same true (param_tree E.tree a) (param_tree E.tree b) };

    ghost laws = { partial-by (param_tree E.tree) };

    fn eq(&self, other: &Pat<E>) -> bool {
        self.is_same(other, true)
    }
}

impl<E: Compare> Eq for Pat<E> {
    ghost laws = { equivalence-by (param_tree E.tree) };
}

impl<E: Compare> PartialEq for ReturnStmt<E> {
    ghost eq = { λ a b. same true (return_tree E.tree a) (return_tree E.tree b) };

    ghost laws = { partial-by (return_tree E.tree) };

    fn eq(&self, other: &ReturnStmt<E>) -> bool {
        self.is_same(other, true)
    }
}

impl<E: Compare> Eq for ReturnStmt<E> {
    ghost laws = { equivalence-by (return_tree E.tree) };
}

impl<E: Compare> PartialEq for ThrowStmt<E> {
    ghost eq = { λ a b. same true (throw_tree E.tree a) (throw_tree E.tree b) };

    ghost laws = { partial-by (throw_tree E.tree) };

    fn eq(&self, other: &ThrowStmt<E>) -> bool {
        self.is_same(other, true)
    }
}

impl<E: Compare> Eq for ThrowStmt<E> {
    ghost laws = { equivalence-by (throw_tree E.tree) };
}

impl<E: Compare> PartialEq for ExprStmt<E> {
    ghost eq = { λ a b. same true (expr_stmt_tree E.tree a) (expr_stmt_tree E.tree b) };

    ghost laws = { partial-by (expr_stmt_tree E.tree) };

    fn eq(&self, other: &ExprStmt<E>) -> bool {
        self.is_same(other, true)
    }
}

impl<E: Compare> Eq for ExprStmt<E> {
    ghost laws = { equivalence-by (expr_stmt_tree E.tree) };
}

impl<E: Compare> PartialEq for VarDecl<E> {
    ghost eq = { λ a b. same true (var_tree E.tree a) (var_tree E.tree b) };

    ghost laws = { partial-by (var_tree E.tree) };

    fn eq(&self, other: &VarDecl<E>) -> bool {
        self.is_same(other, true)
    }
}

impl<E: Compare> Eq for VarDecl<E> {
    ghost laws = { equivalence-by (var_tree E.tree) };
}

impl<S: Compare> PartialEq for BlockStmt<S> {
    ghost eq = { λ a b. same true (block_tree S.tree a) (block_tree S.tree b) };

    ghost laws = { partial-by (block_tree S.tree) };

    fn eq(&self, other: &BlockStmt<S>) -> bool {
        self.is_same(other, true)
    }
}

impl<S: Compare> Eq for BlockStmt<S> {
    ghost laws = { equivalence-by (block_tree S.tree) };
}

impl<S: Compare> PartialEq for LabeledStmt<S> {
    ghost eq = { λ a b. same true (labeled_tree S.tree a) (labeled_tree S.tree b) };

    ghost laws = { partial-by (labeled_tree S.tree) };

    fn eq(&self, other: &LabeledStmt<S>) -> bool {
        self.is_same(other, true)
    }
}

impl<S: Compare> Eq for LabeledStmt<S> {
    ghost laws = { equivalence-by (labeled_tree S.tree) };
}

impl<S: Compare> PartialEq for TryStmt<S> {
    ghost eq = { λ a b. same true (try_tree S.tree a) (try_tree S.tree b) };

    ghost laws = { partial-by (try_tree S.tree) };

    fn eq(&self, other: &TryStmt<S>) -> bool {
        self.is_same(other, true)
    }
}

impl<S: Compare> Eq for TryStmt<S> {
    ghost laws = { equivalence-by (try_tree S.tree) };
}
