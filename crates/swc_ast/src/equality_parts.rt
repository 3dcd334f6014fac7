//! `==` of literals and of parts that other nodes take up: they are the same, spans too.
ghost use Rattle.std.specs.Prelude.{string_bytes, [], ◌∷◌, true};
ghost use Rattle.swc_ast.specs.Tree.{StrLit, BoolLit, NullLit, NumLit, This, Invalid, Empty, Template, node, ComputedKey, ε, ◌⊳◌};
ghost use Rattle.swc_ast.specs.Parts.{leaf};
ghost use Rattle.swc_ast.specs.Expressions.{quasi_text, element_node, object_tree, unary_tree, param_tree};
ghost use Rattle.swc_ast.specs.Nodes.{key_of_member, init_node, handler_node};
ghost use Rattle.swc_ast.specs.declared.declarations.Pat.TheVariants.{Assign};
ghost use Rattle.swc_ast.specs.declared.VarDeclKind.TheVariants.{Var};
ghost use Rattle.swc_ast.specs.Statements.{declarator_tree};
ghost use Rattle.swc_ast.specs.Same.{same};
ghost use Rattle.swc_ast.specs.SameLaws.{partial-by, equivalence-by};

use crate::declarations::{AssignPat, VarDeclarator};
use crate::expressions::{
    ComputedPropName, ExprOrSpread, Invalid, MemberProp, ObjectLit, ThisExpr, TplElement, UnaryExpr,
};
use crate::literals::{Bool, Null, Number, Str};
use crate::same::Compare;
use crate::statements::{CatchClause, EmptyStmt, VarDeclOrExpr};

impl PartialEq for Str {
    ghost eq = { λ a b. same true (leaf (StrLit (string_bytes a.value)) a.span) (leaf (StrLit (string_bytes b.value)) b.span) };

    ghost laws = { partial-by (λ n. leaf (StrLit (string_bytes n.value)) n.span) };

    fn eq(&self, other: &Str) -> bool {
        self.is_same(other, true)
    }
}

impl Eq for Str {
    ghost laws = { equivalence-by (λ n. leaf (StrLit (string_bytes n.value)) n.span) };
}

impl PartialEq for Bool {
    ghost eq = { λ a b. same true (leaf (BoolLit a.value) a.span) (leaf (BoolLit b.value) b.span) };

    ghost laws = { partial-by (λ n. leaf (BoolLit n.value) n.span) };

    fn eq(&self, other: &Bool) -> bool {
        self.is_same(other, true)
    }
}

impl Eq for Bool {
    ghost laws = { equivalence-by (λ n. leaf (BoolLit n.value) n.span) };
}

impl PartialEq for Null {
    ghost eq = { λ a b. same true (leaf NullLit a.span) (leaf NullLit b.span) };

    ghost laws = { partial-by (λ n. leaf NullLit n.span) };

    fn eq(&self, other: &Null) -> bool {
        self.is_same(other, true)
    }
}

impl Eq for Null {
    ghost laws = { equivalence-by (λ n. leaf NullLit n.span) };
}

impl PartialEq for Number {
    ghost eq = { λ a b. same true (leaf (NumLit a.value) a.span) (leaf (NumLit b.value) b.span) };

    ghost laws = { partial-by (λ n. leaf (NumLit n.value) n.span) };

    fn eq(&self, other: &Number) -> bool {
        self.is_same(other, true)
    }
}

impl Eq for Number {
    ghost laws = { equivalence-by (λ n. leaf (NumLit n.value) n.span) };
}

impl PartialEq for ThisExpr {
    ghost eq = { λ a b. same true (leaf This a.span) (leaf This b.span) };

    ghost laws = { partial-by (λ n. leaf This n.span) };

    fn eq(&self, other: &ThisExpr) -> bool {
        self.is_same(other, true)
    }
}

impl Eq for ThisExpr {
    ghost laws = { equivalence-by (λ n. leaf This n.span) };
}

impl PartialEq for Invalid {
    ghost eq = { λ a b. same true (leaf Invalid a.span) (leaf Invalid b.span) };

    ghost laws = { partial-by (λ n. leaf Invalid n.span) };

    fn eq(&self, other: &Invalid) -> bool {
        self.is_same(other, true)
    }
}

impl Eq for Invalid {
    ghost laws = { equivalence-by (λ n. leaf Invalid n.span) };
}

impl PartialEq for EmptyStmt {
    ghost eq = { λ a b. same true (leaf Empty a.span) (leaf Empty b.span) };

    ghost laws = { partial-by (λ n. leaf Empty n.span) };

    fn eq(&self, other: &EmptyStmt) -> bool {
        self.is_same(other, true)
    }
}

impl Eq for EmptyStmt {
    ghost laws = { equivalence-by (λ n. leaf Empty n.span) };
}

impl PartialEq for TplElement {
    ghost eq = { λ a b. same true (leaf (Template (quasi_text a ∷ [])) a.span) (leaf (Template (quasi_text b ∷ [])) b.span) };

    ghost laws = { partial-by (λ n. leaf (Template (quasi_text n ∷ [])) n.span) };

    fn eq(&self, other: &TplElement) -> bool {
        self.is_same(other, true)
    }
}

impl Eq for TplElement {
    ghost laws = { equivalence-by (λ n. leaf (Template (quasi_text n ∷ [])) n.span) };
}

impl<E: Compare> PartialEq for ExprOrSpread<E> {
    ghost eq = { λ a b. same true (element_node a.spread (E.tree a.expr.value)) (element_node b.spread (E.tree b.expr.value)) };

    ghost laws = { partial-by (λ n. element_node n.spread (E.tree n.expr.value)) };

    fn eq(&self, other: &ExprOrSpread<E>) -> bool {
        self.is_same(other, true)
    }
}

impl<E: Compare> Eq for ExprOrSpread<E> {
    ghost laws = { equivalence-by (λ n. element_node n.spread (E.tree n.expr.value)) };
}

impl<P: Compare> PartialEq for ObjectLit<P> {
    ghost eq = { λ a b. same true (object_tree P.tree a) (object_tree P.tree b) };

    ghost laws = { partial-by (object_tree P.tree) };

    fn eq(&self, other: &ObjectLit<P>) -> bool {
        self.is_same(other, true)
    }
}

impl<P: Compare> Eq for ObjectLit<P> {
    ghost laws = { equivalence-by (object_tree P.tree) };
}

impl<E: Compare> PartialEq for ComputedPropName<E> {
    ghost eq = { λ a b. same true (node ComputedKey (a.span ∷ []) (E.tree a.expr.value ⊳ ε)) (node ComputedKey (b.span ∷ []) (E.tree b.expr.value ⊳ ε)) };

    ghost laws = { partial-by (λ n. node ComputedKey (n.span ∷ []) (E.tree n.expr.value ⊳ ε)) };

    fn eq(&self, other: &ComputedPropName<E>) -> bool {
        self.is_same(other, true)
    }
}

impl<E: Compare> Eq for ComputedPropName<E> {
    ghost laws = { equivalence-by (λ n. node ComputedKey (n.span ∷ []) (E.tree n.expr.value ⊳ ε)) };
}

impl<E: Compare> PartialEq for UnaryExpr<E> {
    ghost eq = { λ a b. same true (unary_tree E.tree a) (unary_tree E.tree b) };

    ghost laws = { partial-by (unary_tree E.tree) };

    fn eq(&self, other: &UnaryExpr<E>) -> bool {
        self.is_same(other, true)
    }
}

impl<E: Compare> Eq for UnaryExpr<E> {
    ghost laws = { equivalence-by (unary_tree E.tree) };
}

impl<E: Compare> PartialEq for MemberProp<E> {
    ghost eq = { λ a b. same true (key_of_member E.tree a) (key_of_member E.tree b) };

    ghost laws = { partial-by (key_of_member E.tree) };

    fn eq(&self, other: &MemberProp<E>) -> bool {
        self.is_same(other, true)
    }
}

impl<E: Compare> Eq for MemberProp<E> {
    ghost laws = { equivalence-by (key_of_member E.tree) };
}

impl<E: Compare> PartialEq for AssignPat<E> {
    ghost eq = { λ a b. same true (param_tree E.tree (Assign a)) (param_tree E.tree (Assign b)) };

    ghost laws = { partial-by (λ n. param_tree E.tree (Assign n)) };

    fn eq(&self, other: &AssignPat<E>) -> bool {
        self.is_same(other, true)
    }
}

impl<E: Compare> Eq for AssignPat<E> {
    ghost laws = { equivalence-by (λ n. param_tree E.tree (Assign n)) };
}

impl<E: Compare> PartialEq for VarDeclarator<E> {
    ghost eq = { λ a b. same true (declarator_tree E.tree Var a) (declarator_tree E.tree Var b) };

    ghost laws = { partial-by (declarator_tree E.tree Var) };

    fn eq(&self, other: &VarDeclarator<E>) -> bool {
        self.is_same(other, true)
    }
}

impl<E: Compare> Eq for VarDeclarator<E> {
    ghost laws = { equivalence-by (declarator_tree E.tree Var) };
}

impl<E: Compare> PartialEq for VarDeclOrExpr<E> {
    ghost eq = { λ a b. same true (init_node E.tree a) (init_node E.tree b) };

    ghost laws = { partial-by (init_node E.tree) };

    fn eq(&self, other: &VarDeclOrExpr<E>) -> bool {
        self.is_same(other, true)
    }
}

impl<E: Compare> Eq for VarDeclOrExpr<E> {
    ghost laws = { equivalence-by (init_node E.tree) };
}

impl<S: Compare> PartialEq for CatchClause<S> {
    ghost eq = { λ a b. same true (handler_node S.tree a) (handler_node S.tree b) };

    ghost laws = { partial-by (handler_node S.tree) };

    fn eq(&self, other: &CatchClause<S>) -> bool {
        self.is_same(other, true)
    }
}

impl<S: Compare> Eq for CatchClause<S> {
    ghost laws = { equivalence-by (handler_node S.tree) };
}
