//! Comparison of expressions over the comparison of their children.
ghost use Rattle.std.specs.Prelude.{[], ◌∷◌};
ghost use Rattle.swc_ast.specs.Tree.{node, ComputedKey, ε, ◌⊳◌};
ghost use Rattle.swc_ast.specs.Nodes.{key_of_member};
ghost use Rattle.swc_ast.specs.declared.declarations.Pat.TheVariants.{Assign};
ghost use Rattle.swc_ast.specs.Expressions.{element_node, element_tree, array_tree, object_tree, spread_tree, key_tree, key_value_tree, unary_tree, update_tree, bin_tree, assign_tree, target_tree, member_tree, cond_tree, new_tree, seq_tree, tpl_tree, param_tree};

use crate::declarations::{AssignPat, Pat};
use crate::expressions::{
    ArrayLit, AssignExpr, AssignTarget, BinExpr, ComputedPropName, CondExpr, ExprOrSpread,
    KeyValueProp, MemberExpr, MemberProp, NewExpr, ObjectLit, PropName, SeqExpr, SpreadElement,
    Tpl, UnaryExpr, UpdateExpr,
};
use crate::same::{Compare, spans_agree};

impl<E: Compare> Compare for ExprOrSpread<E> {
    ghost tree = { λ n. element_node n.spread (E.tree n.expr.value) };

    fn is_same(&self, other: &ExprOrSpread<E>, spans: bool) -> bool {
        match (self.spread, other.spread) {
            (Some(a), Some(b)) => {
                spans_agree(spans, &[a], &[b]) & self.expr.is_same(&other.expr, spans)
            }
            (None, None) => self.expr.is_same(&other.expr, spans),
            _ => false,
        }
    }
}

impl<E: Compare> Compare for Option<ExprOrSpread<E>> {
    ghost tree = { λ n. element_tree E.tree n };

    fn is_same(&self, other: &Option<ExprOrSpread<E>>, spans: bool) -> bool {
        match (self, other) {
            (Some(a), Some(b)) => a.is_same(b, spans),
            (None, None) => true,
            _ => false,
        }
    }
}

impl<E: Compare> Compare for ArrayLit<E> {
    ghost tree = { λ n. array_tree E.tree n };

    fn is_same(&self, other: &ArrayLit<E>, spans: bool) -> bool {
        spans_agree(spans, &[self.span], &[other.span]) & self.elems.is_same(&other.elems, spans)
    }
}

impl<P: Compare> Compare for ObjectLit<P> {
    ghost tree = { λ n. object_tree P.tree n };

    fn is_same(&self, other: &ObjectLit<P>, spans: bool) -> bool {
        spans_agree(spans, &[self.span], &[other.span]) & self.props.is_same(&other.props, spans)
    }
}

impl<E: Compare> Compare for SpreadElement<E> {
    ghost tree = { λ n. spread_tree E.tree n };

    fn is_same(&self, other: &SpreadElement<E>, spans: bool) -> bool {
        spans_agree(spans, &[self.dot3_token], &[other.dot3_token])
            & self.expr.is_same(&other.expr, spans)
    }
}

impl<E: Compare> Compare for ComputedPropName<E> {
    ghost tree = { λ n. node ComputedKey (n.span ∷ []) (E.tree n.expr.value ⊳ ε) };

    fn is_same(&self, other: &ComputedPropName<E>, spans: bool) -> bool {
        spans_agree(spans, &[self.span], &[other.span]) & self.expr.is_same(&other.expr, spans)
    }
}

impl<E: Compare> Compare for PropName<E> {
    ghost tree = { λ n. key_tree E.tree n };

    fn is_same(&self, other: &PropName<E>, spans: bool) -> bool {
        match (self, other) {
            (PropName::Ident(a), PropName::Ident(b)) => a.is_same(b, spans),
            (PropName::Str(a), PropName::Str(b)) => a.is_same(b, spans),
            (PropName::Num(a), PropName::Num(b)) => a.is_same(b, spans),
            (PropName::Computed(a), PropName::Computed(b)) => a.is_same(b, spans),
            _ => false,
        }
    }
}

impl<E: Compare> Compare for KeyValueProp<E> {
    ghost tree = { λ n. key_value_tree E.tree n };

    fn is_same(&self, other: &KeyValueProp<E>, spans: bool) -> bool {
        self.key.is_same(&other.key, spans) & self.value.is_same(&other.value, spans)
    }
}

impl<E: Compare> Compare for UnaryExpr<E> {
    ghost tree = { λ n. unary_tree E.tree n };

    fn is_same(&self, other: &UnaryExpr<E>, spans: bool) -> bool {
        (self.op == other.op)
            & spans_agree(spans, &[self.span], &[other.span])
            & self.arg.is_same(&other.arg, spans)
    }
}

impl<E: Compare> Compare for UpdateExpr<E> {
    ghost tree = { λ n. update_tree E.tree n };

    fn is_same(&self, other: &UpdateExpr<E>, spans: bool) -> bool {
        (self.op == other.op)
            & (self.prefix == other.prefix)
            & spans_agree(spans, &[self.span], &[other.span])
            & self.arg.is_same(&other.arg, spans)
    }
}

impl<E: Compare> Compare for BinExpr<E> {
    ghost tree = { λ n. bin_tree E.tree n };

    fn is_same(&self, other: &BinExpr<E>, spans: bool) -> bool {
        (self.op == other.op)
            & spans_agree(spans, &[self.span], &[other.span])
            & self.left.is_same(&other.left, spans)
            & self.right.is_same(&other.right, spans)
    }
}

impl<E: Compare> Compare for AssignExpr<E> {
    ghost tree = { λ n. assign_tree E.tree n };

    fn is_same(&self, other: &AssignExpr<E>, spans: bool) -> bool {
        (self.op == other.op)
            & spans_agree(spans, &[self.span], &[other.span])
            & self.left.is_same(&other.left, spans)
            & self.right.is_same(&other.right, spans)
    }
}

impl<E: Compare> Compare for AssignTarget<E> {
    ghost tree = { λ n. target_tree E.tree n };

    fn is_same(&self, other: &AssignTarget<E>, spans: bool) -> bool {
        match (self, other) {
            (AssignTarget::Ident(a), AssignTarget::Ident(b)) => a.is_same(b, spans),
            (AssignTarget::Member(a), AssignTarget::Member(b)) => a.is_same(b, spans),
            _ => false,
        }
    }
}

impl<E: Compare> Compare for MemberProp<E> {
    ghost tree = { λ n. key_of_member E.tree n };

    fn is_same(&self, other: &MemberProp<E>, spans: bool) -> bool {
        match (self, other) {
            (MemberProp::Ident(a), MemberProp::Ident(b)) => a.is_same(b, spans),
            (MemberProp::Computed(a), MemberProp::Computed(b)) => a.is_same(b, spans),
            _ => false,
        }
    }
}

impl<E: Compare> Compare for MemberExpr<E> {
    ghost tree = { λ n. member_tree E.tree n };

    fn is_same(&self, other: &MemberExpr<E>, spans: bool) -> bool {
        spans_agree(spans, &[self.span], &[other.span])
            & self.obj.is_same(&other.obj, spans)
            & self.prop.is_same(&other.prop, spans)
    }
}

impl<E: Compare> Compare for CondExpr<E> {
    ghost tree = { λ n. cond_tree E.tree n };

    fn is_same(&self, other: &CondExpr<E>, spans: bool) -> bool {
        spans_agree(spans, &[self.span], &[other.span])
            & self.test.is_same(&other.test, spans)
            & self.cons.is_same(&other.cons, spans)
            & self.alt.is_same(&other.alt, spans)
    }
}

impl<E: Compare> Compare for NewExpr<E> {
    ghost tree = { λ n. new_tree E.tree n };

    fn is_same(&self, other: &NewExpr<E>, spans: bool) -> bool {
        spans_agree(spans, &[self.span], &[other.span])
            & self.callee.is_same(&other.callee, spans)
            & self.args.is_same(&other.args, spans)
    }
}

impl<E: Compare> Compare for SeqExpr<E> {
    ghost tree = { λ n. seq_tree E.tree n };

    fn is_same(&self, other: &SeqExpr<E>, spans: bool) -> bool {
        spans_agree(spans, &[self.span], &[other.span]) & self.exprs.is_same(&other.exprs, spans)
    }
}

impl<E: Compare> Compare for Tpl<E> {
    ghost tree = { λ n. tpl_tree E.tree n };

    fn is_same(&self, other: &Tpl<E>, spans: bool) -> bool {
        spans_agree(spans, &[self.span], &[other.span])
            & self.quasis.is_same(&other.quasis, spans)
            & self.exprs.is_same(&other.exprs, spans)
    }
}

impl<E: Compare> Compare for AssignPat<E> {
    ghost tree = { λ n. param_tree E.tree (Assign n) };

    fn is_same(&self, other: &AssignPat<E>, spans: bool) -> bool {
        (self.left.sym == other.left.sym)
            & (self.left.ctxt == other.left.ctxt)
            & spans_agree(
                spans,
                &[self.span, self.left.span],
                &[other.span, other.left.span],
            )
            & self.right.is_same(&other.right, spans)
    }
}

impl<E: Compare> Compare for Pat<E> {
    ghost tree = { λ n. param_tree E.tree n };

    fn is_same(&self, other: &Pat<E>, spans: bool) -> bool {
        match (self, other) {
            (Pat::Ident(a), Pat::Ident(b)) => a.is_same(b, spans),
            (Pat::Assign(a), Pat::Assign(b)) => a.is_same(b, spans),
            _ => false,
        }
    }
}
