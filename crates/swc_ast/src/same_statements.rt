//! Comparison of statements and declarations over the comparison of their children.
ghost use Rattle.swc_ast.specs.Nodes.{init_node, option_init_node, handler_node, option_handler_node};
ghost use Rattle.swc_ast.specs.declared.VarDeclKind.TheVariants.{Var};
ghost use Rattle.swc_ast.specs.Statements.{declarator_tree, var_tree, block_tree, option_block_tree, return_tree, throw_tree, expr_stmt_tree, labeled_tree, try_tree};

use crate::declarations::{VarDecl, VarDeclarator};
use crate::same::{Compare, spans_agree};
use crate::statements::{
    BlockStmt, CatchClause, ExprStmt, LabeledStmt, ReturnStmt, ThrowStmt, TryStmt, VarDeclOrExpr,
};

impl<S: Compare> Compare for BlockStmt<S> {
    ghost tree = { λ n. block_tree S.tree n };

    fn is_same(&self, other: &BlockStmt<S>, spans: bool) -> bool {
        spans_agree(spans, &[self.span], &[other.span]) & self.stmts.is_same(&other.stmts, spans)
    }
}

impl<E: Compare> Compare for ReturnStmt<E> {
    ghost tree = { λ n. return_tree E.tree n };

    fn is_same(&self, other: &ReturnStmt<E>, spans: bool) -> bool {
        spans_agree(spans, &[self.span], &[other.span]) & self.arg.is_same(&other.arg, spans)
    }
}

impl<E: Compare> Compare for ThrowStmt<E> {
    ghost tree = { λ n. throw_tree E.tree n };

    fn is_same(&self, other: &ThrowStmt<E>, spans: bool) -> bool {
        spans_agree(spans, &[self.span], &[other.span]) & self.arg.is_same(&other.arg, spans)
    }
}

impl<E: Compare> Compare for ExprStmt<E> {
    ghost tree = { λ n. expr_stmt_tree E.tree n };

    fn is_same(&self, other: &ExprStmt<E>, spans: bool) -> bool {
        spans_agree(spans, &[self.span], &[other.span]) & self.expr.is_same(&other.expr, spans)
    }
}

impl<S: Compare> Compare for LabeledStmt<S> {
    ghost tree = { λ n. labeled_tree S.tree n };

    fn is_same(&self, other: &LabeledStmt<S>, spans: bool) -> bool {
        (self.label.sym == other.label.sym)
            & spans_agree(
                spans,
                &[self.span, self.label.span],
                &[other.span, other.label.span],
            )
            & self.body.is_same(&other.body, spans)
    }
}

impl<E: Compare> Compare for VarDeclarator<E> {
    ghost tree = { λ n. declarator_tree E.tree Var n };

    fn is_same(&self, other: &VarDeclarator<E>, spans: bool) -> bool {
        (self.name.sym == other.name.sym)
            & (self.name.ctxt == other.name.ctxt)
            & spans_agree(
                spans,
                &[self.span, self.name.span],
                &[other.span, other.name.span],
            )
            & self.init.is_same(&other.init, spans)
    }
}

impl<E: Compare> Compare for VarDecl<E> {
    ghost tree = { λ n. var_tree E.tree n };

    fn is_same(&self, other: &VarDecl<E>, spans: bool) -> bool {
        (self.kind == other.kind)
            & spans_agree(spans, &[self.span], &[other.span])
            & self.decls.is_same(&other.decls, spans)
    }
}

impl<E: Compare> Compare for VarDeclOrExpr<E> {
    ghost tree = { λ n. init_node E.tree n };

    fn is_same(&self, other: &VarDeclOrExpr<E>, spans: bool) -> bool {
        match (self, other) {
            (VarDeclOrExpr::VarDecl(a), VarDeclOrExpr::VarDecl(b)) => a.is_same(b, spans),
            (VarDeclOrExpr::Expr(a), VarDeclOrExpr::Expr(b)) => a.is_same(b, spans),
            _ => false,
        }
    }
}

impl<E: Compare> Compare for Option<VarDeclOrExpr<E>> {
    ghost tree = { λ n. option_init_node E.tree n };

    fn is_same(&self, other: &Option<VarDeclOrExpr<E>>, spans: bool) -> bool {
        match (self, other) {
            (Some(a), Some(b)) => a.is_same(b, spans),
            (None, None) => true,
            _ => false,
        }
    }
}

impl<S: Compare> Compare for CatchClause<S> {
    ghost tree = { λ n. handler_node S.tree n };

    fn is_same(&self, other: &CatchClause<S>, spans: bool) -> bool {
        match (&self.param, &other.param) {
            (Some(a), Some(b)) => {
                (a.sym == b.sym)
                    & (a.ctxt == b.ctxt)
                    & spans_agree(spans, &[self.span, a.span], &[other.span, b.span])
                    & self.body.is_same(&other.body, spans)
            }
            (None, None) => spans_agree(spans, &[self.span], &[other.span])
                & self.body.is_same(&other.body, spans),
            _ => false,
        }
    }
}

impl<S: Compare> Compare for Option<CatchClause<S>> {
    ghost tree = { λ n. option_handler_node S.tree n };

    fn is_same(&self, other: &Option<CatchClause<S>>, spans: bool) -> bool {
        match (self, other) {
            (Some(a), Some(b)) => a.is_same(b, spans),
            (None, None) => true,
            _ => false,
        }
    }
}

impl<S: Compare> Compare for Option<BlockStmt<S>> {
    ghost tree = { λ n. option_block_tree S.tree n };

    fn is_same(&self, other: &Option<BlockStmt<S>>, spans: bool) -> bool {
        match (self, other) {
            (Some(a), Some(b)) => a.is_same(b, spans),
            (None, None) => true,
            _ => false,
        }
    }
}

impl<S: Compare> Compare for TryStmt<S> {
    ghost tree = { λ n. try_tree S.tree n };

    fn is_same(&self, other: &TryStmt<S>, spans: bool) -> bool {
        spans_agree(spans, &[self.span], &[other.span])
            & self.block.is_same(&other.block, spans)
            & self.handler.is_same(&other.handler, spans)
            & self.finalizer.is_same(&other.finalizer, spans)
    }
}
