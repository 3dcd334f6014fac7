//! Comparison of the nodes that hold each other.
ghost use Rattle.swc_ast.specs.Nodes.{function_tree, case_tree, loop_tree};
ghost use Rattle.swc_ast.specs.Views.{expr_tree, stmt_tree, decl_tree, arrow_body_tree, prop_tree, prop_or_spread_tree, arrow_tree, method_tree, for_tree, if_tree, switch_tree};

use crate::declarations::{Decl, Function};
use crate::expressions::{ArrowExpr, BlockStmtOrExpr, Expr, MethodProp, Prop, PropOrSpread};
use crate::same::{Compare, spans_agree};
use crate::same_callables::{same_calls, same_fn_decls, same_fn_exprs};
use crate::statements::{ForStmt, IfStmt, Stmt, SwitchCase, SwitchStmt, WhileStmt};

impl Compare for Expr {
    ghost tree = { λ e. expr_tree e };

    #[cycle(same)]
    fn is_same(&self, other: &Expr, spans: bool) -> bool {
        match self {
            Expr::This(a) => match other {
                Expr::This(b) => a.is_same(b, spans),
                _ => false,
            },
            Expr::Array(a) => match other {
                Expr::Array(b) => a.is_same(b, spans),
                _ => false,
            },
            Expr::Object(a) => match other {
                Expr::Object(b) => a.is_same(b, spans),
                _ => false,
            },
            Expr::Fn(a) => match other {
                Expr::Fn(b) => same_fn_exprs(a, b, spans),
                _ => false,
            },
            Expr::Unary(a) => match other {
                Expr::Unary(b) => a.is_same(b, spans),
                _ => false,
            },
            Expr::Update(a) => match other {
                Expr::Update(b) => a.is_same(b, spans),
                _ => false,
            },
            Expr::Bin(a) => match other {
                Expr::Bin(b) => a.is_same(b, spans),
                _ => false,
            },
            Expr::Assign(a) => match other {
                Expr::Assign(b) => a.is_same(b, spans),
                _ => false,
            },
            Expr::Member(a) => match other {
                Expr::Member(b) => a.is_same(b, spans),
                _ => false,
            },
            Expr::Cond(a) => match other {
                Expr::Cond(b) => a.is_same(b, spans),
                _ => false,
            },
            Expr::Call(a) => match other {
                Expr::Call(b) => same_calls(a, b, spans),
                _ => false,
            },
            Expr::New(a) => match other {
                Expr::New(b) => a.is_same(b, spans),
                _ => false,
            },
            Expr::Seq(a) => match other {
                Expr::Seq(b) => a.is_same(b, spans),
                _ => false,
            },
            Expr::Ident(a) => match other {
                Expr::Ident(b) => a.is_same(b, spans),
                _ => false,
            },
            Expr::Lit(a) => match other {
                Expr::Lit(b) => a.is_same(b, spans),
                _ => false,
            },
            Expr::Tpl(a) => match other {
                Expr::Tpl(b) => a.is_same(b, spans),
                _ => false,
            },
            Expr::Arrow(a) => match other {
                Expr::Arrow(b) => a.is_same(b, spans),
                _ => false,
            },
            Expr::Invalid(a) => match other {
                Expr::Invalid(b) => a.is_same(b, spans),
                _ => false,
            },
        }
    }
}

impl Compare for PropOrSpread {
    ghost tree = { λ n. prop_or_spread_tree n };

    #[cycle(same)]
    fn is_same(&self, other: &PropOrSpread, spans: bool) -> bool {
        match (self, other) {
            (PropOrSpread::Spread(a), PropOrSpread::Spread(b)) => a.is_same(b, spans),
            (PropOrSpread::Prop(a), PropOrSpread::Prop(b)) => a.is_same(b, spans),
            _ => false,
        }
    }
}

impl Compare for Prop {
    ghost tree = { λ n. prop_tree n };

    #[cycle(same)]
    fn is_same(&self, other: &Prop, spans: bool) -> bool {
        match (self, other) {
            (Prop::Shorthand(a), Prop::Shorthand(b)) => a.is_same(b, spans),
            (Prop::KeyValue(a), Prop::KeyValue(b)) => a.is_same(b, spans),
            (Prop::Method(a), Prop::Method(b)) => a.is_same(b, spans),
            _ => false,
        }
    }
}

impl Compare for MethodProp {
    ghost tree = { λ n. method_tree n };

    #[cycle(same)]
    fn is_same(&self, other: &MethodProp, spans: bool) -> bool {
        self.key.is_same(&other.key, spans) & self.function.is_same(&other.function, spans)
    }
}

impl Compare for ArrowExpr {
    ghost tree = { λ n. arrow_tree n };

    #[cycle(same)]
    fn is_same(&self, other: &ArrowExpr, spans: bool) -> bool {
        spans_agree(spans, &[self.span], &[other.span])
            & self.params.is_same(&other.params, spans)
            & self.body.is_same(&other.body, spans)
    }
}

impl Compare for BlockStmtOrExpr {
    ghost tree = { λ n. arrow_body_tree n };

    #[cycle(same)]
    fn is_same(&self, other: &BlockStmtOrExpr, spans: bool) -> bool {
        match (self, other) {
            (BlockStmtOrExpr::BlockStmt(a), BlockStmtOrExpr::BlockStmt(b)) => a.is_same(b, spans),
            (BlockStmtOrExpr::Expr(a), BlockStmtOrExpr::Expr(b)) => a.is_same(b, spans),
            _ => false,
        }
    }
}

impl Compare for Function {
    ghost tree = { λ n. function_tree n };

    #[cycle(same)]
    fn is_same(&self, other: &Function, spans: bool) -> bool {
        spans_agree(spans, &[self.span], &[other.span])
            & self.params.is_same(&other.params, spans)
            & self.body.is_same(&other.body, spans)
    }
}

impl Compare for Decl {
    ghost tree = { λ n. decl_tree n };

    #[cycle(same)]
    fn is_same(&self, other: &Decl, spans: bool) -> bool {
        match (self, other) {
            (Decl::Fn(a), Decl::Fn(b)) => same_fn_decls(a, b, spans),
            (Decl::Var(a), Decl::Var(b)) => a.is_same(b, spans),
            _ => false,
        }
    }
}

impl Compare for Stmt {
    ghost tree = { λ n. stmt_tree n };

    #[cycle(same)]
    fn is_same(&self, other: &Stmt, spans: bool) -> bool {
        match (self, other) {
            (Stmt::Block(a), Stmt::Block(b)) => a.is_same(b, spans),
            (Stmt::Empty(a), Stmt::Empty(b)) => a.is_same(b, spans),
            (Stmt::Return(a), Stmt::Return(b)) => a.is_same(b, spans),
            (Stmt::Labeled(a), Stmt::Labeled(b)) => a.is_same(b, spans),
            (Stmt::Break(a), Stmt::Break(b)) => a.is_same(b, spans),
            (Stmt::Continue(a), Stmt::Continue(b)) => a.is_same(b, spans),
            (Stmt::If(a), Stmt::If(b)) => a.is_same(b, spans),
            (Stmt::Switch(a), Stmt::Switch(b)) => a.is_same(b, spans),
            (Stmt::Throw(a), Stmt::Throw(b)) => a.is_same(b, spans),
            (Stmt::Try(a), Stmt::Try(b)) => a.is_same(b, spans),
            (Stmt::While(a), Stmt::While(b)) => a.is_same(b, spans),
            (Stmt::DoWhile(a), Stmt::DoWhile(b)) => a.is_same(b, spans),
            (Stmt::For(a), Stmt::For(b)) => a.is_same(b, spans),
            (Stmt::Decl(a), Stmt::Decl(b)) => a.is_same(b, spans),
            (Stmt::Expr(a), Stmt::Expr(b)) => a.is_same(b, spans),
            _ => false,
        }
    }
}

impl Compare for IfStmt {
    ghost tree = { λ n. if_tree n };

    #[cycle(same)]
    fn is_same(&self, other: &IfStmt, spans: bool) -> bool {
        spans_agree(spans, &[self.span], &[other.span])
            & self.test.is_same(&other.test, spans)
            & self.cons.is_same(&other.cons, spans)
            & self.alt.is_same(&other.alt, spans)
    }
}

impl Compare for SwitchStmt {
    ghost tree = { λ n. switch_tree n };

    #[cycle(same)]
    fn is_same(&self, other: &SwitchStmt, spans: bool) -> bool {
        spans_agree(spans, &[self.span], &[other.span])
            & self.discriminant.is_same(&other.discriminant, spans)
            & self.cases.is_same(&other.cases, spans)
    }
}

impl Compare for SwitchCase {
    ghost tree = { λ n. case_tree n };

    #[cycle(same)]
    fn is_same(&self, other: &SwitchCase, spans: bool) -> bool {
        spans_agree(spans, &[self.span], &[other.span])
            & self.test.is_same(&other.test, spans)
            & self.cons.is_same(&other.cons, spans)
    }
}

impl Compare for WhileStmt {
    ghost tree = { λ n. loop_tree n };

    #[cycle(same)]
    fn is_same(&self, other: &WhileStmt, spans: bool) -> bool {
        spans_agree(spans, &[self.span], &[other.span])
            & self.test.is_same(&other.test, spans)
            & self.body.is_same(&other.body, spans)
    }
}

impl Compare for ForStmt {
    ghost tree = { λ n. for_tree n };

    #[cycle(same)]
    fn is_same(&self, other: &ForStmt, spans: bool) -> bool {
        spans_agree(spans, &[self.span], &[other.span])
            & self.init.is_same(&other.init, spans)
            & self.test.is_same(&other.test, spans)
            & self.update.is_same(&other.update, spans)
            & self.body.is_same(&other.body, spans)
    }
}
