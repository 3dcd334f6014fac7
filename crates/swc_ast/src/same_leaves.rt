//! Comparison of names, literals and other nodes without children.
ghost use Rattle.std.specs.Prelude.{[], ◌∷◌, string_bytes};
ghost use Rattle.swc_ast.specs.Tree.{This, Invalid, Empty, StrLit, BoolLit, NullLit, NumLit, Template};
ghost use Rattle.swc_ast.specs.Parts.{leaf, ident_tree, word_tree, lit_tree};
ghost use Rattle.swc_ast.specs.Expressions.{quasi_text};
ghost use Rattle.swc_ast.specs.Statements.{break_tree, continue_tree};

use crate::expressions::{Invalid, ThisExpr, TplElement};
use crate::literals::{Bool, Lit, Null, Number, Str};
use crate::names::{Ident, IdentName};
use crate::same::{Compare, spans_agree};
use crate::statements::{BreakStmt, ContinueStmt, EmptyStmt};

impl Compare for Ident {
    ghost tree = { λ n. ident_tree n };

    fn is_same(&self, other: &Ident, spans: bool) -> bool {
        (self.sym == other.sym)
            & (self.ctxt == other.ctxt)
            & spans_agree(spans, &[self.span], &[other.span])
    }
}

impl Compare for IdentName {
    ghost tree = { λ n. word_tree n };

    fn is_same(&self, other: &IdentName, spans: bool) -> bool {
        (self.sym == other.sym) & spans_agree(spans, &[self.span], &[other.span])
    }
}

impl Compare for Str {
    ghost tree = { λ n. leaf (StrLit (string_bytes n.value)) n.span };

    fn is_same(&self, other: &Str, spans: bool) -> bool {
        (self.value == other.value) & spans_agree(spans, &[self.span], &[other.span])
    }
}

impl Compare for Bool {
    ghost tree = { λ n. leaf (BoolLit n.value) n.span };

    fn is_same(&self, other: &Bool, spans: bool) -> bool {
        (self.value == other.value) & spans_agree(spans, &[self.span], &[other.span])
    }
}

impl Compare for Null {
    ghost tree = { λ n. leaf NullLit n.span };

    fn is_same(&self, other: &Null, spans: bool) -> bool {
        spans_agree(spans, &[self.span], &[other.span])
    }
}

impl Compare for Number {
    ghost tree = { λ n. leaf (NumLit n.value) n.span };

    fn is_same(&self, other: &Number, spans: bool) -> bool {
        self.value.eq(&other.value) & spans_agree(spans, &[self.span], &[other.span])
    }
}

impl Compare for Lit {
    ghost tree = { λ n. lit_tree n };

    fn is_same(&self, other: &Lit, spans: bool) -> bool {
        match (self, other) {
            (Lit::Str(a), Lit::Str(b)) => a.is_same(b, spans),
            (Lit::Bool(a), Lit::Bool(b)) => a.is_same(b, spans),
            (Lit::Null(a), Lit::Null(b)) => a.is_same(b, spans),
            (Lit::Num(a), Lit::Num(b)) => a.is_same(b, spans),
            _ => false,
        }
    }
}

impl Compare for ThisExpr {
    ghost tree = { λ n. leaf This n.span };

    fn is_same(&self, other: &ThisExpr, spans: bool) -> bool {
        spans_agree(spans, &[self.span], &[other.span])
    }
}

impl Compare for Invalid {
    ghost tree = { λ n. leaf Invalid n.span };

    fn is_same(&self, other: &Invalid, spans: bool) -> bool {
        spans_agree(spans, &[self.span], &[other.span])
    }
}

impl Compare for EmptyStmt {
    ghost tree = { λ n. leaf Empty n.span };

    fn is_same(&self, other: &EmptyStmt, spans: bool) -> bool {
        spans_agree(spans, &[self.span], &[other.span])
    }
}

impl Compare for TplElement {
    ghost tree = { λ n. leaf (Template (quasi_text n ∷ [])) n.span };

    fn is_same(&self, other: &TplElement, spans: bool) -> bool {
        (self.cooked == other.cooked)
            & (self.tail == other.tail)
            & spans_agree(spans, &[self.span], &[other.span])
    }
}

impl Compare for BreakStmt {
    ghost tree = { λ n. break_tree n };

    fn is_same(&self, other: &BreakStmt, spans: bool) -> bool {
        match (&self.label, &other.label) {
            (Some(a), Some(b)) => {
                (a.sym == b.sym) & spans_agree(spans, &[self.span, a.span], &[other.span, b.span])
            }
            (None, None) => spans_agree(spans, &[self.span], &[other.span]),
            _ => false,
        }
    }
}

impl Compare for ContinueStmt {
    ghost tree = { λ n. continue_tree n };

    fn is_same(&self, other: &ContinueStmt, spans: bool) -> bool {
        match (&self.label, &other.label) {
            (Some(a), Some(b)) => {
                (a.sym == b.sym) & spans_agree(spans, &[self.span, a.span], &[other.span, b.span])
            }
            (None, None) => spans_agree(spans, &[self.span], &[other.span]),
            _ => false,
        }
    }
}
