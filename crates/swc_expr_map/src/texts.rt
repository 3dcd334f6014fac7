//! The texts of nodes, one after another.
ghost use Rattle.std.specs.Prelude.{◌≡◌};
ghost use Rattle.swc_expr_map.specs.Order.{row_cmp};
ghost use Rattle.swc_expr_map.specs.Rows.{row_of, next_row};

use crate::numbers::{case_number, item_number};
use std::cmp::Ordering;
use swc_ast::{ExprOrSpread, SwitchCase, TplElement};

/// Texts that stand in a node, each with a number.
#[derive(Clone, Copy)]
pub(crate) enum Texts<'a> {
    None,
    One(&'a str),
    Two(&'a str, &'a str),
    /// Texts of a template: the number says whether one is the tail.
    Quasis(&'a [TplElement]),
    /// Items of an array, without texts.
    Items(&'a [Option<ExprOrSpread>]),
    /// Cases of a `switch`, without texts: the number says whether one is `default`.
    Cases(&'a [SwitchCase]),
}

impl<'a> Texts<'a> {
    /// The first text and those behind it, if any is left.
    fn next(self) -> Option<(u8, &'a str, Texts<'a>)>
        ensures { row_of self.entry ≡ next_row result }
    {
        match self {
            Texts::None => None,
            Texts::One(s) => Some((0, s, Texts::None)),
            Texts::Two(s, t) => Some((0, s, Texts::One(t))),
            Texts::Quasis([n, rest @ ..]) => Some((
                u8::from(n.tail),
                &n.cooked,
                Texts::Quasis(rest),
            )),
            Texts::Quasis([]) => None,
            Texts::Items([n, rest @ ..]) => Some((item_number(n), "", Texts::Items(rest))),
            Texts::Items([]) => None,
            Texts::Cases([n, rest @ ..]) => Some((case_number(n), "", Texts::Cases(rest))),
            Texts::Cases([]) => None,
        }
    }

    /// The order of two rows of texts: the first that differs decides, and else there are fewer.
    pub(crate) fn compare(self, other: Texts<'_>) -> Ordering
        ensures { result ≡ row_cmp (row_of self.entry) (row_of other.entry) }
    {
        let mut left = self;
        let mut right = other;
        while let Some((n, s, rest)) = left.next() {
            let Some((m, t, others)) = right.next() else {
                return Ordering::Greater;
            };
            let order = n.cmp(&m).then(s.cmp(t));
            if order.is_ne() {
                return order;
            }
            left = rest;
            right = others;
        }
        match right.next() {
            Some(_) => Ordering::Less,
            None => Ordering::Equal,
        }
    }
}
