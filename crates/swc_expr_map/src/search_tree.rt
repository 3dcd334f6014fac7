//! Entries in the order of their keys, as a search tree that is balanced by weight.
ghost use Rattle.std.specs.Prelude.{◌≡◌, ◌+◌, ◌^◌, ◌<◌, [], ◌∷◌, ◌++◌, length, slice_get, option_map, None, OnOk, OnErr, IfOk, IfSome};
ghost use Rattle.swc_ast.specs.Views.{expr_tree};
ghost use Rattle.swc_expr_map.specs.Entries.{found, number_of, put, IsSorted};

use crate::compare::compare;
use crate::entry::Entry;
use std::alloc::{AllocError, Global};
use std::cmp::Ordering;
use std::marker::Model;
use std::mem;
use swc_ast::Expr;

/// Entries in order.
#[cycle(search_tree)]
#[derive(Drop)]
pub(crate) struct SearchTree {
    branch: Option<Box<Branch>>,
}

/// An entry with those in front of it and those behind it.
#[cycle(search_tree)]
#[derive(Drop)]
struct Branch {
    left: SearchTree,
    entry: Entry,
    right: SearchTree,
    /// How many entries these are.
    count: usize,
}

impl Model for SearchTree {
    ghost use Rattle.std.specs.Coded.{codes};
    ghost use Rattle.swc_ast.specs.contracts.expressions.Expr as e;
    ghost use Rattle.std.specs.Prelude.{◌≡◌, List, ◌∷◌, ◌++◌, length};
    ghost use Rattle.swc_expr_map.specs.declared.entry.Entry.{Entry};
    ghost use Rattle.swc_expr_map.specs.Branches.{entries, IfBranch};

    ghost Value = { List Entry };

    ghost coded = { Prim.hlevel (codes, e.the_row.coded) };

    ghost view = { λ t. entries (λ b. b.left ++ b.entry ∷ b.right) t.branch };

    ghost invariant = { λ t. IfBranch (λ b. b.count ≡ length (b.left ++ b.entry ∷ b.right)) t.branch };

    ghost size = { length };

    ghost use Rattle.std.proofs.Common.{arith, length-append};

    ghost size_decreases = { λ t h. Prim.grind (arith, length-append) };
}

/// A side has at most so many times the entries of the other one, and one more.
const MOST_HEAVIER: usize = 3;

impl SearchTree {
    /// A tree without entries.
    pub(crate) fn new() -> SearchTree
        ensures { result ≡ [] }
    {
        SearchTree { branch: None }
    }

    /// How many entries there are.
    pub(crate) fn len(&self) -> usize
        ensures { result ≡ length self.now }
    {
        match &self.branch {
            None => 0,
            Some(branch) => branch.count,
        }
    }

    /// The value at a key.
    pub(crate) fn get(&self, key: &Expr) -> Option<&Expr>
        requires { IsSorted self.now }
        ensures { option_map (λ e. expr_tree e.now) result ≡ found (expr_tree key.now) self.now }
    {
        match &self.branch {
            None => None,
            Some(branch) => match compare(key, &branch.entry.key) {
                Ordering::Less => branch.left.get(key),
                Ordering::Equal => Some(&branch.entry.value),
                Ordering::Greater => branch.right.get(key),
            },
        }
    }

    /// The number of a key: how many entries are in front of it.
    pub(crate) fn number(&self, key: &Expr) -> Option<usize>
        requires { IsSorted self.now }
        ensures { result ≡ number_of (expr_tree key.now) self.now }
    {
        match &self.branch {
            None => None,
            Some(branch) => match compare(key, &branch.entry.key) {
                Ordering::Less => branch.left.number(key),
                Ordering::Equal => Some(branch.left.len()),
                Ordering::Greater => match branch.right.number(key) {
                    None => None,
                    Some(number) => Some(self.len() - branch.right.len() + number),
                },
            },
        }
    }

    /// The entry of a number.
    pub(crate) fn entry(&self, number: usize) -> Option<&Entry>
        ensures { option_map (λ e. e.now) result ≡ slice_get self.now number }
    {
        match &self.branch {
            None => None,
            Some(branch) => {
                let before = branch.left.len();
                if number < before {
                    branch.left.entry(number)
                } else if number == before {
                    Some(&branch.entry)
                } else {
                    branch.right.entry(number - before - 1)
                }
            }
        }
    }

    /// Puts a value at a key, over the one that is there. Fails where memory is refused, and then changes nothing.
    pub(crate) fn insert(&mut self, alloc: Global, key: Expr, value: Expr) -> Result<(), AllocError>
        requires sorted { IsSorted self.old }
        requires fits { length self.old < 2 ^ 60 }
        ensures put { OnOk result (self.new ≡ put (record { key = key; value = value }) self.old) }
        ensures unchanged { OnErr result (self.new ≡ self.old) }
    {
        let Some((mut left, mut top, mut right)) = mem::replace(self, SearchTree::new()).open()
        else {
            self.branch = Some(Branch::alone(alloc, key, value)?);
            return Ok(());
        };
        let answer = match compare(&key, &top.entry.key) {
            Ordering::Less => left.insert(alloc, key, value),
            Ordering::Equal => {
                top.entry.value = value;
                Ok(())
            }
            Ordering::Greater => right.insert(alloc, key, value),
        };
        *self = balanced(left, top, right);
        answer
    }

    /// What is in front of an entry in the midst, the branch of this entry without its sides, and what is behind.
    fn open(self) -> Option<(SearchTree, Box<Branch>, SearchTree)>
        ensures some { IfSome result (λ p. self ≡ p.0 ++ p.1.value.entry ∷ p.2) }
        ensures none { result ≡ None → self ≡ [] }
    {
        match self.branch {
            None => None,
            Some(mut branch) => {
                let left = mem::replace(&mut branch.left, SearchTree::new());
                let right = mem::replace(&mut branch.right, SearchTree::new());
                Some((left, branch, right))
            }
        }
    }
}

impl Branch {
    /// A branch without sides. Fails where memory is refused.
    fn alone(alloc: Global, key: Expr, value: Expr) -> Result<Box<Branch>, AllocError>
        ensures { IfOk result (λ b. b.value ≡ record { left = []; entry = record { key = key; value = value }; right = []; count = 1 }) }
    {
        Ok(Box::new(
            alloc,
            Branch {
                left: SearchTree::new(),
                entry: Entry { key, value },
                right: SearchTree::new(),
                count: 1,
            },
        )?)
    }
}

/// A tree of two sides and the entry between them.
fn join(left: SearchTree, mut top: Box<Branch>, right: SearchTree) -> SearchTree
    requires { length left + length right < 2 ^ 62 }
    ensures { result ≡ left ++ top.value.entry ∷ right }
{
    top.count = left.len() + 1 + right.len();
    top.left = left;
    top.right = right;
    SearchTree { branch: Some(top) }
}

/// The same, where a side may be heavier than it should.
fn balanced(left: SearchTree, top: Box<Branch>, right: SearchTree) -> SearchTree
    requires { length left + length right < 2 ^ 62 }
    ensures { result ≡ left ++ top.value.entry ∷ right }
{
    if right.len() > MOST_HEAVIER * left.len() + 1 {
        turned_left(left, top, right)
    } else if left.len() > MOST_HEAVIER * right.len() + 1 {
        turned_right(left, top, right)
    } else {
        join(left, top, right)
    }
}

/// The same, where the right side is too heavy.
fn turned_left(left: SearchTree, top: Box<Branch>, right: SearchTree) -> SearchTree
    requires { length left + length right < 2 ^ 62 }
    ensures { result ≡ left ++ top.value.entry ∷ right }
{
    let Some((inner, next, outer)) = right.open() else {
        return join(left, top, SearchTree::new());
    };
    if inner.len() < 2 * outer.len() {
        return join(join(left, top, inner), next, outer);
    }
    let Some((front, middle, back)) = inner.open() else {
        return join(join(left, top, SearchTree::new()), next, outer);
    };
    join(join(left, top, front), middle, join(back, next, outer))
}

/// The same, where the left side is too heavy.
fn turned_right(left: SearchTree, top: Box<Branch>, right: SearchTree) -> SearchTree
    requires { length left + length right < 2 ^ 62 }
    ensures { result ≡ left ++ top.value.entry ∷ right }
{
    let Some((outer, next, inner)) = left.open() else {
        return join(SearchTree::new(), top, right);
    };
    if inner.len() < 2 * outer.len() {
        return join(outer, next, join(inner, top, right));
    }
    let Some((front, middle, back)) = inner.open() else {
        return join(outer, next, join(SearchTree::new(), top, right));
    };
    join(join(outer, next, front), middle, join(back, top, right))
}
