//! What is given for names and members.
ghost use Rattle.std.specs.Prelude.{◌≡◌, ◌<◌, IfOk, map, length, Some, option_map, slice_get};
ghost use Rattle.std.specs.BTreeMap.{IsOrdered, keys};
ghost use Rattle.std.specs.List.Sorted.{IsStrictlySortedBy-prop};
ghost use Rattle.std.specs.Cmp.Lexicographic.{slice_cmp};
ghost use Rattle.std.specs.Ordering.{nat_cmp};
ghost use Rattle.std.specs.String.{string_cmp};
ghost use Rattle.swc_ast.specs.Expressions.{member_tree};
ghost use Rattle.swc_ast.specs.Meaning.{is_unresolved as name_is_unresolved};
ghost use Rattle.swc_ast.specs.Parts.{ident_name, ident_tree, lit_tree};
ghost use Rattle.swc_ast.specs.Views.{expr_tree};
ghost use Rattle.swc_pass.specs.Inlined.{by_value, by_plain, by_expression, by_name, by_part, is_env as tree_is_env, leads_outside as tree_leads_outside};
ghost use Rattle.given_shield.specs.Names.{mark_of};
ghost use Rattle.given_globals.specs.Globals.{expressions, row_name, rows_of, global_number, told_name, given_of, answers_of};
ghost use Rattle.given_globals.specs.Rows.{texts, found_of, key_of_tree, written_key};

use crate::found::Found;
use crate::names::{push_expressions, push_globals};
use crate::settings::Settings;
use given_shield::is_unresolved;
use std::alloc::{AllocError, Global};
use std::cmp::Ordering;
use swc_ast::{Expr, Ident, Lit, MemberExpr, MemberProp};

/// What is given, ready to be looked up.
#[derive(Drop)]
pub struct Lookup<'a> {
    pub settings: Settings<'a>,
    names: Vec<&'a str>,
    first_global: usize,
    ghost listed: { texts names.items ≡ map row_name (rows_of settings) },
    ghost first: { first_global ≡ length (expressions settings) },
    ghost ordered: { IsOrdered string_cmp settings.globals.now } by { IsStrictlySortedBy-prop string_cmp (keys settings.globals.now) },
}

impl<'a> Lookup<'a> {
    /// Lists the names. Fails where memory is refused.
    pub fn new(alloc: Global, settings: Settings<'a>) -> Result<Lookup<'a>, AllocError>
        ensures { IfOk result (λ r. r.settings ≡ settings.entry) }
    {
        let mut names = Vec::new(alloc);
        if let Some(exprs) = settings.global_exprs {
            push_expressions(&mut names, exprs)?;
        }
        let first_global = names.len();
        push_globals(&mut names, settings.globals)?;
        Ok(Lookup {
            settings,
            names,
            first_global,
        })
    }

    /// How many values there are: their numbers are those below.
    pub fn len(&self) -> usize
        ensures { result ≡ length (answers_of self.now.settings).values }
    {
        self.names.len()
    }

    /// The value of a number, if one has it.
    pub fn value(&self, number: usize) -> Option<&'a Expr>
        ensures { option_map (λ e. expr_tree e.now) result ≡ slice_get (answers_of self.now.settings).values number }
    {
        if number < self.first_global {
            match self.settings.global_exprs {
                Some(exprs) => exprs.value(number),
                None => None,
            }
        } else if number < self.names.len() {
            self.settings.globals.get(self.names[number])
        } else {
            None
        }
    }

    /// The name that is told of the value of a number.
    pub fn name(&self, number: usize) -> &'a str
        requires { number < length (answers_of self.now.settings).values }
        ensures { told_name self.now.settings number ≡ Some result.now }
    {
        self.names[number]
    }

    /// What is given for an expression that is read.
    #[tactic(auto, using(swc_ast::proofs::Equations::forms))]
    pub fn found(&self, e: &Expr) -> Found<'a>
        ensures { found_of result ≡ (answers_of self.now.settings).found (expr_tree e.now) }
    {
        match e {
            Expr::Ident(n) => self.read(e, n),
            Expr::Member(n) => self.member(e, n),
            _ => Found::Nothing,
        }
    }

    /// What `typeof` gives of a name.
    pub fn type_text(&self, name: &Ident) -> Option<&'a str>
        ensures { option_map (λ s. s.now) result ≡ (answers_of self.now.settings).text (ident_name name.now) }
    {
        if !self.is_unresolved(name) {
            return None;
        }
        match self.settings.typeofs.get(name.sym.as_str()) {
            Some(text) => Some(text.as_str()),
            None => None,
        }
    }

    /// A name: the chain as a whole comes first.
    fn read(&self, e: &Expr, name: &Ident) -> Found<'a>
        requires { expr_tree e.now ≡ ident_tree name.now }
        ensures { found_of result ≡ (answers_of self.now.settings).found (expr_tree e.now) }
    {
        if let Some(number) = self.expression(e) {
            return Found::Value(number);
        }
        match self.global(name) {
            Some(number) => Found::Value(number),
            None => Found::Nothing,
        }
    }

    /// A member: the chain as a whole comes first.
    fn member(&self, e: &Expr, n: &MemberExpr) -> Found<'a>
        requires { expr_tree e.now ≡ member_tree expr_tree n.now }
        ensures { found_of result ≡ (answers_of self.now.settings).found (expr_tree e.now) }
    {
        if let Some(number) = self.expression(e) {
            return Found::Value(number);
        }
        match self.env(n) {
            Some(value) => Found::Plain(value),
            None => Found::Nothing,
        }
    }

    /// The number of a chain of members that begins with a name which no scope binds.
    fn expression(&self, e: &Expr) -> Option<usize>
        ensures { by_value result ≡ by_expression (given_of self.now.settings) (mark_of self.now.settings.mark) (expr_tree e.now) }
    {
        let Some(exprs) = self.settings.global_exprs else {
            return None;
        };
        match exprs.number(e) {
            Some(number) => {
                if self.leads_outside(e) {
                    Some(number)
                } else {
                    None
                }
            }
            None => None,
        }
    }

    /// Whether no scope binds the name that a chain of members begins with.
    #[tactic(auto, using(swc_ast::proofs::Equations::forms, crate::proofs::Founds::leads_member))]
    fn leads_outside(&self, e: &Expr) -> bool
        ensures { result ≡ tree_leads_outside (mark_of self.now.settings.mark) (expr_tree e.now) }
    {
        match e {
            Expr::Ident(n) => self.is_unresolved(n),
            Expr::Member(n) => self.leads_outside(&n.obj),
            _ => false,
        }
    }

    /// Whether no scope binds a name.
    fn is_unresolved(&self, name: &Ident) -> bool
        ensures { result ≡ name_is_unresolved (mark_of self.now.settings.mark) (ident_name name.now) }
    {
        is_unresolved(self.settings.mark, name)
    }

    /// The number of a name which no scope binds.
    fn global(&self, name: &Ident) -> Option<usize>
        ensures { by_value result ≡ by_name (given_of self.now.settings) (mark_of self.now.settings.mark) (ident_name name.now) }
    {
        if self.is_unresolved(name) {
            self.global_number(&name.sym)
        } else {
            None
        }
    }

    /// The number of the value of a name.
    fn global_number(&self, name: &str) -> Option<usize>
        ensures { result ≡ global_number self.now.settings name.now }
    {
        let found = self.names[self.first_global..].binary_search_by(
            |other: &&str| -> Ordering
                ensures { result ≡ slice_cmp nat_cmp other.now.now name.entry.now }
            { (*other).cmp(name) },
        );
        match found {
            Ok(place) => Some(self.first_global + place),
            Err(_) => None,
        }
    }

    /// What is given for a member of `process.env`.
    fn env(&self, n: &MemberExpr) -> Option<&'a Expr>
        ensures { by_plain (option_map (λ e. expr_tree e.now) result) ≡ by_part (given_of self.now.settings) (mark_of self.now.settings.mark) (member_tree expr_tree n.now) }
    {
        let Some(key) = key_text(&n.prop) else {
            return None;
        };
        if self.is_env(&n.obj) {
            self.settings.envs.get(key)
        } else {
            None
        }
    }

    /// Whether an object is `process.env`, and nothing is given for it or in it.
    #[tactic(auto, using(swc_ast::proofs::Equations::forms))]
    fn is_env(&self, e: &Expr) -> bool
        ensures { result ≡ tree_is_env (given_of self.now.settings) (mark_of self.now.settings.mark) (expr_tree e.now) }
    {
        match e {
            Expr::Member(n) => self.is_env_member(e, n),
            _ => false,
        }
    }

    /// The same of a member.
    fn is_env_member(&self, e: &Expr, n: &MemberExpr) -> bool
        requires { expr_tree e.now ≡ member_tree expr_tree n.now }
        ensures { result ≡ tree_is_env (given_of self.now.settings) (mark_of self.now.settings.mark) (expr_tree e.now) }
    {
        match &n.prop {
            MemberProp::Ident(key) => match &*n.obj {
                Expr::Ident(object) => {
                    self.is_unresolved(object)
                        && (object.sym.as_str() == "process"
                            && (key.sym.as_str() == "env"
                                && (self.expression(e).is_none()
                                    && (self.expression(&n.obj).is_none()
                                        && self.global(object).is_none()))))
                }
                _ => false,
            },
            MemberProp::Computed(_) => false,
        }
    }
}

/// The text of a key that is written out.
fn key_text(p: &MemberProp) -> Option<&str>
    ensures { option_map (λ s. s.now) result ≡ written_key p.now }
{
    match p {
        MemberProp::Ident(n) => Some(&n.sym),
        MemberProp::Computed(n) => text_of(&n.expr),
    }
}

/// The text of a literal.
#[tactic(auto, using(swc_ast::proofs::Equations::forms))]
fn text_of(e: &Expr) -> Option<&str>
    ensures { option_map (λ s. s.now) result ≡ key_of_tree (expr_tree e.now) }
{
    match e {
        Expr::Lit(n) => literal_text(n),
        _ => None,
    }
}

fn literal_text(n: &Lit) -> Option<&str>
    ensures { option_map (λ s. s.now) result ≡ key_of_tree (lit_tree n.now) }
{
    match n {
        Lit::Str(text) => Some(&text.value),
        _ => None,
    }
}
