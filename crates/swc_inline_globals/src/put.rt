//! The second walk: what is given is put.
ghost use Rattle.std.specs.Prelude.{◌≡◌, IfOk};
ghost use Rattle.swc_ast.specs.Expressions.{unary_tree};
ghost use Rattle.swc_ast.specs.Views.{expr_tree};
ghost use Rattle.swc_pass.specs.Given.{Answers};
ghost use Rattle.tree_put.specs.Answers.{answer_of};
ghost use Rattle.tree_put.specs.Still.{still};
ghost use Rattle.given_shield.specs.Shield.{shield};
ghost use Rattle.given_rules.specs.Walk.{answer, put_answer};
ghost use Rattle.given_rules.specs.Worked.{Finished, put_found, put_expression};
ghost use Rattle.given_globals.specs.Globals.{answers_of};
ghost use Rattle.given_globals.specs.Rows.{found_of};
ghost use Rattle.swc_inline_globals.specs.Slots.{slots, types};

use given_globals::{Found, Lookup};
use given_shield::shielded;
use std::alloc::{AllocError, Global};
use swc_ast::{
    ExportNamedSpecifier, Expr, Ident, Lit, Str, UnaryExpr, UnaryOp, VarDeclKind, VarDeclarator,
};
use tree_put::{Put, Puts, Scope, Spot};

/// Puts what is given: of a value that which was made of it.
#[derive(Drop)]
pub(crate) struct Putting<'l> {
    pub(crate) alloc: Global,
    pub(crate) lookup: &'l Lookup<'l>,
    pub(crate) finals: &'l [Option<Expr>],
}

impl Putting<'_> {
    /// What becomes of an expression.
    fn put(&self, spot: Spot, e: &Expr) -> Result<Put, AllocError>
        ensures { IfOk result (λ a. answer_of a ≡ answer (put_expression (answers_of self.now.lookup.now.settings) shield (slots self.now.finals.now) spot (expr_tree e.now))) }
    {
        match e {
            Expr::Unary(n) => self.put_type(n),
            _ => self.put_found(spot, self.lookup.found(e)),
        }
    }

    /// What takes a place, for what is given there.
    fn put_found(&self, spot: Spot, found: Found<'_>) -> Result<Put, AllocError>
        ensures { IfOk result (λ a. answer_of a ≡ answer (put_found (answers_of self.now.lookup.now.settings) shield (slots self.now.finals.now) spot (found_of found.entry))) }
    {
        let value = match found {
            Found::Nothing => return Ok(Put::Enter),
            Found::Value(number) => match self.finals.get(number) {
                Some(Some(value)) => value,
                _ => return Ok(Put::Enter),
            },
            Found::Plain(value) => value,
        };
        Ok(Put::Become(shielded(self.alloc, spot, value.clone()?)?))
    }

    /// What becomes of `typeof` in front of an operand: a text, where nothing is given for the name but one.
    fn put_type(&self, n: &UnaryExpr) -> Result<Put, AllocError>
        ensures { IfOk result (λ a. (spot : Spot) → answer_of a ≡ answer (put_expression (answers_of self.now.lookup.now.settings) shield (slots self.now.finals.now) spot (unary_tree expr_tree n.now))) }
    {
        if !is_type_of(n.op) {
            return Ok(Put::Enter);
        }
        let Expr::Ident(name) = &*n.arg else {
            return Ok(Put::Enter);
        };
        let Found::Nothing = self.lookup.found(&n.arg) else {
            return Ok(Put::Enter);
        };
        let Some(text) = self.lookup.type_text(name) else {
            return Ok(Put::Enter);
        };
        Ok(Put::Become(Expr::Lit(Lit::Str(Str {
            span: n.span,
            value: String::from_str(self.alloc, text)?,
        }))))
    }
}

/// Whether an operator is `typeof`.
fn is_type_of(op: UnaryOp) -> bool
    ensures { result ≡ types op }
{
    match op {
        UnaryOp::TypeOf => true,
        UnaryOp::Minus
        | UnaryOp::Plus
        | UnaryOp::Bang
        | UnaryOp::Tilde
        | UnaryOp::Void
        | UnaryOp::Delete => false,
    }
}

impl Puts for Putting<'_> {
    ghost State = { Answers × Finished };

    ghost puts = { still put_answer };

    ghost state = { λ p. (answers_of p.lookup.now.settings, slots p.finals.now) };

    fn expression(&mut self, spot: Spot, e: &Expr) -> Result<Put, AllocError> {
        self.put(spot, e)
    }

    fn property(&mut self, n: &Ident) -> Result<Put, AllocError> {
        let name = Expr::Ident(n.clone()?);
        self.put(Spot::Property, &name)
    }

    fn open(&mut self, _scope: Scope<'_>) -> Result<(), AllocError> {
        Ok(())
    }

    fn close(&mut self) -> Result<(), AllocError> {
        Ok(())
    }

    fn declare(&mut self, _kind: VarDeclKind, _n: &VarDeclarator) -> Result<(), AllocError> {
        Ok(())
    }

    fn export(&mut self, _n: &mut ExportNamedSpecifier) -> Result<(), AllocError> {
        Ok(())
    }
}
