//! The first walk: which values are met.
ghost use Rattle.std.specs.Prelude.{ℕ, List, [], ◌≡◌, IfOk};
ghost use Rattle.swc_ast.specs.Views.{expr_tree};
ghost use Rattle.swc_pass.specs.Given.{Answers};
ghost use Rattle.tree_put.specs.Answers.{answer_of};
ghost use Rattle.given_rules.specs.Walk.{found_at, gathered, gathering};
ghost use Rattle.given_globals.specs.Globals.{answers_of};

use given_globals::{Found, Lookup};
use std::alloc::{AllocError, Global};
use swc_ast::{ExportNamedSpecifier, Expr, Ident, VarDeclKind, VarDeclarator};
use tree_put::{Put, Puts, Scope, Spot};

/// Tells the numbers of the values that are met, and lets the tree stay.
#[derive(Drop)]
pub(crate) struct Gathering<'l> {
    pub(crate) lookup: &'l Lookup<'l>,
    pub(crate) met: Vec<usize>,
}

impl<'l> Gathering<'l> {
    /// Nothing is met yet.
    pub(crate) fn new(alloc: Global, lookup: &'l Lookup<'l>) -> Gathering<'l>
        ensures lookup { result.lookup ≡ lookup.entry }
        ensures met { result.met.items ≡ [] }
    {
        Gathering {
            lookup,
            met: Vec::new(alloc),
        }
    }

    /// What becomes of an expression.
    fn gather(&mut self, e: &Expr) -> Result<Put, AllocError>
        ensures { IfOk result (λ a. gathered (answers_of self.old.lookup.now.settings) (found_at (answers_of self.old.lookup.now.settings) (expr_tree e.now)) self.old.met.items ≡ (answer_of a, (answers_of self.new.lookup.now.settings, self.new.met.items))) }
    {
        match self.lookup.found(e) {
            Found::Nothing => Ok(Put::Enter),
            Found::Value(number) => {
                self.met.push(number)?;
                Ok(Put::Stay)
            }
            Found::Plain(_) => Ok(Put::Stay),
        }
    }
}

impl Puts for Gathering<'_> {
    ghost State = { Answers × List ℕ };

    ghost puts = { gathering };

    ghost state = { λ p. (answers_of p.lookup.now.settings, p.met.items) };

    fn expression(&mut self, _spot: Spot, e: &Expr) -> Result<Put, AllocError> {
        self.gather(e)
    }

    fn property(&mut self, n: &Ident) -> Result<Put, AllocError> {
        let name = Expr::Ident(n.clone()?);
        self.gather(&name)
    }

    fn open(&mut self, _scope: Scope<'_>) -> Result<(), AllocError> {
        Ok(())
    }

    fn close(&mut self) -> Result<(), AllocError> {
        Ok(())
    }

    fn declare(&mut self, _kind: VarDeclKind, _n: &VarDeclarator) -> Result<(), AllocError> {
        Ok(())
    }

    fn export(&mut self, _n: &mut ExportNamedSpecifier) -> Result<(), AllocError> {
        Ok(())
    }
}
