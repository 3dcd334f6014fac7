//! What is put for names and members that are read.
ghost use Rattle.std.specs.Prelude.{◌≡◌, IfOk, option_map};
ghost use Rattle.swc_ast.specs.Expressions.{member_tree};
ghost use Rattle.swc_ast.specs.Parts.{ident_name, lit_tree};
ghost use Rattle.swc_ast.specs.Views.{expr_tree};
ghost use Rattle.given_shield.specs.Shield.{shield};
ghost use Rattle.given_rules.specs.Walk.{answer, put_answer};
ghost use Rattle.given_rules.specs.Worked.{Finished};
ghost use Rattle.swc_pass.specs.Given.{Answers};
ghost use Rattle.tree_put.specs.Answers.{answer_of};
ghost use Rattle.tree_put.specs.Still.{still};
ghost use Rattle.const_pass.specs.Rules as rules;

use const_imports::{GivenModules, Locals};
use given_shield::shielded;
use std::alloc::{AllocError, Global};
use swc_ast::{
    ExportNamedSpecifier, Expr, Ident, Lit, MemberExpr, MemberProp, VarDeclKind, VarDeclarator,
};
use tree_put::{Put, Puts, Scope, Spot};

/// The rules of the walk: what names of given imports stand for.
#[derive(Drop)]
pub(crate) struct Constants<'a> {
    pub(crate) alloc: Global,
    pub(crate) locals: Locals<'a>,
    pub(crate) given: &'a GivenModules<Expr>,
}

/// The name that an expression reads.
#[tactic(auto, using(swc_ast::proofs::Equations::forms))]
fn name_read<'a>(e: &'a Expr) -> Option<&'a Ident>
    ensures { option_map (λ n. ident_name n.now) result ≡ rules.name_read (expr_tree e.now) }
{
    match e {
        Expr::Ident(name) => Some(name),
        _ => None,
    }
}

/// The text that a literal is.
fn literal_text<'a>(n: &'a Lit) -> Option<&'a str>
    ensures { option_map (λ t. t.now) result ≡ rules.text_read (lit_tree n.now) }
{
    match n {
        Lit::Str(text) => Some(text.value.as_str()),
        _ => None,
    }
}

/// The text that an expression is.
#[tactic(auto, using(swc_ast::proofs::Equations::forms))]
fn text_read<'a>(e: &'a Expr) -> Option<&'a str>
    ensures { option_map (λ t. t.now) result ≡ rules.text_read (expr_tree e.now) }
{
    match e {
        Expr::Lit(n) => literal_text(n),
        _ => None,
    }
}

/// The text of a key, if the program's text tells it.
fn key_text<'a>(prop: &'a MemberProp) -> Option<&'a str>
    ensures { option_map (λ t. t.now) result ≡ rules.key_text prop.now }
{
    match prop {
        MemberProp::Ident(word) => Some(word.sym.as_str()),
        MemberProp::Computed(key) => text_read(&key.expr),
    }
}

impl<'a> Constants<'a> {
    /// The value of a name.
    #[tactic(auto, using(crate::proofs::Forms::copied))]
    fn constant(&self, name: &Ident) -> Option<&Expr>
        ensures { option_map (λ v. expr_tree v.now) result ≡ rules.constant self.now (ident_name name.now) }
    {
        self.locals.constant(self.given, name)
    }

    /// The value of a member of a name.
    #[tactic(auto, using(crate::proofs::Forms::copied))]
    fn member_of(&self, name: &Ident, key: &str) -> Option<&Expr>
        ensures { option_map (λ v. expr_tree v.now) result ≡ rules.member self.now (ident_name name.now) key.now }
    {
        self.locals.member(self.given, name, key)
    }

    /// The value of a member, if it is one of a namespace of a given module.
    #[tactic(auto, using(crate::proofs::Forms::read_member, crate::proofs::Forms::no_object, crate::proofs::Forms::no_key))]
    fn member(&self, n: &MemberExpr) -> Option<&Expr>
        ensures { option_map (λ v. expr_tree v.now) result ≡ rules.value self.now (member_tree expr_tree n.now) }
    {
        let name = name_read(&n.obj)?;
        let key = key_text(&n.prop)?;
        self.member_of(name, key)
    }

    /// The value of an expression that is read.
    #[tactic(auto, using(swc_ast::proofs::Equations::forms))]
    fn value(&self, e: &Expr) -> Option<&Expr>
        ensures { option_map (λ v. expr_tree v.now) result ≡ rules.value self.now (expr_tree e.now) }
    {
        match e {
            Expr::Ident(name) => self.constant(name),
            Expr::Member(n) => self.member(n),
            _ => None,
        }
    }

    /// What becomes of an expression with a value. Fails where memory is refused.
    fn put(&self, spot: Spot, value: Option<&Expr>) -> Result<Put, AllocError>
        ensures { IfOk result (λ a. answer_of a ≡ answer (option_map (shield spot) (option_map (λ v. expr_tree v.now) value.entry))) }
    {
        match value {
            Some(value) => {
                let copy = value.clone()?;
                Ok(Put::Become(shielded(self.alloc, spot, copy)?))
            }
            None => Ok(Put::Enter),
        }
    }
}

impl<'a> Puts for Constants<'a> {
    ghost State = { Answers × Finished };

    ghost puts = { still put_answer };

    ghost state = { rules.state };

    #[inline(never)]
    #[tactic(auto, using(crate::proofs::Found::answers_walk))]
    fn expression(&mut self, spot: Spot, e: &Expr) -> Result<Put, AllocError> {
        let put = self.put(spot, self.value(e))?;
        Ok(put)
    }

    #[tactic(auto, using(crate::proofs::Found::answers_walk))]
    fn property(&mut self, n: &Ident) -> Result<Put, AllocError> {
        let put = self.put(Spot::Property, self.constant(n))?;
        Ok(put)
    }

    fn open(&mut self, _scope: Scope<'_>) -> Result<(), AllocError> {
        Ok(())
    }

    fn close(&mut self) -> Result<(), AllocError> {
        Ok(())
    }

    fn declare(&mut self, _kind: VarDeclKind, _n: &VarDeclarator) -> Result<(), AllocError> {
        Ok(())
    }

    fn export(&mut self, _n: &mut ExportNamedSpecifier) -> Result<(), AllocError> {
        Ok(())
    }
}
