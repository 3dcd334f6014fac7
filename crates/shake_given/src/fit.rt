//! Which expressions are keys, and which may be put.
ghost use Rattle.std.specs.Prelude.{◌≡◌, ◌↔◌, IsTrue, IfOk, IfErr};
ghost use Rattle.swc_ast.specs.Modules.{item_tree, module_tree};
ghost use Rattle.swc_ast.specs.Parts.{lit_tree};
ghost use Rattle.swc_ast.specs.Views.{expr_tree};
ghost use Rattle.given_rules.specs.Givable.{IsGivable};
ghost use Rattle.shake_given.specs.Reads.{is_chain, is_text};
ghost use Rattle.shake_given.specs.Twice.{is_written, statement, twice};
ghost use Rattle.shake_given.specs.declared.error.GivenError.TheVariants.{OutOfMemory};

use crate::error::GivenError;
use std::alloc::{AllocError, Global};
use swc_ast::{DUMMY_SP, Expr, ExprStmt, Lit, Mark, MemberProp, Module, ModuleItem, Stmt};
use swc_resolved::is_core_and_resolved;

/// Whether an expression is a name, or a chain of members that begins with one, and whose keys are names and texts.
#[tactic(auto, using(swc_ast::proofs::Equations::forms, crate::proofs::Chains::chain_member))]
pub(crate) fn is_chain(e: &Expr) -> bool
    ensures { result ≡ is_chain (expr_tree e.now) }
{
    match e {
        Expr::Ident(_) => true,
        Expr::Member(n) => is_written(&n.prop) && is_chain(&n.obj),
        _ => false,
    }
}

/// Whether a key is a name or a text.
fn is_written(key: &MemberProp) -> bool
    ensures { result ≡ is_written key.now }
{
    match key {
        MemberProp::Ident(_) => true,
        MemberProp::Computed(n) => is_text(&n.expr),
    }
}

#[tactic(auto, using(swc_ast::proofs::Equations::forms))]
fn is_text(e: &Expr) -> bool
    ensures { result ≡ is_text (expr_tree e.now) }
{
    match e {
        Expr::Lit(n) => is_text_literal(n),
        _ => false,
    }
}

fn is_text_literal(n: &Lit) -> bool
    ensures { result ≡ is_text (lit_tree n.now) }
{
    match n {
        Lit::Str(_) => true,
        _ => false,
    }
}

/// Whether a value may be put wherever an expression is read, as often as one is: it binds no name, and it is valid, in the
/// core and without a jump that leads out of it. Such a value may stand twice in one module. Fails where memory is refused.
pub(crate) fn is_givable(alloc: Global, value: &Expr, mark: Mark) -> Result<bool, GivenError>
    ensures answer { IfOk result (λ b. IsTrue b ↔ IsGivable (expr_tree value.now)) }
    ensures memory { IfErr result (λ e. e ≡ OutOfMemory) }
{
    let twice = twice(alloc, value)?;
    let is_good = is_core_and_resolved(alloc, &twice, mark)?;
    Ok(is_good)
}

/// A module in which an expression stands twice.
fn twice(alloc: Global, value: &Expr) -> Result<Module, AllocError>
    ensures { IfOk result (λ m. module_tree m ≡ twice (expr_tree value.now)) }
{
    let mut body = Vec::new(alloc);
    body.push(statement(alloc, value)?)?;
    body.push(statement(alloc, value)?)?;
    Ok(Module {
        span: DUMMY_SP,
        body,
    })
}

/// An expression as a statement.
fn statement(alloc: Global, value: &Expr) -> Result<ModuleItem, AllocError>
    ensures { IfOk result (λ m. item_tree m ≡ statement (expr_tree value.now)) }
{
    Ok(ModuleItem::Stmt(Stmt::Expr(ExprStmt {
        span: DUMMY_SP,
        expr: Box::new(alloc, value.clone()?)?,
    })))
}
