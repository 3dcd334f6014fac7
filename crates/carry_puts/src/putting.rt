//! The rules of the walk.
ghost use Rattle.std.specs.Prelude.{◌≡◌, [], ◌∷◌, List, map, drop, IfOk, IfSome, IsNone};
ghost use Rattle.swc_ast.specs.Parts.{ident_name};
ghost use Rattle.carry_rules.specs.Carry as carry;
ghost use Rattle.link_proofs.specs.Links as links;
ghost use Rattle.tree_put.specs.Answers.{answer_of};
ghost use Rattle.tree_visit.specs.Kinds.{kind_label};
ghost use Rattle.carry_parts.specs.Carries.{pass_of, puts_of};
ghost use Rattle.carry_puts.specs.Placed.{is_asked, putting, stays, taken};
ghost use Rattle.carry_puts.specs.Values.{state_of};

use crate::value::value;
use carry_parts::{Carry, Pass, is_eval, name_of};
use std::alloc::{AllocError, Global};
use swc_ast::{ExportNamedSpecifier, Expr, Ident, VarDeclKind, VarDeclarator};
use tree_put::{Put, Puts, Scope, Spot};
use tree_visit::{Kind, open_expr};

/// What is still to be put at reads, in the order of the text.
#[derive(Drop)]
pub(crate) struct Putting<'r, 'a> {
    pub(crate) alloc: Global,
    pub(crate) pass: Pass,
    pub(crate) reads: &'r Vec<Option<Carry<'a>>>,
    pub(crate) at: usize,
}

impl<'r, 'a> Putting<'r, 'a> {
    /// What is put for a name. Fails where memory is refused.
    fn answer(&mut self, n: &Ident) -> Result<Put, AllocError>
        ensures { IfOk result (λ a. taken (pass_of self.old.pass) (ident_name n.now) (n.now.span ∷ []) (map puts_of (drop self.old.at self.old.reads.now.items)) ≡ (answer_of a, state_of self.new)) }
    {
        let Some((read, next)) = read_at(self.reads, self.at) else {
            return Ok(Put::Enter);
        };
        self.at = next;
        match read {
            Some(carry) => Ok(Put::Become(value(self.alloc, carry, n.span)?)),
            None => Ok(Put::Enter),
        }
    }
}

/// The read at a place and the place behind it, if there are so many.
fn read_at<'a>(reads: &Vec<Option<Carry<'a>>>, at: usize) -> Option<(Option<Carry<'a>>, usize)>
    ensures there { IfSome result (λ p. drop at reads.now.items ≡ p.0 ∷ drop p.1 reads.now.items) }
    ensures behind { IsNone result → drop at reads.now.items ≡ [] }
{
    if at < reads.len() {
        Some((reads[at], at + 1))
    } else {
        None
    }
}

/// Whether something may be put for a name at a spot.
fn may_put(pass: Pass, spot: Spot, n: &Ident) -> bool
    ensures { result ≡ is_asked (pass_of pass) spot (ident_name n.now) }
{
    match spot {
        Spot::Callee => !is_eval(n),
        Spot::Property => match pass {
            Pass::Constants => true,
            Pass::Inlines => false,
        },
        Spot::Here | Spot::Operand => true,
    }
}

/// Whether nothing is put in an expression.
fn is_left(pass: Pass, kind: Kind<'_>) -> bool
    ensures { result ≡ stays (pass_of pass) (kind_label kind.entry) }
{
    match kind {
        Kind::Assign(_, _)
        | Kind::AssignDot(_, _)
        | Kind::AssignIndex(_)
        | Kind::Update(_, _, _)
        | Kind::UpdateDot(_, _, _)
        | Kind::UpdateIndex(_, _) => match pass {
            Pass::Constants => true,
            Pass::Inlines => false,
        },
        _ => false,
    }
}

impl<'r, 'a> Puts for Putting<'r, 'a> {
    ghost State = { carry.Pass × List links.Put };

    ghost puts = { putting };

    ghost state = { state_of };

    #[inline(never)]
    fn expression(&mut self, spot: Spot, e: &Expr) -> Result<Put, AllocError> {
        match name_of(e) {
            Some(n) => {
                if may_put(self.pass, spot, n) {
                    self.answer(n)
                } else {
                    Ok(Put::Enter)
                }
            }
            None => {
                if is_left(self.pass, open_expr(e).kind) {
                    Ok(Put::Stay)
                } else {
                    Ok(Put::Enter)
                }
            }
        }
    }

    fn property(&mut self, n: &Ident) -> Result<Put, AllocError> {
        if may_put(self.pass, Spot::Property, n) {
            self.answer(n)
        } else {
            Ok(Put::Enter)
        }
    }

    fn open(&mut self, _scope: Scope<'_>) -> Result<(), AllocError> {
        Ok(())
    }

    fn close(&mut self) -> Result<(), AllocError> {
        Ok(())
    }

    fn declare(&mut self, _kind: VarDeclKind, _n: &VarDeclarator) -> Result<(), AllocError> {
        Ok(())
    }

    fn export(&mut self, _n: &mut ExportNamedSpecifier) -> Result<(), AllocError> {
        Ok(())
    }
}
