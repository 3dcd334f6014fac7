//! Statements that are taken out of a `switch`: those up to the first one that ends the list, and functions behind it.
ghost use Rattle.std.specs.Prelude.{◌≡◌, OnOk, false};
ghost use Rattle.swc_ast.specs.Parts.{list_trees};
ghost use Rattle.swc_ast.specs.Scope.{joined};
ghost use Rattle.swc_ast.specs.Views.{stmt_tree};
ghost use Rattle.branch_switch.specs.Clauses.{clauses};
ghost use Rattle.branch_switch.specs.Kept as keeping;

use crate::sorts::sort_of;
use branch_jumps::{Jumps, has_jump};
use branch_parts::is_plain;
use std::alloc::AllocError;
use swc_ast::{Stmt, SwitchCase};

/// Whether a statement may be taken out of a `switch`, with a statement in front that ends the list or without.
fn fits(stopped: bool, s: &Stmt) -> bool
    ensures { result ≡ keeping.fits stopped (stmt_tree s.now) }
{
    if stopped {
        return sort_of(s).declares() || is_plain(s);
    }
    sort_of(s).breaks() || !has_jump(Jumps::breaking(), s)
}

/// Whether the statements of a list that are run may be taken out of a `switch`: those up to one that ends the list.
pub(crate) fn run_fits(stmts: &[Stmt]) -> bool {
    let mut left = stmts;
    while let [s, rest @ ..] = left {
        if sort_of(s).stops() {
            return fits(false, s);
        }
        if !fits(false, s) {
            return false;
        }
        left = rest;
    }
    true
}

/// Whether a statement that ends the list stands in front of what follows a statement.
fn stopped_by(stopped: bool, s: &Stmt) -> bool
    ensures { result ≡ keeping.stopped_by stopped (stmt_tree s.now) }
{
    stopped || sort_of(s).stops()
}

/// The same of some statements.
fn stopped_by_all(stopped: bool, stmts: &[Stmt]) -> bool
    ensures { result ≡ keeping.stopped_by_all stopped (list_trees stmt_tree stmts.now) }
{
    let mut stopped = stopped;
    let mut left = stmts;
    while let [s, rest @ ..] = left {
        stopped = stopped_by(stopped, s);
        left = rest;
    }
    stopped
}

/// Whether all of some statements may be taken out of a `switch`.
pub(crate) fn all_fit(stopped: bool, stmts: &[Stmt]) -> bool
    ensures { result ≡ keeping.all_fit stopped (list_trees stmt_tree stmts.now) }
{
    let mut stopped = stopped;
    let mut left = stmts;
    while let [s, rest @ ..] = left {
        if !fits(stopped, s) {
            return false;
        }
        stopped = stopped_by(stopped, s);
        left = rest;
    }
    true
}

/// Whether the statements of cases, one behind another, may be taken out.
pub(crate) fn bodies_fit(cases: &[SwitchCase]) -> bool
    ensures { result ≡ keeping.bodies_fit false (clauses cases.now) }
{
    let mut stopped = false;
    let mut left = cases;
    while let [case, rest @ ..] = left {
        if !all_fit(stopped, &case.cons) {
            return false;
        }
        stopped = stopped_by_all(stopped, &case.cons);
        left = rest;
    }
    true
}

/// Whether a statement that is taken out stays.
fn stays(stopped: bool, s: &Stmt) -> bool
    ensures { result ≡ keeping.stays stopped (stmt_tree s.now) }
{
    if stopped {
        return sort_of(s).declares();
    }
    !sort_of(s).breaks()
}

/// Whether it goes, and isn't run anyway.
fn goes(stopped: bool, s: &Stmt) -> bool
    ensures { result ≡ keeping.goes stopped (stmt_tree s.now) }
{
    stopped && !sort_of(s).declares()
}

/// Whether nothing goes of statements that are taken out, but for a `break`.
pub(crate) fn none_goes(stmts: &[Stmt]) -> bool
    ensures { result ≡ keeping.none_goes false (list_trees stmt_tree stmts.now) }
{
    let mut stopped = false;
    let mut left = stmts;
    while let [s, rest @ ..] = left {
        if goes(stopped, s) {
            return false;
        }
        stopped = stopped_by(stopped, s);
        left = rest;
    }
    true
}

/// Puts a statement that is taken out behind those that stay, or behind those that go; a `break` is dropped.
fn place(
    stopped: bool,
    s: Stmt,
    kept: &mut Vec<Stmt>,
    gone: &mut Vec<Stmt>,
) -> Result<(), AllocError>
    ensures kept { OnOk result (list_trees stmt_tree kept.new.items ≡ joined (list_trees stmt_tree kept.old.items) (keeping.only_if (keeping.stays stopped (stmt_tree s)) (stmt_tree s))) }
    ensures gone { OnOk result (list_trees stmt_tree gone.new.items ≡ joined (list_trees stmt_tree gone.old.items) (keeping.only_if (keeping.goes stopped (stmt_tree s)) (stmt_tree s))) }
{
    if stays(stopped, &s) {
        kept.push(s)?;
        return Ok(());
    }
    if goes(stopped, &s) {
        gone.push(s)?;
        return Ok(());
    }
    Ok(())
}

/// Parts statements that are taken out into those that stay and those that go.
pub(crate) fn part(
    stmts: Vec<Stmt>,
    kept: &mut Vec<Stmt>,
    gone: &mut Vec<Stmt>,
) -> Result<(), AllocError>
    ensures kept { OnOk result (list_trees stmt_tree kept.new.items ≡ joined (list_trees stmt_tree kept.old.items) (keeping.kept false (list_trees stmt_tree stmts.items))) }
    ensures gone { OnOk result (list_trees stmt_tree gone.new.items ≡ joined (list_trees stmt_tree gone.old.items) (keeping.gone false (list_trees stmt_tree stmts.items))) }
{
    let mut stopped = false;
    for s in stmts {
        let next = stopped_by(stopped, &s);
        place(stopped, s, kept, gone)?;
        stopped = next;
    }
    Ok(())
}
