//! Declarations of `let` and `const` in cases that no run comes to, which go before the cases are walked.
ghost use denote.Param.Weighed.{most};
ghost use Rattle.std.specs.Prelude.{◌≡◌, ◌≤◌, IfOk, IsFalse, drop, length, take, true};
ghost use Rattle.swc_ast.specs.Parts.{list_trees};
ghost use Rattle.swc_ast.specs.Statements.{var_tree};
ghost use Rattle.swc_ast.specs.Tree as tree;
ghost use Rattle.swc_ast.specs.declared.statements.SwitchCase.{size-SwitchCase};
ghost use Rattle.swc_ast.specs.declared.statements.SwitchStmt.{size-SwitchStmt};
ghost use Rattle.swc_ast.specs.Views.{decl_tree, expr_tree, stmt_tree, switch_tree};
ghost use Rattle.swc_utils.specs.Globals.{unresolved};
ghost use Rattle.branch_rules.specs.Removes.{remove_pass};
ghost use Rattle.branch_rules.specs.Switches as rules;
ghost use Rattle.branch_switch.specs.Clauses.{clause, clauses};
ghost use Rattle.branch_switch.specs.Shed as sheds;
ghost use Rattle.branch_switch.specs.Values.{value_in};
ghost use Rattle.tree_walk.specs.Walks.{Opened};

use crate::selection::{Found, Meeting, find, is_default, met};
use crate::sorts::sort_of;
use crate::unbroken::run_fits;
use crate::values::{Known, value_of};
use std::alloc::{AllocError, Global};
use swc_ast::{Decl, Stmt, SwitchCase, SwitchStmt, VarDecl};
use swc_utils::ExprCtx;
use tree_nodes::is_lexical;

/// Whether a declaration declares names by `let` or `const`.
fn is_shed_var(n: &VarDecl) -> bool
    ensures { result ≡ rules.is_shed (var_tree expr_tree n.now) }
{
    if is_lexical(n.kind) {
        return !n.decls.is_empty();
    }
    false
}

#[tactic(auto, using(swc_ast::proofs::Equations::forms))]
fn is_shed_decl(n: &Decl) -> bool
    ensures { result ≡ rules.is_shed (decl_tree n.now) }
{
    match n {
        Decl::Fn(_) => false,
        Decl::Var(n) => is_shed_var(n),
    }
}

/// Whether a statement declares names by `let` or `const`.
#[tactic(auto, using(swc_ast::proofs::Equations::forms))]
fn is_shed(s: &Stmt) -> bool
    ensures { result ≡ rules.is_shed (stmt_tree s.now) }
{
    match s {
        Stmt::Decl(n) => is_shed_decl(n),
        Stmt::Block(_)
        | Stmt::Empty(_)
        | Stmt::Return(_)
        | Stmt::Labeled(_)
        | Stmt::Break(_)
        | Stmt::Continue(_)
        | Stmt::If(_)
        | Stmt::Switch(_)
        | Stmt::Throw(_)
        | Stmt::Try(_)
        | Stmt::While(_)
        | Stmt::DoWhile(_)
        | Stmt::For(_)
        | Stmt::Expr(_) => false,
    }
}

/// Whether one of some statements does.
fn has_shed(stmts: &[Stmt]) -> bool
    ensures { result ≡ rules.has_shed (list_trees stmt_tree stmts.now) }
{
    let mut left = stmts;
    while let [s, rest @ ..] = left {
        if is_shed(s) {
            return true;
        }
        left = rest;
    }
    false
}

/// Whether one of some statements declares a function.
fn declares_function(stmts: &[Stmt]) -> bool
    ensures { IsFalse result → rules.functions_of (list_trees stmt_tree stmts.now) ≡ tree.ε }
{
    let mut left = stmts;
    while let [s, rest @ ..] = left {
        if sort_of(s).declares() {
            return true;
        }
        left = rest;
    }
    false
}

/// Whether one of some statements ends their list.
fn has_stopper(stmts: &[Stmt]) -> bool
    ensures { result ≡ rules.has_stopper (list_trees stmt_tree stmts.now) }
{
    let mut left = stmts;
    while let [s, rest @ ..] = left {
        if sort_of(s).stops() {
            return true;
        }
        left = rest;
    }
    false
}

/// Drops the `let` and `const` of a case that declares no function, and says whether there are any.
fn shed_case(case: &mut SwitchCase) -> bool
    ensures sheds { sheds.CaseSheds result (clause case.old) (clause case.new) }
    ensures no_deeper { size-SwitchCase case.new ≤ size-SwitchCase case.old }
{
    if declares_function(&case.cons) {
        return false;
    }
    if !has_shed(&case.cons) {
        return false;
    }
    case.cons.retain(|s| !is_shed(s));
    true
}

/// The same of some cases.
fn shed_cases(cases: &mut Vec<SwitchCase>) -> bool
    ensures sheds { rules.Sheds result (clauses cases.old.items) (clauses cases.new.items) }
    ensures no_deeper { most size-SwitchCase cases.new.items ≤ most size-SwitchCase cases.old.items }
{
    let mut shed = false;
    for i in 0..cases.len() {
        let one = shed_case(&mut cases[i]);
        shed = shed | one;
    }
    shed
}

/// Whether a statement of a case ends its list.
fn ends(case: &SwitchCase) -> bool
    ensures { result ≡ rules.has_stopper (clause case.now).body }
{
    has_stopper(&case.cons)
}

/// How many of some cases are run at most where the first of them is selected: those up to one that ends with a stopper.
fn reached(cases: &[SwitchCase]) -> usize
    ensures within { result ≤ length cases.now }
    ensures ends { rules.Ends (clauses (take result cases.now)) (clauses (drop result cases.now)) }
{
    for i in 0..cases.len() {
        if ends(&cases[i]) {
            return i + 1;
        }
    }
    cases.len()
}

/// Sheds the cases in front of one.
fn shed_leading(cases: &mut Vec<SwitchCase>, count: usize) -> Result<bool, AllocError>
    requires { count ≤ length cases.old.items }
    ensures sheds { IfOk result (λ c. sheds.LeadingSheds c (clauses (take count cases.old.items)) (clauses (drop count cases.old.items)) (clauses cases.new.items)) }
    ensures no_deeper { IfOk result (λ c. most size-SwitchCase cases.new.items ≤ most size-SwitchCase cases.old.items) }
{
    let mut back = cases.split_off(count)?;
    let shed = shed_cases(cases);
    cases.append(&mut back)?;
    Ok(shed)
}

/// Sheds the cases in front of one that is selected, and those behind the ones that are run then.
fn shed_around(cases: &mut Vec<SwitchCase>, i: usize) -> Result<bool, AllocError>
    requires { i ≤ length cases.old.items }
    ensures sheds { IfOk result (λ c. sheds.AroundSheds c (clauses (take i cases.old.items)) (clauses (drop i cases.old.items)) (clauses cases.new.items)) }
    ensures no_deeper { IfOk result (λ c. most size-SwitchCase cases.new.items ≤ most size-SwitchCase cases.old.items) }
{
    let mut back = cases.split_off(i)?;
    let count = reached(&back);
    let mut behind = back.split_off(count)?;
    let front_shed = shed_cases(cases);
    let behind_shed = shed_cases(&mut behind);
    cases.append(&mut back)?;
    cases.append(&mut behind)?;
    Ok(front_shed | behind_shed)
}

/// Whether a case that is dropped keeps its `switch`, once it is shed: one in front of a selected one with a function, or one
/// behind it with a function and with `let` or `const`.
fn keeps_switch(behind: bool, case: &SwitchCase) -> bool {
    declares_function(&case.cons) && (!behind || has_shed(&case.cons))
}

/// The same of some cases.
fn keep_switch(behind: bool, cases: &[SwitchCase]) -> bool {
    let mut left = cases;
    while let [case, rest @ ..] = left {
        if keeps_switch(behind, case) {
            return true;
        }
        left = rest;
    }
    false
}

/// Whether the statements of cases that are run may be taken out, as far as they are reached.
fn may_be_taken(cases: &[SwitchCase]) -> bool {
    let mut left = cases;
    while let [case, rest @ ..] = left {
        if !run_fits(&case.cons) {
            return false;
        }
        left = rest;
    }
    true
}

/// Whether the case of an index may be taken out where it is selected.
fn may_select(cases: &[SwitchCase], i: usize) -> bool
    requires { i ≤ length cases.now }
{
    let count = reached(&cases[i..]);
    !keep_switch(false, &cases[..i])
        && may_be_taken(&cases[i..i + count])
        && !keep_switch(true, &cases[i + count..])
}

/// Whether a case isn't `default`, declares no function, and is known to be passed.
fn is_passed(
    alloc: Global,
    ctx: &ExprCtx,
    value: &Known,
    case: &SwitchCase,
) -> Result<bool, AllocError>
    ensures { IfOk result (λ b. b ≡ true → sheds.PassedOver (unresolved ctx.now) (value_in value.now) (clause case.now)) }
{
    if is_default(case) {
        return Ok(false);
    }
    if declares_function(&case.cons) {
        return Ok(false);
    }
    match met(alloc, ctx, value, case)? {
        Meeting::Unknown => Ok(false),
        Meeting::Passed => Ok(true),
        Meeting::Met => Ok(false),
    }
}

/// How many cases in front aren't `default`, declare no function, and are known to be passed. Fails where memory is refused.
fn passed_over(
    alloc: Global,
    ctx: &ExprCtx,
    value: &Known,
    cases: &[SwitchCase],
) -> Result<usize, AllocError>
    ensures { IfOk result (λ n. sheds.PassedFront (unresolved ctx.now) (value_in value.now) cases.now n) }
{
    for i in 0..cases.len() {
        if !is_passed(alloc, ctx, value, &cases[i])? {
            return Ok(i);
        }
    }
    Ok(cases.len())
}

/// Sheds leading cases that are known to be passed.
fn shed_front(
    alloc: Global,
    ctx: &ExprCtx,
    value: &Known,
    cases: &mut Vec<SwitchCase>,
) -> Result<bool, AllocError>
    ensures sheds { IfOk result (λ c. sheds.Unreached (unresolved ctx.now) (value_in value.now) c (clauses cases.old.items) (clauses cases.new.items)) }
    ensures no_deeper { IfOk result (λ c. most size-SwitchCase cases.new.items ≤ most size-SwitchCase cases.old.items) }
{
    let count = passed_over(alloc, ctx, value, cases)?;
    let shed = shed_leading(cases, count)?;
    Ok(shed)
}

/// Sheds the cases that are not run for a value, as far as that is known, and says whether one had `let` or `const`.
fn shed_unreached(
    alloc: Global,
    ctx: &ExprCtx,
    value: &Known,
    cases: &mut Vec<SwitchCase>,
) -> Result<bool, AllocError>
    ensures sheds { IfOk result (λ c. sheds.Unreached (unresolved ctx.now) (value_in value.now) c (clauses cases.old.items) (clauses cases.new.items)) }
    ensures no_deeper { IfOk result (λ c. most size-SwitchCase cases.new.items ≤ most size-SwitchCase cases.old.items) }
{
    match find(alloc, ctx, value, cases)? {
        Found::At(i) => {
            if may_select(cases, i) {
                let around = shed_around(cases, i)?;
                return Ok(around);
            }
            shed_front(alloc, ctx, value, cases)
        }
        Found::Unknown | Found::Nothing => shed_front(alloc, ctx, value, cases),
    }
}

/// Drops `let` and `const` that stand directly in cases to which no run comes, where that is known before the `switch` is
/// walked, and where the `switch` may go or lose these cases then. False: it is as it was. Fails where memory is refused.
pub fn shed_switch(alloc: Global, ctx: &ExprCtx, n: &mut SwitchStmt) -> Result<bool, AllocError>
    ensures sheds { IfOk result (λ c. Opened (remove_pass (unresolved ctx.now)) c (switch_tree n.old) (switch_tree n.new)) }
    ensures no_deeper { IfOk result (λ c. size-SwitchStmt n.new ≤ size-SwitchStmt n.old) }
{
    match value_of(alloc, ctx, &n.discriminant)? {
        Some(value) => {
            let shed = shed_unreached(alloc, ctx, &value, &mut n.cases)?;
            Ok(shed)
        }
        None => Ok(false),
    }
}
