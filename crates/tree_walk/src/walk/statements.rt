//! The walk over statements and declarations.
ghost use Rattle.std.specs.Prelude.{IfOk};
ghost use Rattle.swc_ast.specs.Expressions.{body_tree};
ghost use Rattle.swc_ast.specs.Statements.{block_tree, option_block_tree, option_init_tree, init_tree, try_tree, var_tree};
ghost use Rattle.swc_ast.specs.Views.{expr_tree, stmt_tree, decl_tree, if_tree, switch_tree, case_trees, loop_trees, for_tree};
ghost use Rattle.tree_walk.specs.Walks.{Made, Ready, Each};
ghost use Rattle.tree_walk.specs.Parts.{OptionWalks};
ghost use Rattle.tree_walk.specs.StatementParts.{ListWalks, PartWalks, HandlerWalks, CaseWalks, LoopWalks, HeadWalks, DeclaratorWalks, DeclWalks};

use crate::rules::{ListPlace, Place, Rules};
use crate::walk::expressions::{walk_boxed, walk_boxed_function, walk_option};
use std::alloc::AllocError;
use swc_ast::{
    BlockStmt, CatchClause, Decl, ForStmt, IfStmt, Stmt, SwitchCase, SwitchStmt, TryStmt, VarDecl,
    VarDeclOrExpr, VarDeclarator, WhileStmt,
};

#[cycle(walk)]
pub fn walk_body<R: Rules>(rules: &R, n: &mut BlockStmt) -> Result<bool, AllocError>
    ensures { IfOk result (λ c. Made (R.pass rules.now) (body_tree stmt_tree n.old) (body_tree stmt_tree n.new) c) }
{
    let made = walk_part(rules, ListPlace::Body, &mut n.stmts)?;
    Ok(made)
}

#[cycle(walk)]
pub fn walk_block<R: Rules>(rules: &R, n: &mut BlockStmt) -> Result<bool, AllocError>
    ensures { IfOk result (λ c. Ready (R.pass rules.now) (block_tree stmt_tree n.old) (block_tree stmt_tree n.new) c) }
{
    let made = walk_list(rules, ListPlace::Block, &mut n.stmts)?;
    Ok(made)
}

/// Walks a block that is no statement.
#[cycle(walk)]
pub fn walk_inner_block<R: Rules>(rules: &R, n: &mut BlockStmt) -> Result<bool, AllocError>
    ensures { IfOk result (λ c. Made (R.pass rules.now) (block_tree stmt_tree n.old) (block_tree stmt_tree n.new) c) }
{
    let made = walk_part(rules, ListPlace::Block, &mut n.stmts)?;
    Ok(made)
}

/// Walks a list that is no statement, if it is entered.
#[cycle(walk)]
pub fn walk_part<R: Rules>(
    rules: &R,
    place: ListPlace,
    stmts: &mut Vec<Stmt>,
) -> Result<bool, AllocError>
    ensures { IfOk result (λ c. PartWalks (R.pass rules.now) place stmts.old.items stmts.new.items c) }
{
    if !rules.enters_list(place, stmts) {
        return Ok(false);
    }
    let made = walk_list(rules, place, stmts)?;
    Ok(made)
}

/// Walks the statements of a list, and then the list.
#[cycle(walk)]
pub fn walk_list<R: Rules>(
    rules: &R,
    place: ListPlace,
    stmts: &mut Vec<Stmt>,
) -> Result<bool, AllocError>
    ensures { IfOk result (λ c. ListWalks (R.pass rules.now) place stmts.old.items stmts.new.items c) }
{
    let inside = walk_stmts(rules, stmts)?;
    let left = rules.leave_list(place, stmts)?;
    Ok(inside | left)
}

#[cycle(walk)]
pub fn walk_stmts<R: Rules>(rules: &R, ss: &mut Vec<Stmt>) -> Result<bool, AllocError>
    ensures { IfOk result (λ c. Each (λ x y d. Made (R.pass rules.now) (stmt_tree x) (stmt_tree y) d) ss.old.items ss.new.items c) }
{
    let mut changed = false;
    for i in 0..ss.len() {
        let made = walk_stmt(rules, &mut ss[i])?;
        changed = changed | made;
    }
    Ok(changed)
}

/// Walks a statement: the rules in front of its parts, its parts, and then the rules at the statement.
#[cycle(walk)]
pub fn walk_stmt<R: Rules>(rules: &R, s: &mut Stmt) -> Result<bool, AllocError>
    ensures { IfOk result (λ c. Made (R.pass rules.now) (stmt_tree s.old) (stmt_tree s.new) c) }
{
    let opened = rules.enter_stmt(s)?;
    if !rules.enters_stmt(s) {
        return Ok(opened);
    }
    let inside = walk_stmt_parts(rules, s)?;
    let left = rules.leave_stmt(s)?;
    Ok(opened | (inside | left))
}

#[cycle(walk)]
pub fn walk_stmt_parts<R: Rules>(rules: &R, s: &mut Stmt) -> Result<bool, AllocError>
    ensures { IfOk result (λ c. Ready (R.pass rules.now) (stmt_tree s.old) (stmt_tree s.new) c) }
{
    match s {
        Stmt::Block(n) => {
            let made = walk_block(rules, n)?;
            Ok(made)
        }
        Stmt::Empty(_) => Ok(false),
        Stmt::Return(n) => {
            let made = walk_option(rules, &mut n.arg)?;
            Ok(made)
        }
        Stmt::Labeled(n) => {
            let made = walk_boxed_stmt(rules, &mut n.body)?;
            Ok(made)
        }
        Stmt::Break(_) => Ok(false),
        Stmt::Continue(_) => Ok(false),
        Stmt::If(n) => {
            let made = walk_if(rules, n)?;
            Ok(made)
        }
        Stmt::Switch(n) => {
            let made = walk_switch(rules, n)?;
            Ok(made)
        }
        Stmt::Throw(n) => {
            let made = walk_boxed(rules, Place::Value, &mut n.arg)?;
            Ok(made)
        }
        Stmt::Try(n) => {
            let made = walk_boxed_try(rules, n)?;
            Ok(made)
        }
        Stmt::While(n) => {
            let made = walk_loop(rules, n)?;
            Ok(made)
        }
        Stmt::DoWhile(n) => {
            let made = walk_loop(rules, n)?;
            Ok(made)
        }
        Stmt::For(n) => {
            let made = walk_boxed_for(rules, n)?;
            Ok(made)
        }
        Stmt::Decl(n) => {
            let made = walk_decl(rules, n)?;
            Ok(made)
        }
        Stmt::Expr(n) => {
            let made = walk_boxed(rules, Place::Statement, &mut n.expr)?;
            Ok(made)
        }
    }
}

#[cycle(walk)]
pub fn walk_boxed_stmt<R: Rules>(rules: &R, s: &mut Box<Stmt>) -> Result<bool, AllocError>
    ensures { IfOk result (λ c. Made (R.pass rules.now) (stmt_tree s.old.value) (stmt_tree s.new.value) c) }
{
    walk_stmt(rules, s)
}

#[cycle(walk)]
pub fn walk_alt<R: Rules>(rules: &R, s: &mut Option<Box<Stmt>>) -> Result<bool, AllocError>
    ensures { IfOk result (λ c. OptionWalks (R.pass rules.now) stmt_tree s.old s.new c) }
{
    match s {
        Some(n) => {
            let made = walk_boxed_stmt(rules, n)?;
            Ok(made)
        }
        None => Ok(false),
    }
}

#[cycle(walk)]
pub fn walk_boxed_try<R: Rules>(rules: &R, n: &mut Box<TryStmt>) -> Result<bool, AllocError>
    ensures { IfOk result (λ c. Ready (R.pass rules.now) (try_tree stmt_tree n.old.value) (try_tree stmt_tree n.new.value) c) }
{
    walk_try(rules, n)
}

#[cycle(walk)]
pub fn walk_try<R: Rules>(rules: &R, n: &mut TryStmt) -> Result<bool, AllocError>
    ensures { IfOk result (λ c. Ready (R.pass rules.now) (try_tree stmt_tree n.old) (try_tree stmt_tree n.new) c) }
{
    let block = walk_inner_block(rules, &mut n.block)?;
    let handler = walk_handler(rules, &mut n.handler)?;
    let finalizer = walk_finalizer(rules, &mut n.finalizer)?;
    Ok(block | (handler | finalizer))
}

#[cycle(walk)]
pub fn walk_handler<R: Rules>(rules: &R, h: &mut Option<CatchClause>) -> Result<bool, AllocError>
    ensures { IfOk result (λ c. HandlerWalks (R.pass rules.now) h.old h.new c) }
{
    match h {
        Some(n) => {
            let made = walk_inner_block(rules, &mut n.body)?;
            Ok(made)
        }
        None => Ok(false),
    }
}

#[cycle(walk)]
pub fn walk_finalizer<R: Rules>(rules: &R, f: &mut Option<BlockStmt>) -> Result<bool, AllocError>
    ensures { IfOk result (λ c. Made (R.pass rules.now) (option_block_tree stmt_tree f.old) (option_block_tree stmt_tree f.new) c) }
{
    match f {
        Some(n) => {
            let made = walk_inner_block(rules, n)?;
            Ok(made)
        }
        None => Ok(false),
    }
}

#[cycle(walk)]
pub fn walk_if<R: Rules>(rules: &R, n: &mut IfStmt) -> Result<bool, AllocError>
    ensures { IfOk result (λ c. Ready (R.pass rules.now) (if_tree n.old) (if_tree n.new) c) }
{
    let test = walk_boxed(rules, Place::Value, &mut n.test)?;
    let cons = walk_boxed_stmt(rules, &mut n.cons)?;
    let alt = walk_alt(rules, &mut n.alt)?;
    Ok(test | (cons | alt))
}

#[cycle(walk)]
pub fn walk_switch<R: Rules>(rules: &R, n: &mut SwitchStmt) -> Result<bool, AllocError>
    ensures { IfOk result (λ c. Ready (R.pass rules.now) (switch_tree n.old) (switch_tree n.new) c) }
{
    let discriminant = walk_boxed(rules, Place::Value, &mut n.discriminant)?;
    let cases = walk_cases(rules, &mut n.cases)?;
    Ok(discriminant | cases)
}

#[cycle(walk)]
pub fn walk_cases<R: Rules>(rules: &R, cs: &mut Vec<SwitchCase>) -> Result<bool, AllocError>
    ensures { IfOk result (λ c. Each (λ x y d. CaseWalks (R.pass rules.now) (case_trees x) (case_trees y) d) cs.old.items cs.new.items c) }
{
    let mut changed = false;
    for i in 0..cs.len() {
        let made = walk_case(rules, &mut cs[i])?;
        changed = changed | made;
    }
    Ok(changed)
}

#[cycle(walk)]
pub fn walk_case<R: Rules>(rules: &R, n: &mut SwitchCase) -> Result<bool, AllocError>
    ensures { IfOk result (λ c. CaseWalks (R.pass rules.now) (case_trees n.old) (case_trees n.new) c) }
{
    let test = walk_option(rules, &mut n.test)?;
    let cons = walk_part(rules, ListPlace::Case, &mut n.cons)?;
    Ok(test | cons)
}

#[cycle(walk)]
pub fn walk_loop<R: Rules>(rules: &R, n: &mut WhileStmt) -> Result<bool, AllocError>
    ensures { IfOk result (λ c. LoopWalks (R.pass rules.now) (loop_trees n.old) (loop_trees n.new) c) }
{
    let test = walk_boxed(rules, Place::Value, &mut n.test)?;
    let body = walk_boxed_stmt(rules, &mut n.body)?;
    Ok(test | body)
}

#[cycle(walk)]
pub fn walk_boxed_for<R: Rules>(rules: &R, n: &mut Box<ForStmt>) -> Result<bool, AllocError>
    ensures { IfOk result (λ c. Ready (R.pass rules.now) (for_tree n.old.value) (for_tree n.new.value) c) }
{
    walk_for(rules, n)
}

#[cycle(walk)]
pub fn walk_for<R: Rules>(rules: &R, n: &mut ForStmt) -> Result<bool, AllocError>
    ensures { IfOk result (λ c. Ready (R.pass rules.now) (for_tree n.old) (for_tree n.new) c) }
{
    let init = walk_init(rules, &mut n.init)?;
    let test = walk_option(rules, &mut n.test)?;
    let update = walk_option(rules, &mut n.update)?;
    let body = walk_boxed_stmt(rules, &mut n.body)?;
    Ok(init | (test | (update | body)))
}

#[cycle(walk)]
pub fn walk_init<R: Rules>(rules: &R, i: &mut Option<VarDeclOrExpr>) -> Result<bool, AllocError>
    ensures { IfOk result (λ c. HeadWalks (R.pass rules.now) (option_init_tree expr_tree i.old) (option_init_tree expr_tree i.new) c) }
{
    match i {
        None => Ok(false),
        Some(n) => {
            let made = walk_var_or_expr(rules, n)?;
            Ok(made)
        }
    }
}

#[cycle(walk)]
pub fn walk_var_or_expr<R: Rules>(rules: &R, i: &mut VarDeclOrExpr) -> Result<bool, AllocError>
    ensures { IfOk result (λ c. HeadWalks (R.pass rules.now) (init_tree expr_tree i.old) (init_tree expr_tree i.new) c) }
{
    match i {
        VarDeclOrExpr::VarDecl(n) => {
            if !rules.enters_head(n) {
                return Ok(false);
            }
            let made = walk_var(rules, n)?;
            Ok(made)
        }
        VarDeclOrExpr::Expr(n) => {
            let made = walk_boxed(rules, Place::Value, n)?;
            Ok(made)
        }
    }
}

#[cycle(walk)]
pub fn walk_var<R: Rules>(rules: &R, n: &mut VarDecl) -> Result<bool, AllocError>
    ensures { IfOk result (λ c. DeclWalks (R.pass rules.now) (var_tree expr_tree n.old) (var_tree expr_tree n.new) c) }
{
    let made = walk_declarators(rules, &mut n.decls)?;
    Ok(made)
}

#[cycle(walk)]
pub fn walk_declarators<R: Rules>(
    rules: &R,
    ds: &mut Vec<VarDeclarator>,
) -> Result<bool, AllocError>
    ensures { IfOk result (λ c. Each (DeclaratorWalks (R.pass rules.now)) ds.old.items ds.new.items c) }
{
    let mut changed = false;
    for i in 0..ds.len() {
        let made = walk_declarator(rules, &mut ds[i])?;
        changed = changed | made;
    }
    Ok(changed)
}

#[cycle(walk)]
pub fn walk_declarator<R: Rules>(rules: &R, n: &mut VarDeclarator) -> Result<bool, AllocError>
    ensures { IfOk result (λ c. DeclaratorWalks (R.pass rules.now) n.old n.new c) }
{
    let made = walk_option(rules, &mut n.init)?;
    Ok(made)
}

/// Walks what a declaration declares.
#[cycle(walk)]
pub fn walk_decl<R: Rules>(rules: &R, d: &mut Decl) -> Result<bool, AllocError>
    ensures { IfOk result (λ c. DeclWalks (R.pass rules.now) (decl_tree d.old) (decl_tree d.new) c) }
{
    match d {
        Decl::Fn(n) => {
            let made = walk_boxed_function(rules, &mut n.function)?;
            Ok(made)
        }
        Decl::Var(n) => {
            let made = walk_var(rules, n)?;
            Ok(made)
        }
    }
}
