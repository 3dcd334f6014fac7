//! First values of declarations all of whose names go.
ghost use Rattle.std.specs.Prelude.{◌≡◌, All, IfOk, OnOk, [], ◌∷◌};
ghost use Rattle.swc_ast.specs.Parts.{list_trees};
ghost use Rattle.swc_ast.specs.Statements.{declarator_tree, var_tree};
ghost use Rattle.swc_ast.specs.Tree as tree;
ghost use Rattle.swc_ast.specs.Tree.{node, ε, ◌⊳◌};
ghost use Rattle.swc_ast.specs.Views.{decl_tree, expr_tree, stmt_tree};
ghost use Rattle.swc_ast.specs.declared.VarDeclKind.{VarDeclKind};
ghost use Rattle.swc_ast.specs.declared.VarDeclKind.TheVariants.{Var};
ghost use Rattle.dce_rules.specs.Shakes.{Leaves, Shaker, as_statement as tree_as_statement};
ghost use Rattle.dce_code.specs.Knowledge.{shaker};
ghost use Rattle.dce_code.specs.Values.{Free, Replaced, ValueBehind, all_free};

use crate::declarations::{is_nothing, is_plain_value};
use crate::known::Known;
use std::alloc::{AllocError, Global};
use std::mem;
use swc_ast::{Decl, EmptyStmt, Expr, ExprStmt, SeqExpr, Span, Stmt, VarDecl, VarDeclarator};

/// Adds the first value of a declarator, if it has one that is not written out.
fn push_value(d: VarDeclarator, out: &mut Vec<Expr>) -> Result<(), AllocError>
    ensures { OnOk result ((S : Shaker) (k : VarDeclKind) → Free S d → ValueBehind S (declarator_tree expr_tree k d) (list_trees expr_tree out.old.items) (list_trees expr_tree out.new.items)) }
{
    let VarDeclarator { init, .. } = d;
    match init {
        None => Ok(()),
        Some(init) => {
            let value = Box::into_inner(init);
            if is_plain_value(&value) {
                return Ok(());
            }
            out.push(value)?;
            Ok(())
        }
    }
}

/// The first values of declarators, without those that are written out.
fn first_values(alloc: Global, decls: Vec<VarDeclarator>) -> Result<Vec<Expr>, AllocError>
    ensures { IfOk result (λ values. (S : Shaker) (k : VarDeclKind) → All (Free S) decls.items → Leaves S (list_trees (declarator_tree expr_tree k) decls.items) (list_trees expr_tree values.items)) }
{
    let mut out = Vec::new(alloc);
    for d in decls {
        push_value(d, &mut out)?;
    }
    Ok(out)
}

fn expr_statement(alloc: Global, span: Span, e: Expr) -> Result<Stmt, AllocError>
    ensures { IfOk result (λ s. stmt_tree s ≡ node tree.ExprStmt (span ∷ []) (expr_tree e ⊳ ε)) }
{
    let expr = Box::new(alloc, e)?;
    Ok(Stmt::Expr(ExprStmt { span, expr }))
}

/// Expressions as one statement: none as an empty statement, more than one as a sequence.
#[tactic(auto, using(swc_ast::proofs::Equations::forms, crate::proofs::Valued::sequence_statement))]
fn as_statement(alloc: Global, span: Span, exprs: Vec<Expr>) -> Result<Stmt, AllocError>
    ensures { IfOk result (λ s. stmt_tree s ≡ tree_as_statement (span ∷ []) (span ∷ []) (list_trees expr_tree exprs.items)) }
{
    let mut exprs = exprs;
    if exprs.len() > 1 {
        let s = expr_statement(alloc, span, Expr::Seq(SeqExpr { span, exprs }))?;
        return Ok(s);
    }
    match exprs.pop() {
        Some(e) => expr_statement(alloc, span, e),
        None => Ok(Stmt::Empty(EmptyStmt { span })),
    }
}

impl<'a> Known<'a> {
    /// Whether all names of some declarators go.
    fn all_free(&self, decls: &[VarDeclarator]) -> bool
        ensures { result ≡ all_free (shaker self.now) (list_trees (declarator_tree expr_tree Var) decls.now) }
    {
        let mut left = decls;
        while let [d, rest @ ..] = left {
            if !self.is_free(&d.name) {
                return false;
            }
            left = rest;
        }
        true
    }

    /// The statement that takes a declaration's place, all of whose names go.
    #[tactic(auto, using(crate::proofs::Valued::declaration_replaced))]
    fn replace_var(&self, alloc: Global, n: &mut VarDecl) -> Result<Option<Stmt>, AllocError>
        ensures { IfOk result (λ o. Replaced (shaker self.now) o (var_tree expr_tree n.old) (var_tree expr_tree n.new)) }
    {
        if is_nothing(&n.decls) {
            return Ok(None);
        }
        if !self.all_free(&n.decls) {
            return Ok(None);
        }
        let decls = mem::replace(&mut n.decls, Vec::new(alloc));
        let values = first_values(alloc, decls)?;
        let s = as_statement(alloc, n.span, values)?;
        Ok(Some(s))
    }

    #[tactic(auto, using(swc_ast::proofs::Equations::forms))]
    fn replace_decl(&self, alloc: Global, n: &mut Decl) -> Result<Option<Stmt>, AllocError>
        ensures { IfOk result (λ o. Replaced (shaker self.now) o (decl_tree n.old) (decl_tree n.new)) }
    {
        match n {
            Decl::Fn(_) => Ok(None),
            Decl::Var(n) => self.replace_var(alloc, n),
        }
    }

    /// The statement that takes the place of a declaration all of whose names go: its first values, without those that are
    /// written out. None: it is no such declaration, and is as it was. Fails where memory is refused.
    #[tactic(auto, using(swc_ast::proofs::Equations::forms))]
    pub(crate) fn replace(&self, alloc: Global, s: &mut Stmt) -> Result<Option<Stmt>, AllocError>
        ensures { IfOk result (λ o. Replaced (shaker self.now) o (stmt_tree s.old) (stmt_tree s.new)) }
    {
        match s {
            Stmt::Decl(n) => self.replace_decl(alloc, n),
            _ => Ok(None),
        }
    }
}
