//! Declarations of variables.
ghost use Rattle.std.specs.Prelude.{◌≡◌, IfOk, not};
ghost use Rattle.swc_ast.specs.Parts.{list_trees};
ghost use Rattle.swc_ast.specs.Statements.{declarator_tree, var_tree};
ghost use Rattle.swc_ast.specs.Views.{decl_tree, expr_tree, stmt_tree};
ghost use Rattle.swc_ast.specs.declared.VarDeclKind.{VarDeclKind};
ghost use Rattle.swc_ast.specs.declared.VarDeclKind.TheVariants.{Var};
ghost use Rattle.static_proofs.specs.Names.{is_some_tree};
ghost use Rattle.tree_walk.specs.Walks.{Became};
ghost use Rattle.dce_rules.specs.Left.{is_plain_value as tree_is_plain};
ghost use Rattle.dce_rules.specs.Shakes.{goes_plainly, shake_pass};
ghost use Rattle.dce_code.specs.Knowledge.{shaker};
ghost use Rattle.dce_code.specs.Left.{LeftOf};
ghost use Rattle.dce_code.specs.Lists.{Sifted};

use crate::known::Known;
use std::alloc::{AllocError, Global};
use swc_ast::{DUMMY_SP, Decl, EmptyStmt, Expr, Stmt, VarDecl, VarDeclarator};

/// What is left of a statement.
#[derive(Clone, Copy, Debug, PartialEq, Eq)]
pub(crate) enum Left {
    /// The statement as it was.
    Same,
    /// Some of it.
    Less,
    Nothing,
}

/// Whether an expression is a number, a text, a truth value or null, written out.
#[tactic(auto, using(swc_ast::proofs::Equations::forms))]
pub(crate) fn is_plain_value(e: &Expr) -> bool
    ensures { result ≡ tree_is_plain (expr_tree e.now) }
{
    match e {
        Expr::Lit(_) => true,
        Expr::Unary(_) => false,
        Expr::Call(_) => false,
        Expr::This(_)
        | Expr::Array(_)
        | Expr::Object(_)
        | Expr::Fn(_)
        | Expr::Update(_)
        | Expr::Bin(_)
        | Expr::Assign(_)
        | Expr::Member(_)
        | Expr::Cond(_)
        | Expr::New(_)
        | Expr::Seq(_)
        | Expr::Ident(_)
        | Expr::Tpl(_)
        | Expr::Arrow(_)
        | Expr::Invalid(_) => false,
    }
}

/// Whether there are no declarators.
#[tactic(auto, using(crate::proofs::Sifted::none_by_count))]
pub(crate) fn is_nothing(decls: &[VarDeclarator]) -> bool
    ensures { result ≡ not (is_some_tree (list_trees (declarator_tree expr_tree Var) decls.now)) }
{
    decls.is_empty()
}

impl<'a> Known<'a> {
    /// Whether a declarator goes once its first value is walked: it has none, or one that is written out.
    #[tactic(auto, using(crate::proofs::Declared::value_goes))]
    fn goes_plainly(&self, d: &VarDeclarator) -> bool
        ensures { result ≡ goes_plainly (shaker self.now) (declarator_tree expr_tree Var d.now) }
    {
        match &d.init {
            None => self.is_free(&d.name),
            Some(init) => is_plain_value(init) && self.is_free(&d.name),
        }
    }

    fn sift_declarators(&self, decls: &mut Vec<VarDeclarator>) -> bool
        ensures { (k : VarDeclKind) → Sifted (goes_plainly (shaker self.now)) result (list_trees (declarator_tree expr_tree k) decls.old.items) (list_trees (declarator_tree expr_tree k) decls.new.items) }
    {
        let before = decls.len();
        decls.retain(|d| !self.goes_plainly(d));
        decls.len() < before
    }

    fn shake_var(&self, n: &mut VarDecl) -> Left
        ensures { LeftOf (shaker self.now) result (var_tree expr_tree n.old) (var_tree expr_tree n.new) }
    {
        if !self.sift_declarators(&mut n.decls) {
            return Left::Same;
        }
        if is_nothing(&n.decls) {
            return Left::Nothing;
        }
        Left::Less
    }

    #[tactic(auto, using(swc_ast::proofs::Equations::forms))]
    fn shake_decl(&self, n: &mut Decl) -> Left
        ensures { LeftOf (shaker self.now) result (decl_tree n.old) (decl_tree n.new) }
    {
        match n {
            Decl::Fn(_) => Left::Same,
            Decl::Var(n) => self.shake_var(n),
        }
    }

    #[tactic(auto, using(swc_ast::proofs::Equations::forms, crate::proofs::Rested::other_rests))]
    fn shake(&self, s: &mut Stmt) -> Left
        ensures { LeftOf (shaker self.now) result (stmt_tree s.old) (stmt_tree s.new) }
    {
        match s {
            Stmt::Decl(n) => self.shake_decl(n),
            _ => Left::Same,
        }
    }

    #[tactic(auto, using(swc_ast::proofs::Equations::forms))]
    fn sift(&self, s: &mut Stmt) -> bool
        ensures { Became (shake_pass (shaker self.now)) result (stmt_tree s.old) (stmt_tree s.new) }
    {
        match self.shake(s) {
            Left::Same => false,
            Left::Less => true,
            Left::Nothing => {
                *s = Stmt::Empty(EmptyStmt { span: DUMMY_SP });
                true
            }
        }
    }

    /// Drops what goes of a declaration of variables. Where all its names are free to go, its first values are left as a
    /// statement, without those that are written out; else those declarators go whose names are free to, without a first
    /// value or with one that is written out. False: it is as it was, or another statement, and nothing is to do at it.
    /// Fails where memory is refused.
    pub fn shake_stmt(&self, alloc: Global, s: &mut Stmt) -> Result<bool, AllocError>
        ensures { IfOk result (λ changed. Became (shake_pass (shaker self.now)) changed (stmt_tree s.old) (stmt_tree s.new)) }
    {
        match self.replace(alloc, s)? {
            Some(values) => {
                *s = values;
                Ok(true)
            }
            None => Ok(self.sift(s)),
        }
    }
}
