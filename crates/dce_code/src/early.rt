//! Declarations of variables, before their first values are walked.
ghost use Rattle.std.specs.Prelude.{◌≡◌, ◌≤◌, filter, length, nat_lt, not};
ghost use Rattle.swc_ast.specs.Statements.{declarator_tree, var_tree};
ghost use Rattle.swc_ast.specs.Views.{decl_tree, expr_tree, stmt_tree};
ghost use Rattle.swc_ast.specs.declared.VarDeclKind.TheVariants.{Var as Vars};
ghost use Rattle.swc_ast.specs.declared.declarations.Decl.{size-Decl};
ghost use Rattle.swc_ast.specs.declared.declarations.Decl.TheVariants.{Var};
ghost use Rattle.swc_ast.specs.declared.statements.Stmt.{size-Stmt};
ghost use Rattle.tree_walk.specs.Walks.{Opened};
ghost use Rattle.dce_rules.specs.Shakes.{goes_early as tree_goes, shake_pass};
ghost use Rattle.dce_code.specs.Knowledge.{shaker};
ghost use Rattle.dce_code.specs.Left.{EarlyLeft};

use crate::declarations::{Left, is_nothing};
use crate::known::Known;
use swc_ast::{DUMMY_SP, Decl, EmptyStmt, Stmt, VarDecl, VarDeclarator};
use swc_utils::ExprExt;

impl<'a> Known<'a> {
    /// Whether a declarator goes before its first value is walked: it has none, or a pure one.
    #[tactic(auto, using(crate::proofs::Opening::value_goes_early))]
    fn goes_early(&self, d: &VarDeclarator) -> bool
        ensures { result ≡ tree_goes (shaker self.now) (declarator_tree expr_tree Vars d.now) }
    {
        match &d.init {
            None => self.is_free(&d.name),
            Some(init) => self.is_free(&d.name) && !init.may_have_side_effects(&self.ctx),
        }
    }

    fn sift_early(&self, decls: &mut Vec<VarDeclarator>) -> bool
        ensures kept { decls.new.items ≡ filter (λ d. not (tree_goes (shaker self.now) (declarator_tree expr_tree Vars d))) decls.old.items }
        ensures fewer { result ≡ nat_lt (length decls.new.items) (length decls.old.items) }
    {
        let before = decls.len();
        decls.retain(|d| !self.goes_early(d));
        decls.len() < before
    }

    fn open_var(&self, n: &mut VarDecl) -> Left
        ensures opens { EarlyLeft (shaker self.now) result (var_tree expr_tree n.old) (var_tree expr_tree n.new) }
        ensures no_deeper { size-Decl (Var n.new) ≤ size-Decl (Var n.old) }
    {
        if !self.sift_early(&mut n.decls) {
            return Left::Same;
        }
        if is_nothing(&n.decls) {
            return Left::Nothing;
        }
        Left::Less
    }

    #[tactic(auto, using(swc_ast::proofs::Equations::forms))]
    fn open_decl(&self, n: &mut Decl) -> Left
        ensures opens { EarlyLeft (shaker self.now) result (decl_tree n.old) (decl_tree n.new) }
        ensures no_deeper { size-Decl n.new ≤ size-Decl n.old }
    {
        match n {
            Decl::Fn(_) => Left::Same,
            Decl::Var(n) => self.open_var(n),
        }
    }

    #[tactic(auto, using(swc_ast::proofs::Equations::forms, crate::proofs::Depths::declared_size))]
    fn open(&self, s: &mut Stmt) -> Left
        ensures opens { EarlyLeft (shaker self.now) result (stmt_tree s.old) (stmt_tree s.new) }
        ensures no_deeper { size-Stmt s.new ≤ size-Stmt s.old }
    {
        match s {
            Stmt::Decl(n) => self.open_decl(n),
            _ => Left::Same,
        }
    }

    /// Drops the declarators of a declaration of variables that go before first values are walked: those of names that are
    /// free to, without a first value or with a pure one. False: it is as it was, or another statement.
    #[tactic(auto, using(swc_ast::proofs::Equations::forms))]
    pub fn open_stmt(&self, s: &mut Stmt) -> bool
        ensures opens { Opened (shake_pass (shaker self.now)) result (stmt_tree s.old) (stmt_tree s.new) }
        ensures no_deeper { size-Stmt s.new ≤ size-Stmt s.old }
    {
        match self.open(s) {
            Left::Same => false,
            Left::Less => true,
            Left::Nothing => {
                *s = Stmt::Empty(EmptyStmt { span: DUMMY_SP });
                true
            }
        }
    }
}
