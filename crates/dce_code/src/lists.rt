//! Lists of statements, and of items of modules.
ghost use Rattle.std.specs.Prelude.{◌≡◌, not};
ghost use Rattle.swc_ast.specs.Modules.{import_specifier_tree, import_tree, item_tree, module_decl_tree};
ghost use Rattle.swc_ast.specs.Parts.{list_trees};
ghost use Rattle.swc_ast.specs.Views.{decl_tree, stmt_tree};
ghost use Rattle.static_proofs.specs.Names.{is_some_tree};
ghost use Rattle.stmt_like.specs.Kept.{Kept};
ghost use Rattle.tree_walk.specs.Walks.{Became};
ghost use Rattle.dce_rules.specs.Shakes.{all_go, import_goes, item_goes as tree_goes, goes_plainly, shake_pass};
ghost use Rattle.dce_code.specs.Knowledge.{shaker};
ghost use Rattle.dce_code.specs.Lists.{ListShaken, Sifted, trees};

use crate::known::Known;
use stmt_like::StmtLike;
use swc_ast::{Decl, ImportDecl, ImportSpecifier, ModuleDecl, Stmt};

/// Whether there are no statements.
#[tactic(auto, using(crate::proofs::Sifted::none_by_count))]
fn is_nothing(stmts: &[Stmt]) -> bool
    ensures { result ≡ not (is_some_tree (list_trees stmt_tree stmts.now)) }
{
    stmts.is_empty()
}

/// Whether there is a specifier.
#[tactic(auto, using(crate::proofs::Sifted::some_by_count))]
fn is_some(specifiers: &[ImportSpecifier]) -> bool
    ensures { result ≡ is_some_tree (list_trees import_specifier_tree specifiers.now) }
{
    !specifiers.is_empty()
}

impl<'a> Known<'a> {
    fn all_go(&self, specifiers: &[ImportSpecifier]) -> bool
        ensures { result ≡ all_go (shaker self.now) (list_trees import_specifier_tree specifiers.now) }
    {
        let mut left = specifiers;
        while let [s, rest @ ..] = left {
            if !self.specifier_goes(s) {
                return false;
            }
            left = rest;
        }
        true
    }

    /// Whether an import goes: all its specifiers do.
    fn import_goes(&self, n: &ImportDecl) -> bool
        ensures { result ≡ import_goes (shaker self.now) (list_trees import_specifier_tree n.now.specifiers.items) }
    {
        self.drops_imports && is_some(&n.specifiers) && self.all_go(&n.specifiers)
    }

    #[tactic(auto, using(swc_ast::proofs::Equations::forms))]
    fn decl_goes(&self, n: &Decl) -> bool
        ensures { result ≡ tree_goes (shaker self.now) (decl_tree n.now) }
    {
        match n {
            Decl::Fn(n) => self.is_free(&n.ident),
            Decl::Var(_) => false,
        }
    }

    #[tactic(auto, using(swc_ast::proofs::Equations::forms, crate::proofs::Sifted::block_goes))]
    fn stmt_goes(&self, s: &Stmt) -> bool
        ensures { result ≡ tree_goes (shaker self.now) (stmt_tree s.now) }
    {
        match s {
            Stmt::Empty(_) => true,
            Stmt::Block(n) => is_nothing(&n.stmts),
            Stmt::Return(_)
            | Stmt::Labeled(_)
            | Stmt::Break(_)
            | Stmt::Continue(_)
            | Stmt::If(_)
            | Stmt::Switch(_)
            | Stmt::Throw(_)
            | Stmt::Try(_)
            | Stmt::While(_)
            | Stmt::DoWhile(_)
            | Stmt::For(_)
            | Stmt::Expr(_) => false,
            Stmt::Decl(n) => self.decl_goes(n),
        }
    }

    /// Whether an item goes from its list: a function whose name goes, an import all of whose specifiers do, an empty
    /// statement and an empty block.
    #[tactic(auto, using(crate::proofs::Items::same_tree, crate::proofs::Items::declared_tree, crate::proofs::Items::no_item))]
    fn item_goes<T: StmtLike>(&self, item: &T) -> bool
        ensures { result ≡ tree_goes (shaker self.now) (item_tree (T.item item.now)) }
    {
        if let Some(s) = item.as_stmt() {
            return self.stmt_goes(s);
        }
        match item.as_module_decl() {
            Some(n) => self.module_decl_goes(n),
            None => false,
        }
    }

    fn module_decl_goes(&self, n: &ModuleDecl) -> bool
        ensures { result ≡ tree_goes (shaker self.now) (module_decl_tree n.now) }
    {
        match n {
            ModuleDecl::Import(n) => self.import_goes(n),
            ModuleDecl::ExportDecl(_)
            | ModuleDecl::ExportNamed(_)
            | ModuleDecl::ExportDefaultDecl(_)
            | ModuleDecl::ExportDefaultExpr(_) => false,
        }
    }

    /// Drops the items that go from their list. False: none goes, and the list is as it was.
    pub fn drop_items<T: StmtLike + Drop>(&self, items: &mut Vec<T>) -> bool
        ensures shaken { ListShaken (shaker self.now) result (trees T.item items.old.items) (trees T.item items.new.items) }
        ensures kept { Kept T.made items.old.items items.new.items }
    {
        let before = items.len();
        items.retain(|item| !self.item_goes(item));
        items.len() < before
    }

    fn sift_specifiers(&self, specifiers: &mut Vec<ImportSpecifier>) -> bool
        ensures { Sifted (goes_plainly (shaker self.now)) result (list_trees import_specifier_tree specifiers.old.items) (list_trees import_specifier_tree specifiers.new.items) }
    {
        let before = specifiers.len();
        specifiers.retain(|s| !self.specifier_goes(s));
        specifiers.len() < before
    }

    /// Drops the specifiers of an import that go, unless the import goes with all of them. False: it is as it was, and
    /// nothing is to do at it.
    pub fn drop_specifiers(&self, n: &mut ImportDecl) -> bool
        ensures { Became (shake_pass (shaker self.now)) result (import_tree n.old) (import_tree n.new) }
    {
        if self.import_goes(n) {
            return false;
        }
        self.sift_specifiers(&mut n.specifiers)
    }
}
