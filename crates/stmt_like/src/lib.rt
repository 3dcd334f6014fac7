//! Statements, and items of modules, as what may stand in a list of statements.
#![tactic(auto)]

ghost use Rattle.std.specs.Prelude.{◌≡◌, Ok, ok_or, option_copied, refl};
ghost use Rattle.stmt_like.specs.Items.{statement_of, declaration_of};
ghost use Rattle.swc_ast.specs.declared.statements.Stmt.{Stmt as Statement};
ghost use Rattle.swc_ast.specs.declared.modules.ModuleItem.{ModuleItem as Item};
ghost use Rattle.swc_ast.specs.declared.modules.ModuleItem.TheVariants as items;

use swc_ast::{ModuleDecl, ModuleItem, Stmt};

/// A statement or an item of a module.
pub trait StmtLike: Sized {
    /// The item of a module that it stands for.
    ghost item: { Self → Item };

    /// A statement as one.
    ghost made: { Statement → Self };

    /// A statement as one.
    fn from(s: Stmt) -> Self
        ensures { result ≡ made s };

    /// The statement that it is; where it is a module declaration, it is given back.
    fn try_into_stmt(self) -> Result<Stmt, Self>
        ensures { result ≡ ok_or (statement_of (item self)) self };

    /// The statement that it is, if it is one.
    fn as_stmt(&self) -> Option<&Stmt>
        ensures { option_copied result ≡ statement_of (item self.now) };

    /// The module declaration that it is, if it is no statement.
    fn as_module_decl(&self) -> Option<&ModuleDecl>
        ensures { option_copied result ≡ declaration_of (item self.now) };

    /// It stands for the statement that it is made of.
    ghost made_is: { (s : Statement) → item (made s) ≡ items.Stmt s };
}

impl StmtLike for Stmt {
    ghost item = { items.Stmt };

    ghost made = { λ s. s };

    fn from(s: Stmt) -> Stmt {
        s
    }

    fn try_into_stmt(self) -> Result<Stmt, Stmt> {
        Ok(self)
    }

    fn as_stmt(&self) -> Option<&Stmt> {
        Some(self)
    }

    fn as_module_decl(&self) -> Option<&ModuleDecl> {
        None
    }

    ghost made_is = { λ s. refl };
}

impl StmtLike for ModuleItem {
    ghost item = { λ x. x };

    ghost made = { items.Stmt };

    fn from(s: Stmt) -> ModuleItem {
        ModuleItem::Stmt(s)
    }

    fn try_into_stmt(self) -> Result<Stmt, ModuleItem> {
        match self {
            ModuleItem::Stmt(s) => Ok(s),
            ModuleItem::ModuleDecl(n) => Err(ModuleItem::ModuleDecl(n)),
        }
    }

    fn as_stmt(&self) -> Option<&Stmt> {
        match self {
            ModuleItem::Stmt(s) => Some(s),
            ModuleItem::ModuleDecl(_) => None,
        }
    }

    fn as_module_decl(&self) -> Option<&ModuleDecl> {
        match self {
            ModuleItem::Stmt(_) => None,
            ModuleItem::ModuleDecl(n) => Some(n),
        }
    }

    ghost made_is = { λ s. refl };
}

/// A statement, as an item and back: the statement that it was.
pub fn there_and_back<T: StmtLike>(s: Stmt) -> Result<Stmt, T>
    ensures { result ≡ Ok s }
{
    T::from(s).try_into_stmt()
}
