//! What a pass puts in places.
ghost use Rattle.std.specs.Prelude.{◌≡◌, IfOk};
ghost use Rattle.swc_ast.specs.Modules.{export_specifier_tree};
ghost use Rattle.swc_ast.specs.Parts.{ident_tree};
ghost use Rattle.swc_ast.specs.Statements.{declarator_tree};
ghost use Rattle.swc_ast.specs.Views.{expr_tree};
ghost use Rattle.tree_put.specs.Answers.{answer_of};
ghost use Rattle.tree_put.specs.Puts.{Puts as PutsSpec};
ghost use Rattle.tree_put.specs.declared.rules.Spot.TheVariants.{Property};
ghost use Rattle.tree_put.specs.Scopes.{scope_label, scope_trees};

use std::alloc::AllocError;
use swc_ast::{
    ArrowExpr, CatchClause, ExportNamedSpecifier, Expr, ForStmt, Function, Ident, ModuleItem, Stmt,
    SwitchCase, VarDeclKind, VarDeclarator,
};

/// Where an expression stands.
#[derive(Clone, Copy, Debug, PartialEq, Eq)]
pub enum Spot {
    /// Anywhere but where the others are.
    Here,
    /// What a call calls.
    Callee,
    /// The operand of `typeof`.
    Operand,
    /// A property that is only a name.
    Property,
}

/// What is done at an expression, before its parts are walked.
#[derive(Drop)]
pub enum Put {
    /// Its parts are walked.
    Enter,
    /// It stays, and so do its parts.
    Stay,
    /// Another takes its place, and is not walked.
    Become(Expr),
}

/// A scope, and what stands in it.
#[derive(Clone, Copy)]
pub enum Scope<'a> {
    /// A function that is an expression or exported as the default, with its name, if any.
    Function(&'a Option<Ident>, &'a Box<Function>),
    /// A function that is declared.
    Declared(&'a Ident, &'a Box<Function>),
    /// A method, behind its key.
    Method(&'a Box<Function>),
    Arrow(&'a ArrowExpr),
    Block(&'a Vec<Stmt>),
    Body(&'a Vec<Stmt>),
    Case(&'a Vec<Stmt>),
    Script(&'a Vec<Stmt>),
    Module(&'a Vec<ModuleItem>),
    /// The cases of a `switch`, behind what is compared.
    Cases(&'a Vec<SwitchCase>),
    Handler(&'a CatchClause),
    For(&'a ForStmt),
}

/// What a pass puts in places: pure functions on trees, and a state that is carried in the order of the text. A pass that
/// carries nothing has a state that its hooks leave as it is.
pub trait Puts {
    ghost State: { Type 0 };

    ghost puts: { PutsSpec State };

    ghost state: { Self → State };

    /// An expression, before its parts are walked. A member or a name that is called, and a name under `typeof`, comes too.
    fn expression(&mut self, spot: Spot, e: &Expr) -> Result<Put, AllocError>
        ensures { IfOk result (λ a. puts.expression (state self.old) spot (expr_tree e.now) ≡ (answer_of a, state self.new)) };

    /// A property that is only a name.
    fn property(&mut self, n: &Ident) -> Result<Put, AllocError>
        ensures { IfOk result (λ a. puts.expression (state self.old) Property (ident_tree n.now) ≡ (answer_of a, state self.new)) };

    /// A scope opens.
    fn open(&mut self, scope: Scope<'_>) -> Result<(), AllocError>
        ensures { IfOk result (λ u. puts.opens (state self.old) (scope_label scope.entry) (scope_trees scope.entry) ≡ state self.new) };

    /// The scope that was opened last closes.
    fn close(&mut self) -> Result<(), AllocError>
        ensures { IfOk result (λ u. puts.closes (state self.old) ≡ state self.new) };

    /// A declarator, once its first value is walked.
    fn declare(&mut self, kind: VarDeclKind, n: &VarDeclarator) -> Result<(), AllocError>
        ensures { IfOk result (λ u. puts.declares (state self.old) (declarator_tree expr_tree kind n.now) ≡ state self.new) };

    /// A name that is exported.
    fn export(&mut self, n: &mut ExportNamedSpecifier) -> Result<(), AllocError>
        ensures { IfOk result (λ u. puts.exports (state self.old) (export_specifier_tree n.old) ≡ (export_specifier_tree n.new, state self.new)) };
}
