//! Which statements end their list, and which declare functions.
ghost use Rattle.std.specs.Prelude.{◌≡◌};
ghost use Rattle.swc_ast.specs.Statements.{break_tree};
ghost use Rattle.swc_ast.specs.Views.{decl_tree, stmt_tree};
ghost use Rattle.swc_ast.specs.Weight.{is_stopper};
ghost use Rattle.branch_rules.specs.Switches as rules;
ghost use Rattle.branch_switch.specs.Kept.{declares_function};
ghost use Rattle.branch_switch.specs.Sorts as sorts;

use swc_ast::{BreakStmt, Decl, Stmt};

/// What a statement is to the list where it stands.
#[derive(Clone, Copy, Debug, PartialEq, Eq)]
pub(crate) enum Sort {
    /// `break` without a label.
    Break,
    /// Another statement that ends its list whenever it runs.
    Stopper,
    /// The declaration of a function.
    Function,
    Other,
}

impl Sort {
    /// Whether it is a `break` without a label.
    pub(crate) fn breaks(self) -> bool
        ensures { result ≡ sorts.breaks self }
    {
        match self {
            Sort::Break => true,
            Sort::Stopper | Sort::Function | Sort::Other => false,
        }
    }

    /// Whether it ends its list.
    pub(crate) fn stops(self) -> bool
        ensures { result ≡ sorts.stops self }
    {
        match self {
            Sort::Break | Sort::Stopper => true,
            Sort::Function | Sort::Other => false,
        }
    }

    /// Whether it declares a function.
    pub(crate) fn declares(self) -> bool
        ensures { result ≡ sorts.declares self }
    {
        match self {
            Sort::Function => true,
            Sort::Break | Sort::Stopper | Sort::Other => false,
        }
    }
}

fn sort_of_break(n: &BreakStmt) -> Sort
    ensures breaks { rules.is_break (break_tree n.now) ≡ sorts.breaks result }
    ensures stops { is_stopper (break_tree n.now) ≡ sorts.stops result }
    ensures declares { declares_function (break_tree n.now) ≡ sorts.declares result }
{
    match &n.label {
        Some(_) => Sort::Stopper,
        None => Sort::Break,
    }
}

#[tactic(auto, using(swc_ast::proofs::Equations::forms))]
fn sort_of_decl(n: &Decl) -> Sort
    ensures breaks { rules.is_break (decl_tree n.now) ≡ sorts.breaks result }
    ensures stops { is_stopper (decl_tree n.now) ≡ sorts.stops result }
    ensures declares { declares_function (decl_tree n.now) ≡ sorts.declares result }
{
    match n {
        Decl::Fn(_) => Sort::Function,
        Decl::Var(_) => Sort::Other,
    }
}

/// What a statement is to its list.
#[tactic(auto, using(swc_ast::proofs::Equations::forms))]
pub(crate) fn sort_of(s: &Stmt) -> Sort
    ensures breaks { rules.is_break (stmt_tree s.now) ≡ sorts.breaks result }
    ensures stops { is_stopper (stmt_tree s.now) ≡ sorts.stops result }
    ensures declares { declares_function (stmt_tree s.now) ≡ sorts.declares result }
{
    match s {
        Stmt::Break(n) => sort_of_break(n),
        Stmt::Decl(n) => sort_of_decl(n),
        Stmt::Return(_) | Stmt::Throw(_) | Stmt::Continue(_) => Sort::Stopper,
        Stmt::Block(_)
        | Stmt::Empty(_)
        | Stmt::Labeled(_)
        | Stmt::If(_)
        | Stmt::Switch(_)
        | Stmt::Try(_)
        | Stmt::While(_)
        | Stmt::DoWhile(_)
        | Stmt::For(_)
        | Stmt::Expr(_) => Sort::Other,
    }
}
