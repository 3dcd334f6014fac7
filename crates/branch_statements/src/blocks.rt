//! Blocks and labels.
ghost use Rattle.std.specs.Prelude.{◌≡◌, ℕ, true, IsNone, IsTrue};
ghost use Rattle.swc_ast.specs.Parts.{list_trees, word_text};
ghost use Rattle.swc_ast.specs.Statements.{block_tree, labeled_tree};
ghost use Rattle.swc_ast.specs.Views.{decl_tree, stmt_tree};
ghost use Rattle.branch_rules.specs.Removes.{Rests};
ghost use Rattle.branch_rules.specs.Statements as rules;
ghost use Rattle.branch_rules.specs.Turns.{Turns};
ghost use Rattle.branch_statements.specs.Arms.{arms};
ghost use Rattle.branch_statements.specs.Shapes.{Idles, OneShallow};

use branch_parts::is_plain;
use swc_ast::{BlockStmt, Decl, EmptyStmt, IdentName, IfStmt, LabeledStmt, Stmt};

/// A declaration is flat.
#[tactic(auto, using(swc_ast::proofs::Equations::forms))]
fn is_flat_decl(n: &Decl) -> bool
    ensures answer { result ≡ rules.is_flat (decl_tree n.now) }
    ensures holds { result ≡ true }
{
    match n {
        Decl::Fn(_) | Decl::Var(_) => true,
    }
}

/// Whether no other statement stands in a statement, or only those of its list.
#[tactic(auto, using(swc_ast::proofs::Equations::forms))]
fn is_flat(s: &Stmt) -> bool
    ensures { result ≡ rules.is_flat (stmt_tree s.now) }
{
    match s {
        Stmt::Decl(n) => is_flat_decl(n),
        Stmt::Block(_) | Stmt::Labeled(_) | Stmt::Switch(_) | Stmt::Expr(_) => true,
        Stmt::Empty(_)
        | Stmt::Return(_)
        | Stmt::Break(_)
        | Stmt::Continue(_)
        | Stmt::If(_)
        | Stmt::Throw(_)
        | Stmt::Try(_)
        | Stmt::While(_)
        | Stmt::DoWhile(_)
        | Stmt::For(_) => false,
    }
}

/// Whether the arms of a condition are flat.
fn has_flat_arms(n: &IfStmt) -> bool
    ensures { result ≡ rules.all_flat (arms n.now) }
{
    if !is_flat(&n.cons) {
        return false;
    }
    match &n.alt {
        Some(alt) => is_flat(alt),
        None => true,
    }
}

/// Whether other statements stand in a statement at most one deep.
#[tactic(auto, using(swc_ast::proofs::Equations::forms))]
fn is_shallow(s: &Stmt) -> bool
    ensures { result ≡ rules.is_shallow (stmt_tree s.now) }
{
    match s {
        Stmt::If(n) => has_flat_arms(n),
        Stmt::While(n) => is_flat(&n.body),
        Stmt::DoWhile(n) => is_flat(&n.body),
        Stmt::For(n) => is_flat(&n.body),
        Stmt::Decl(n) => is_flat_decl(n),
        Stmt::Block(_)
        | Stmt::Empty(_)
        | Stmt::Return(_)
        | Stmt::Labeled(_)
        | Stmt::Break(_)
        | Stmt::Continue(_)
        | Stmt::Switch(_)
        | Stmt::Throw(_)
        | Stmt::Try(_)
        | Stmt::Expr(_) => true,
    }
}

/// Whether a statement may stand in the place of a block round it.
fn opens(s: &Stmt) -> bool
    ensures plain { IsTrue result → rules.is_plain (stmt_tree s.now) ≡ true }
    ensures shallow { IsTrue result → rules.is_shallow (stmt_tree s.now) ≡ true }
{
    is_plain(s) && is_shallow(s)
}

/// Whether a block has one statement, which is plain and shallow.
fn has_one_shallow(n: &BlockStmt) -> bool
    ensures { IsTrue result → OneShallow (list_trees stmt_tree n.now.stmts.items) }
{
    n.stmts.len() == 1 && opens(&n.stmts[0])
}

/// What takes the place of a block: nothing of an empty one, and the statement of one that has no other, if it declares
/// neither `let`, `const` nor a function and other statements stand in it at most one deep. None at other blocks, which
/// stay as they are.
pub fn fold_block(n: &mut BlockStmt) -> Option<Stmt>
    ensures steps { (mark : ℕ) → Turns mark (block_tree stmt_tree n.old) (block_tree stmt_tree n.new) result }
    ensures finished { IsNone result → Rests (block_tree stmt_tree n.new) }
{
    if n.stmts.is_empty() {
        return Some(Stmt::Empty(EmptyStmt { span: n.span }));
    }
    if has_one_shallow(n) {
        return n.stmts.pop();
    }
    None
}

/// Whether a statement does nothing under a label: it is empty, or a `break` to the label.
#[tactic(auto, using(swc_ast::proofs::Equations::forms))]
fn is_idle(label: &IdentName, s: &Stmt) -> bool
    ensures { IsTrue result → Idles (word_text label.now) (stmt_tree s.now) }
{
    match s {
        Stmt::Empty(_) => true,
        Stmt::Break(n) => match &n.label {
            Some(target) => label.sym == target.sym,
            None => false,
        },
        _ => false,
    }
}

/// What takes the place of a labelled statement that is empty, or a `break` to the label: nothing. None at others, which
/// stay as they are.
pub fn fold_label(n: &mut LabeledStmt) -> Option<Stmt>
    ensures steps { (mark : ℕ) → Turns mark (labeled_tree stmt_tree n.old) (labeled_tree stmt_tree n.new) result }
    ensures finished { IsNone result → Rests (labeled_tree stmt_tree n.new) }
{
    if is_idle(&n.label, &n.body) {
        return Some(Stmt::Empty(EmptyStmt { span: n.span }));
    }
    None
}
