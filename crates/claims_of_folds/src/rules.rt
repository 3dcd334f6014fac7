//! What rules ask of trees, and what they make.
ghost use Rattle.std.specs.Prelude.{◌≡◌, ◌≤◌, ◌+◌, not, IfOk, [], ◌∷◌};
ghost use Rattle.swc_ast.specs.Meaning.{is_unresolved};
ghost use Rattle.swc_ast.specs.Parts.{ident_name, list_trees};
ghost use Rattle.swc_ast.specs.Views.{expr_tree, stmt_tree};
ghost use Rattle.swc_ast.specs.declared.expressions.Expr.{size-Expr};
ghost use Rattle.swc_utils.specs.Globals.{unresolved};
ghost use Rattle.pass_rules.specs.Leaves.{guarded};
ghost use Rattle.pass_places.specs.Places as places;
ghost use Rattle.branch_rules.specs.Vars.{VarsOf};
ghost use Rattle.branch_vars.specs.Names.{statements};
ghost use Rattle.branch_rules.specs.Jumps.{escapes};
ghost use Rattle.branch_jumps.specs.Aims.{kinds};

use branch_jumps::Jumps;
use std::alloc::{AllocError, Global};
use swc_ast::{Expr, Ident, Stmt};
use swc_utils::ExprCtx;

/// `branch_jumps::has_jump`
pub fn has_jump(jumps: Jumps<'_>, s: &Stmt) -> bool
    ensures { result ≡ escapes (kinds jumps.entry) (stmt_tree s.now) }
{
    branch_jumps::has_jump(jumps, s)
}

/// `branch_vars::declare_all_vars`
pub fn declare_all_vars(alloc: Global, stmts: &[Stmt]) -> Result<Option<Stmt>, AllocError>
    ensures { IfOk result (λ o. VarsOf (list_trees stmt_tree stmts.now) (statements o)) }
{
    branch_vars::declare_all_vars(alloc, stmts)
}

/// `tree_nodes::is_bound`
pub fn is_bound(ctx: &ExprCtx, name: &Ident) -> bool
    ensures { result ≡ not (is_unresolved (unresolved ctx.now) (ident_name name.now)) }
{
    tree_nodes::is_bound(ctx, name)
}

/// `pass_places::shield`
pub fn shield(alloc: Global, e: Expr) -> Result<Expr, AllocError>
    ensures tree { IfOk result (λ r. expr_tree r ≡ guarded (places.nowhere ∷ []) (places.nowhere ∷ []) (expr_tree e)) }
    ensures depth { IfOk result (λ r. size-Expr r ≤ size-Expr e + 1) }
{
    pass_places::shield(alloc, e)
}
