//! Whether a tree is resolved.
ghost use Rattle.std.specs.Prelude.{◌≡◌, ◌↔◌, IsTrue, IfOk, IfErr};
ghost use Rattle.swc_ast.specs.declared.errors.PassError.TheVariants.{OutOfMemory};
ghost use Rattle.swc_ast.specs.Core.{IsCore};
ghost use Rattle.swc_ast.specs.Marks.{mark_number};
ghost use Rattle.swc_ast.specs.Modules.{module_tree, script_tree};
ghost use Rattle.swc_ast.specs.Resolved.{IsResolved};
ghost use Rattle.swc_ast.specs.Views.{expr_tree};
ghost use Rattle.tree_visit.specs.Nodes.{node_tree};
ghost use Rattle.swc_resolved.specs.Asked.{IsAsked};

use crate::jumps::Targets;
use crate::names::Taken;
use crate::walk::is_own_good;
use static_proofs::laws;
use std::alloc::{AllocError, Global};
use swc_ast::{Expr, Mark, Module, PassError, Script};
use tree_visit::Node;

/// Returns whether a module is resolved for a mark: each name is bound by at most one scope, no unresolved
/// name is bound, each jump has a target, no body declares the text of a parameter beside a
/// default, and what is exported by name is bound by the module's own scope. Fails if memory runs
/// out.
pub fn is_resolved(alloc: Global, m: &Module, unresolved_mark: Mark) -> Result<bool, PassError>
    ensures answer { IfOk result (λ b. IsTrue b ↔ IsResolved (mark_number unresolved_mark) (module_tree m.now)) }
    ensures error { IfErr result (λ e. e ≡ OutOfMemory) }
{
    let answer = is_asked(Node::Module(m), false, unresolved_mark, alloc)?;
    Ok(answer)
}

/// The same for a script, which has no exports.
pub fn is_script_resolved(
    alloc: Global,
    s: &Script,
    unresolved_mark: Mark,
) -> Result<bool, PassError>
    ensures answer { IfOk result (λ b. IsTrue b ↔ IsResolved (mark_number unresolved_mark) (script_tree s.now)) }
    ensures error { IfErr result (λ e. e ≡ OutOfMemory) }
{
    let answer = is_asked(Node::Script(s), false, unresolved_mark, alloc)?;
    Ok(answer)
}

/// Returns whether a module is in the core and resolved for a mark, in one walk. Fails if memory runs out.
pub fn is_core_and_resolved(
    alloc: Global,
    m: &Module,
    unresolved_mark: Mark,
) -> Result<bool, PassError>
    ensures answer { IfOk result (λ b. IsTrue b ↔ IsCore (module_tree m.now) × IsResolved (mark_number unresolved_mark) (module_tree m.now)) }
    ensures error { IfErr result (λ e. e ≡ OutOfMemory) }
{
    laws();
    let answer = is_asked(Node::Module(m), true, unresolved_mark, alloc)?;
    Ok(answer)
}

/// The same for a script, which has no exports.
pub fn is_script_core_and_resolved(
    alloc: Global,
    s: &Script,
    unresolved_mark: Mark,
) -> Result<bool, PassError>
    ensures answer { IfOk result (λ b. IsTrue b ↔ IsCore (script_tree s.now) × IsResolved (mark_number unresolved_mark) (script_tree s.now)) }
    ensures error { IfErr result (λ e. e ≡ OutOfMemory) }
{
    laws();
    let answer = is_asked(Node::Script(s), true, unresolved_mark, alloc)?;
    Ok(answer)
}

/// Returns the same of an expression by itself. Fails if memory runs out.
pub fn is_expr_core_and_resolved(
    alloc: Global,
    e: &Box<Expr>,
    unresolved_mark: Mark,
) -> Result<bool, PassError>
    ensures answer { IfOk result (λ b. IsTrue b ↔ IsCore (expr_tree e.now.value) × IsResolved (mark_number unresolved_mark) (expr_tree e.now.value)) }
    ensures error { IfErr result (λ e. e ≡ OutOfMemory) }
{
    let answer = is_asked(Node::Expr(e), true, unresolved_mark, alloc)?;
    Ok(answer)
}

/// Whether a tree is resolved, and valid and core node by node where this is asked for.
#[tactic(auto, using(crate::proofs::Verdict::badly_placed))]
fn is_asked(
    n: Node<'_>,
    core_too: bool,
    unresolved_mark: Mark,
    alloc: Global,
) -> Result<bool, AllocError>
    ensures { IfOk result (λ b. IsTrue b ↔ IsAsked core_too (mark_number unresolved_mark) (node_tree n.entry)) }
{
    let opened = n.open();
    let none = Targets::none();
    if !is_own_good(opened.kind, opened.children, core_too, &none, alloc)? {
        return Ok(false);
    }
    let mut taken = Taken::new(unresolved_mark, alloc);
    let is_bound = taken.bind_named(opened.kind, opened.children, core_too, alloc)?;
    if !is_bound {
        return Ok(false);
    }
    if !taken.own_exports_bound(opened.kind, opened.children, unresolved_mark) {
        return Ok(false);
    }
    let passes = taken.walk_below(opened.kind, opened.children, core_too, &none, alloc)?;
    Ok(passes)
}
