//! The statements of cases, moved out of them.
ghost use Rattle.std.specs.Prelude.{◌≡◌, IfOk, OnOk};
ghost use Rattle.swc_ast.specs.Parts.{list_trees};
ghost use Rattle.swc_ast.specs.Scope.{joined};
ghost use Rattle.swc_ast.specs.Views.{stmt_tree};
ghost use Rattle.branch_rules.specs.Switches.{bodies_of};
ghost use Rattle.branch_switch.specs.Clauses.{clause, clauses};

use std::alloc::{AllocError, Global};
use swc_ast::{Stmt, SwitchCase};

/// Moves the statements of a case behind others.
fn push_body(case: SwitchCase, out: &mut Vec<Stmt>) -> Result<(), AllocError>
    ensures { OnOk result (list_trees stmt_tree out.new.items ≡ joined (list_trees stmt_tree out.old.items) (clause case).body) }
{
    let mut case = case;
    out.append(&mut case.cons)?;
    Ok(())
}

/// The statements of cases, in order.
pub(crate) fn bodies(alloc: Global, cases: Vec<SwitchCase>) -> Result<Vec<Stmt>, AllocError>
    ensures { IfOk result (λ r. list_trees stmt_tree r.items ≡ bodies_of (clauses cases.items)) }
{
    let mut out = Vec::new(alloc);
    for case in cases {
        push_body(case, &mut out)?;
    }
    Ok(out)
}
