//! The text of a tree.
ghost use Rattle.std.specs.Prelude.{◌≡◌, [], true, string_bytes, IfOk, IfErr};
ghost use Rattle.swc_ast.specs.Modules.{module_tree, script_tree};
ghost use Rattle.swc_ast.specs.Valid.{valid};
ghost use Rattle.tree_captures.specs.Captured.{no_scope, captured};
ghost use Rattle.swc_text.specs.Refused.{Says, Refuses};
ghost use Rattle.swc_text.specs.Texts.{IsPrinted};

use crate::error::PrintError;
use std::alloc::Global;
use swc_ast::{Module, Script};
use text_printer::Layout;
use tree_captures::{Fault, first_fault, first_fault_of_script};

/// Returns the text of a module, each item on a line of its own. `Captured` has the first name in the order of the text
/// that a scope other than its own would bind; otherwise `Invalid` is returned if the module isn't valid.
pub fn print(alloc: Global, m: &Module) -> Result<String, PrintError>
    ensures printed { IfOk result (λ text. IsPrinted (module_tree m.now) (string_bytes text)) }
    ensures uncaptured { IfOk result (λ _. captured no_scope (module_tree m.now) ≡ []) }
    ensures valid { IfOk result (λ _. valid (module_tree m.now) ≡ true) }
    ensures refused { IfErr result (Refuses (module_tree m.now)) }
{
    printed(alloc, m, Layout::Spaced)
}

/// Returns the text of a module without the white space and the semicolons that reading doesn't need, with the quotes that need
/// fewer escapes. It has no line break but those in templates, and no `</script`. Errors are those of `print`.
pub fn print_compact(alloc: Global, m: &Module) -> Result<String, PrintError>
    ensures printed { IfOk result (λ text. IsPrinted (module_tree m.now) (string_bytes text)) }
    ensures uncaptured { IfOk result (λ _. captured no_scope (module_tree m.now) ≡ []) }
    ensures valid { IfOk result (λ _. valid (module_tree m.now) ≡ true) }
    ensures refused { IfErr result (Refuses (module_tree m.now)) }
{
    printed(alloc, m, Layout::Compact)
}

/// The text of a module in a layout.
#[tactic(auto, using(crate::proofs::Refused::uncaptured, crate::proofs::Refused::sound, crate::proofs::Refused::refused))]
fn printed(alloc: Global, m: &Module, layout: Layout) -> Result<String, PrintError>
    ensures printed { IfOk result (λ text. IsPrinted (module_tree m.now) (string_bytes text)) }
    ensures uncaptured { IfOk result (λ _. captured no_scope (module_tree m.now) ≡ []) }
    ensures valid { IfOk result (λ _. valid (module_tree m.now) ≡ true) }
    ensures refused { IfErr result (Refuses (module_tree m.now)) }
{
    if let Some(fault) = first_fault(alloc, m)? {
        return Err(refusal(alloc, fault));
    }
    Ok(text_printer::print(alloc, m, layout)?)
}

/// Returns the text of a script, as `print` does for a module.
pub fn print_script(alloc: Global, s: &Script) -> Result<String, PrintError>
    ensures printed { IfOk result (λ text. IsPrinted (script_tree s.now) (string_bytes text)) }
    ensures uncaptured { IfOk result (λ _. captured no_scope (script_tree s.now) ≡ []) }
    ensures valid { IfOk result (λ _. valid (script_tree s.now) ≡ true) }
    ensures refused { IfErr result (Refuses (script_tree s.now)) }
{
    printed_script(alloc, s, Layout::Spaced)
}

/// Returns the text of a script, as `print_compact` does for a module.
pub fn print_script_compact(alloc: Global, s: &Script) -> Result<String, PrintError>
    ensures printed { IfOk result (λ text. IsPrinted (script_tree s.now) (string_bytes text)) }
    ensures uncaptured { IfOk result (λ _. captured no_scope (script_tree s.now) ≡ []) }
    ensures valid { IfOk result (λ _. valid (script_tree s.now) ≡ true) }
    ensures refused { IfErr result (Refuses (script_tree s.now)) }
{
    printed_script(alloc, s, Layout::Compact)
}

/// The text of a script in a layout.
#[tactic(auto, using(crate::proofs::Refused::uncaptured, crate::proofs::Refused::sound, crate::proofs::Refused::refused))]
fn printed_script(alloc: Global, s: &Script, layout: Layout) -> Result<String, PrintError>
    ensures printed { IfOk result (λ text. IsPrinted (script_tree s.now) (string_bytes text)) }
    ensures uncaptured { IfOk result (λ _. captured no_scope (script_tree s.now) ≡ []) }
    ensures valid { IfOk result (λ _. valid (script_tree s.now) ≡ true) }
    ensures refused { IfErr result (Refuses (script_tree s.now)) }
{
    if let Some(fault) = first_fault_of_script(alloc, s)? {
        return Err(refusal(alloc, fault));
    }
    Ok(text_printer::print_script(alloc, s, layout)?)
}

/// What is told of a fault.
fn refusal(alloc: Global, fault: Fault<'_>) -> PrintError
    ensures { Says fault.entry result }
{
    match fault {
        Fault::Captured(name) => match String::from_str(alloc, &name.sym) {
            Ok(name) => PrintError::Captured { name },
            Err(_) => PrintError::OutOfMemory,
        },
        Fault::Invalid => PrintError::Invalid,
    }
}
