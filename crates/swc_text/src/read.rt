//! Reading a text.
ghost use Rattle.std.specs.Prelude.{◌≡◌, ◌≢◌, ◌≤◌, ◌^◌, ◌↔◌, true, length, IfOk, IfErr};
ghost use Rattle.std.specs.Result.{IsErrOf};
ghost use Rattle.swc_ast.specs.Core.{IsCore};
ghost use Rattle.swc_ast.specs.Marks.{mark_number};
ghost use Rattle.swc_ast.specs.Modules.{module_tree, script_tree};
ghost use Rattle.swc_ast.specs.Resolved.{IsResolved};
ghost use Rattle.swc_ast.specs.Valid.{valid};
ghost use Rattle.swc_ast.specs.Views.{expr_tree};
ghost use Rattle.swc_text.specs.Texts.{IsReadModule, IsReadScript};
ghost use Rattle.swc_text.specs.declared.error.ReadError.TheVariants.{TooLong};

use crate::error::{ReadError, told};
use std::alloc::{AllocError, Global};
use swc_ast::{Expr, Mark, Module, Script};
use swc_resolved::{is_core_and_resolved, is_expr_core_and_resolved, is_script_core_and_resolved};
use text_parser::{parse_expr, parse_module, parse_script, parse_spanless_expr};

/// 2^31, in bytes
const TOO_LONG: usize = 0x8000_0000;

/// Reads a module (ECMA-262, 16.2) of core text. A span is a node's first and past-last byte plus 1.
///
/// The k-th scope that the text opens gives its names the context of the mark's number plus k, where numbers past 2^31 - 1 go on
/// at 1: so no two scopes share one, and none has the mark's. Scopes are the module, each function, a function expression's own
/// name, a body whose parameters have a default, each block, `for`, `switch` and `catch`. Other names have the mark's context.
#[tactic(auto, using(crate::proofs::Reading::read_module))]
pub fn read_module(alloc: Global, text: &str, unresolved_mark: Mark) -> Result<Module, ReadError>
    ensures read { IfOk result (λ m. IsReadModule unresolved_mark text.now (module_tree m)) }
    ensures valid { IfOk result (λ m. valid (module_tree m) ≡ true) }
    ensures resolved { IfOk result (λ m. IsResolved (mark_number unresolved_mark) (module_tree m)) }
    ensures core { IfOk result (λ m. IsCore (module_tree m)) }
    ensures too_long { IsErrOf result ReadError.TooLong ↔ 2 ^ 31 ≤ length text.now }
{
    if text.len() >= TOO_LONG {
        return Err(ReadError::TooLong);
    }
    match parse_module(alloc, text, unresolved_mark) {
        Ok(read) => checked_module(alloc, read, unresolved_mark),
        Err(fault) => Err(told(fault)),
    }
}

/// A module that was parsed: it is valid, resolved and core, and the tests let that be known.
fn checked_module(alloc: Global, read: Module, unresolved_mark: Mark) -> Result<Module, ReadError>
    ensures valid { IfOk result (λ m. valid (module_tree m) ≡ true) }
    ensures resolved { IfOk result (λ m. IsResolved (mark_number unresolved_mark) (module_tree m)) }
    ensures core { IfOk result (λ m. IsCore (module_tree m)) }
    ensures refused { IfErr result (λ e. e ≢ TooLong) }
{
    let is_good = is_core_and_resolved(alloc, &read, unresolved_mark)?;
    if is_good {
        Ok(read)
    } else {
        Err(ReadError::Syntax { at: 0 })
    }
}

/// Reads a script (ECMA-262, 16.1) of core text as strict code. Spans, contexts and errors are those of `read_module`; the
/// script is the first scope.
#[tactic(auto, using(crate::proofs::Reading::read_script))]
pub fn read_script(alloc: Global, text: &str, unresolved_mark: Mark) -> Result<Script, ReadError>
    ensures read { IfOk result (λ s. IsReadScript unresolved_mark text.now (script_tree s)) }
    ensures valid { IfOk result (λ s. valid (script_tree s) ≡ true) }
    ensures resolved { IfOk result (λ s. IsResolved (mark_number unresolved_mark) (script_tree s)) }
    ensures core { IfOk result (λ s. IsCore (script_tree s)) }
    ensures too_long { IsErrOf result ReadError.TooLong ↔ 2 ^ 31 ≤ length text.now }
{
    if text.len() >= TOO_LONG {
        return Err(ReadError::TooLong);
    }
    match parse_script(alloc, text, unresolved_mark) {
        Ok(read) => checked_script(alloc, read, unresolved_mark),
        Err(fault) => Err(told(fault)),
    }
}

/// The same of a script.
fn checked_script(alloc: Global, read: Script, unresolved_mark: Mark) -> Result<Script, ReadError>
    ensures valid { IfOk result (λ s. valid (script_tree s) ≡ true) }
    ensures resolved { IfOk result (λ s. IsResolved (mark_number unresolved_mark) (script_tree s)) }
    ensures core { IfOk result (λ s. IsCore (script_tree s)) }
    ensures refused { IfErr result (λ e. e ≢ TooLong) }
{
    let is_good = is_script_core_and_resolved(alloc, &read, unresolved_mark)?;
    if is_good {
        Ok(read)
    } else {
        Err(ReadError::Syntax { at: 0 })
    }
}

/// Reads a text that is one expression (ECMA-262, 13.16) of module code. Spans, contexts and errors are those of `read_module`,
/// but for the scope of the module, which is not opened.
pub fn read_expr(alloc: Global, text: &str, unresolved_mark: Mark) -> Result<Expr, ReadError>
    ensures valid { IfOk result (λ e. valid (expr_tree e) ≡ true) }
    ensures resolved { IfOk result (λ e. IsResolved (mark_number unresolved_mark) (expr_tree e)) }
    ensures core { IfOk result (λ e. IsCore (expr_tree e)) }
    ensures too_long { IsErrOf result ReadError.TooLong ↔ 2 ^ 31 ≤ length text.now }
{
    if text.len() >= TOO_LONG {
        return Err(ReadError::TooLong);
    }
    match parse_expr(alloc, text, unresolved_mark) {
        Ok(read) => checked_expr(alloc, read, unresolved_mark),
        Err(fault) => Err(told(fault)),
    }
}

/// The same of an expression.
fn checked_expr(alloc: Global, read: Expr, unresolved_mark: Mark) -> Result<Expr, ReadError>
    ensures valid { IfOk result (λ e. valid (expr_tree e) ≡ true) }
    ensures resolved { IfOk result (λ e. IsResolved (mark_number unresolved_mark) (expr_tree e)) }
    ensures core { IfOk result (λ e. IsCore (expr_tree e)) }
    ensures refused { IfErr result (λ e. e ≢ TooLong) }
{
    let read = match Box::new(alloc, read) {
        Ok(read) => read,
        Err(error) => return Err(AllocError::from(error).into()),
    };
    let is_good = is_expr_core_and_resolved(alloc, &read, unresolved_mark)?;
    if is_good {
        Ok(Box::into_inner(read))
    } else {
        Err(ReadError::Syntax { at: 0 })
    }
}

/// Reads an expression as `read_expr` does, with dummy spans: of a value that is put into other texts, so that no span tells of
/// a place there. Errors are those of `read_expr`.
pub fn read_value(alloc: Global, text: &str, unresolved_mark: Mark) -> Result<Expr, ReadError>
    ensures valid { IfOk result (λ e. valid (expr_tree e) ≡ true) }
    ensures resolved { IfOk result (λ e. IsResolved (mark_number unresolved_mark) (expr_tree e)) }
    ensures core { IfOk result (λ e. IsCore (expr_tree e)) }
    ensures too_long { IsErrOf result ReadError.TooLong ↔ 2 ^ 31 ≤ length text.now }
{
    if text.len() >= TOO_LONG {
        return Err(ReadError::TooLong);
    }
    match parse_spanless_expr(alloc, text, unresolved_mark) {
        Ok(read) => checked_expr(alloc, read, unresolved_mark),
        Err(fault) => Err(told(fault)),
    }
}
