//! Texts by their UTF-16 units. ECMA-262, 7.2.12.
ghost use Rattle.std.specs.Prelude.{◌≡◌, ◌++◌, IfOk, Some, not, string_bytes};
ghost use Rattle.swc_ast.specs.Operators as operators;
ghost use Rattle.swc_ast.specs.Views.{expr_tree};
ghost use Rattle.swc_utils.specs.Globals.{unresolved};
ghost use Rattle.swc_utils.specs.Known.{text};
ghost use Rattle.swc_utils.specs.Sound.{IfKnown, known_text};
ghost use Rattle.swc_utils.specs.Types as types;
ghost use Rattle.swc_utils.specs.declared.answers.ValueType.TheVariants.{Str as TextType};
ghost use Rattle.expr_rules.specs.Equality.{compared, no_vertical_tab};
ghost use Rattle.pass_rules.specs.Values.{text_value};

use std::alloc::{AllocError, Global};
use swc_ast::{Expr, PassError};
use swc_utils::{ExprCtx, ExprExt, Value, ValueType};

/// Adds the UTF-16 units of a character.
fn push_units(c: char, units: Vec<u32>) -> Result<Vec<u32>, AllocError>
    ensures { IfOk result (λ v. v.items ≡ units.items ++ operators.units_of c) }
{
    let mut units = units;
    let code = c as u32;
    if code < 65536 {
        units.push(code)?;
        return Ok(units);
    }
    units.push(55296 + (code - 65536) / 1024)?;
    units.push(56320 + (code - 65536) % 1024)?;
    Ok(units)
}

/// The UTF-16 units of a text.
fn units_of(alloc: Global, text: &str) -> Result<Vec<u32>, AllocError>
    ensures { IfOk result (λ v. v.items ≡ operators.units text.now) }
{
    let mut units = Vec::new(alloc);
    for c in text.chars() {
        units = push_units(c, units)?;
    }
    Ok(units)
}

/// Whether some units stand before others.
fn stand_before(first: &[u32], second: &[u32]) -> bool
    ensures { result ≡ operators.units_before first.now second.now }
{
    let mut xs = first;
    let mut ys = second;
    while let [y, more @ ..] = ys {
        match xs {
            [] => return true,
            [x, rest @ ..] => {
                if *x != *y {
                    return *x < *y;
                }
                xs = rest;
            }
        }
        ys = more;
    }
    false
}

/// Whether a text stands before another by its UTF-16 units.
pub(crate) fn is_text_before(alloc: Global, first: &str, second: &str) -> Result<bool, AllocError>
    ensures { IfOk result (λ b. b ≡ operators.units_before (operators.units first.now) (operators.units second.now)) }
{
    Ok(stand_before(&units_of(alloc, first)?, &units_of(alloc, second)?))
}

/// Whether a text has a vertical tab.
pub(crate) fn has_vertical_tab(text: &str) -> bool
    ensures { result ≡ not (no_vertical_tab text.now) }
{
    let mut left = text.as_bytes();
    while let [c, rest @ ..] = left {
        if *c == 11 {
            return true;
        }
        left = rest;
    }
    false
}

/// Whether the type of an expression is known to be text.
pub(crate) fn is_text(ctx: &ExprCtx, e: &Expr) -> bool
    ensures { result ≡ types.is_text_type (types.type_of (unresolved ctx.now) (expr_tree e.now)) }
{
    match e.get_type(ctx) {
        Value::Known(kind) => match kind {
            ValueType::Str => true,
            _ => false,
        },
        Value::Unknown => false,
    }
}

/// The text of an expression, unless it has a vertical tab.
pub(crate) fn plain_text(alloc: Global, ctx: &ExprCtx, e: &Expr) -> Result<Value<String>, PassError>
    ensures text { IfOk result (λ r. IfKnown r (λ s. text (unresolved ctx.now) (expr_tree e.now) ≡ Some (string_bytes s))) }
    ensures value { IfOk result (λ r. text_value (known_text r) ≡ compared (unresolved ctx.now) (expr_tree e.now) TextType (text_value (text (unresolved ctx.now) (expr_tree e.now)))) }
{
    match e.as_pure_string(alloc, ctx)? {
        Value::Known(text) => {
            if has_vertical_tab(&text) {
                return Ok(Value::Unknown);
            }
            Ok(Value::Known(text))
        }
        Value::Unknown => Ok(Value::Unknown),
    }
}
