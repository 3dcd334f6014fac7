//! The names that are told of values, by the numbers of the values.
ghost use Rattle.std.specs.Prelude.{◌≡◌, ◌++◌, IfOk};
ghost use Rattle.std.specs.BTreeMap.{IsOrdered};
ghost use Rattle.std.specs.String.{string_cmp};
ghost use Rattle.swc_expr_map.specs.Entries.{name_at};
ghost use Rattle.given_globals.specs.Globals.{text_or_none};
ghost use Rattle.given_globals.specs.Rows.{texts, expression_names, global_names};

use std::alloc::AllocError;
use std::collections::BTreeMap;
use swc_ast::Expr;
use swc_expr_map::GlobalExprMap;

/// Puts the names that the keys of expressions begin with behind others, in the order of the keys. Fails where memory is refused.
pub(crate) fn push_expressions<'a>(
    names: &mut Vec<&'a str>,
    exprs: &'a GlobalExprMap,
) -> Result<(), AllocError>
    ensures { IfOk result (λ u. texts names.new.items ≡ texts names.old.items ++ expression_names exprs.now) }
{
    for number in 0..exprs.len() {
        names.push(told_name(exprs, number))?;
    }
    Ok(())
}

/// The name that the key of a number begins with. A key that begins with none has the empty one.
fn told_name<'a>(exprs: &'a GlobalExprMap, number: usize) -> &'a str
    ensures { result.now ≡ text_or_none (name_at exprs.now number) }
{
    match exprs.name(number) {
        Some(name) => name,
        None => "",
    }
}

/// Puts the names of values behind others, in their order. Fails where memory is refused.
pub(crate) fn push_globals<'a>(
    names: &mut Vec<&'a str>,
    globals: &'a BTreeMap<String, Expr>,
) -> Result<(), AllocError>
    ensures names { IfOk result (λ u. texts names.new.items ≡ texts names.old.items ++ global_names globals.now) }
    ensures ordered { IsOrdered string_cmp globals.now }
{
    for name in globals.keys() {
        names.push(name.as_str())?;
    }
    Ok(())
}
