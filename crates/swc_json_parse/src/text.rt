//! The text of a JSON literal, in one walk over it.
ghost use Rattle.std.specs.Prelude.{true, false, IfOk, OnOk, option_map};
ghost use Rattle.swc_ast.specs.Parts.{list_trees};
ghost use Rattle.swc_ast.specs.Expressions.{array_tree, object_tree, tpl_tree, key_value_tree};
ghost use Rattle.swc_ast.specs.Views.{expr_tree, prop_or_spread_tree};
ghost use Rattle.json.specs.Print.{quoted};
ghost use Rattle.serde_json.specs.Written.{comma_if};
ghost use Rattle.tree_keys.specs.Keys.{plain_key};
ghost use Rattle.swc_json_parse.specs.Written.{Wrote, number_text, lit_text, text_within, elements_within, members_within, member_within};

use crate::sink::Out;
use itoa::Buffer;
use std::alloc::{AllocError, Global};
use swc_ast::{
    ArrayLit, Expr, ExprOrSpread, KeyValueProp, Lit, ObjectLit, Prop, PropName, PropOrSpread, Tpl,
};
use tree_keys::are_keys;

/// Writes a comma where something stands in front.
fn write_comma<O: Out>(later: bool, out: &mut O) -> Result<(), AllocError>
    ensures { OnOk result (O.takes out.old (comma_if later) out.new) }
{
    if later {
        return out.push(",");
    }
    Ok(())
}

fn write_number<O: Out>(n: i64, out: &mut O) -> Result<(), AllocError>
    ensures { OnOk result (Wrote O.takes (number_text n) out.old true out.new) }
{
    let mut buffer = Buffer::new();
    out.push(buffer.format(n))
}

/// Writes a literal that is a JSON literal always.
fn write_lit<O: Out>(n: &Lit, out: &mut O) -> Result<bool, AllocError>
    ensures { IfOk result (λ b. Wrote O.takes (lit_text n.now) out.old b out.new) }
{
    match n {
        Lit::Str(n) => out.push_quoted(&n.value)?,
        Lit::Bool(n) => {
            if n.value {
                out.push("true")?;
            } else {
                out.push("false")?;
            }
        }
        Lit::Null(_) => out.push("null")?,
        Lit::Num(n) => write_number(n.value, out)?,
    }
    Ok(true)
}

/// Writes a template that has no expressions, as a text.
fn write_template<O: Out>(n: &Tpl, levels: usize, out: &mut O) -> Result<bool, AllocError>
    ensures { IfOk result (λ b. Wrote O.takes (text_within levels (tpl_tree expr_tree n.now)) out.old b out.new) }
{
    if n.quasis.len() != 1 {
        return Ok(false);
    }
    let exprs = n.exprs.as_slice();
    if !exprs.is_empty() {
        return Ok(false);
    }
    out.push_quoted(&n.quasis[0].cooked)?;
    Ok(true)
}

/// Writes a key that is not computed.
fn write_key<O: Out>(key: &PropName, out: &mut O) -> Result<bool, AllocError>
    ensures { IfOk result (λ b. Wrote O.takes (option_map quoted (plain_key key.now)) out.old b out.new) }
{
    match key {
        PropName::Ident(n) => out.push_quoted(&n.sym)?,
        PropName::Str(n) => out.push_quoted(&n.value)?,
        PropName::Num(n) => {
            let mut buffer = Buffer::new();
            out.push_quoted(buffer.format(n.value))?;
        }
        PropName::Computed(_) => return Ok(false),
    }
    Ok(true)
}

/// Writes the text of a JSON literal that nests no deeper than `levels`, and says whether it is one. Of what is none, a part
/// may be written. Fails where memory is refused.
#[cycle(text)]
pub(crate) fn write<O: Out>(
    alloc: Global,
    e: &Expr,
    levels: usize,
    out: &mut O,
) -> Result<bool, AllocError>
    ensures { IfOk result (λ b. Wrote O.takes (text_within levels (expr_tree e.now)) out.old b out.new) }
{
    match e {
        Expr::Lit(n) => write_lit(n, out),
        Expr::Tpl(n) => write_template(n, levels, out),
        Expr::Array(n) => write_array(alloc, n, levels, out),
        Expr::Object(n) => write_object(alloc, n, levels, out),
        _ => Ok(false),
    }
}

#[cycle(text)]
fn write_array<O: Out>(
    alloc: Global,
    n: &ArrayLit,
    levels: usize,
    out: &mut O,
) -> Result<bool, AllocError>
    ensures { IfOk result (λ b. Wrote O.takes (text_within levels (array_tree expr_tree n.now)) out.old b out.new) }
{
    if levels == 0 {
        return Ok(false);
    }
    out.push("[")?;
    write_elements(alloc, &n.elems, levels - 1, out)
}

/// Writes items and the closing bracket.
#[cycle(text)]
fn write_elements<O: Out>(
    alloc: Global,
    items: &[Option<ExprOrSpread>],
    levels: usize,
    out: &mut O,
) -> Result<bool, AllocError>
    ensures { IfOk result (λ b. Wrote O.takes (elements_within levels false items.now) out.old b out.new) }
{
    let mut later = false;
    for item in items {
        match item {
            None => return Ok(false),
            Some(item) => {
                if let Some(_) = item.spread {
                    return Ok(false);
                }
                write_comma(later, out)?;
                if !write(alloc, &item.expr, levels, out)? {
                    return Ok(false);
                }
                later = true;
            }
        }
    }
    out.push("]")?;
    Ok(true)
}

#[cycle(text)]
fn write_object<O: Out>(
    alloc: Global,
    n: &ObjectLit,
    levels: usize,
    out: &mut O,
) -> Result<bool, AllocError>
    ensures { IfOk result (λ b. Wrote O.takes (text_within levels (object_tree prop_or_spread_tree n.now)) out.old b out.new) }
{
    if levels == 0 {
        return Ok(false);
    }
    if !are_keys(alloc, &n.props)? {
        return Ok(false);
    }
    out.push("{")?;
    write_members(alloc, &n.props, levels - 1, out)
}

/// Writes members and the closing brace.
#[cycle(text)]
fn write_members<O: Out>(
    alloc: Global,
    props: &[PropOrSpread],
    levels: usize,
    out: &mut O,
) -> Result<bool, AllocError>
    ensures { IfOk result (λ b. Wrote O.takes (members_within levels false (list_trees prop_or_spread_tree props.now)) out.old b out.new) }
{
    let mut later = false;
    for prop in props {
        write_comma(later, out)?;
        if !write_member(alloc, prop, levels, out)? {
            return Ok(false);
        }
        later = true;
    }
    out.push("}")?;
    Ok(true)
}

#[cycle(text)]
fn write_member<O: Out>(
    alloc: Global,
    prop: &PropOrSpread,
    levels: usize,
    out: &mut O,
) -> Result<bool, AllocError>
    ensures { IfOk result (λ b. Wrote O.takes (member_within levels (prop_or_spread_tree prop.now)) out.old b out.new) }
{
    match prop {
        PropOrSpread::Spread(_) => Ok(false),
        PropOrSpread::Prop(prop) => match prop {
            Prop::Shorthand(_) => Ok(false),
            Prop::KeyValue(n) => write_key_value(alloc, n, levels, out),
            Prop::Method(_) => Ok(false),
        },
    }
}

#[cycle(text)]
fn write_key_value<O: Out>(
    alloc: Global,
    n: &KeyValueProp,
    levels: usize,
    out: &mut O,
) -> Result<bool, AllocError>
    ensures { IfOk result (λ b. Wrote O.takes (member_within levels (key_value_tree expr_tree n.now)) out.old b out.new) }
{
    if !write_key(&n.key, out)? {
        return Ok(false);
    }
    out.push(":")?;
    write(alloc, &n.value, levels, out)
}
