//! Parameters beside a default.
ghost use Rattle.std.specs.Prelude.{◌≡◌, IfOk};
ghost use Rattle.swc_ast.specs.Resolved.{none_declared as none_among, params_apart};
ghost use Rattle.tree_visit.specs.Kinds.{kind_label};
ghost use Rattle.tree_visit.specs.Nodes.{children_forest};
ghost use Rattle.swc_resolved.specs.Scopes.{own_apart};
ghost use Rattle.swc_resolved.specs.Names.{names as names_of};

use crate::declared::{Part, add_body, add_names};
use crate::functions::{Half, half_of, has_default, is_function};
use crate::names::{Name, TextSet};
use std::alloc::{AllocError, Global};
use tree_visit::{Children, Kind};

/// Whether a node that is a function with a default declares no text of a parameter in its body.
/// Fails where memory is refused.
#[inline(always)]
#[tactic(auto, using(crate::proofs::Beside::function_apart))]
pub(crate) fn is_own_apart(
    kind: Kind<'_>,
    children: Children<'_>,
    alloc: Global,
) -> Result<bool, AllocError>
    ensures { IfOk result (λ b. b ≡ own_apart (kind_label kind.entry) (children_forest children.entry)) }
{
    if !is_function(kind) {
        return Ok(true);
    }
    are_params_apart(children, alloc)
}

fn are_params_apart(children: Children<'_>, alloc: Global) -> Result<bool, AllocError>
    ensures { IfOk result (λ b. b ≡ params_apart (children_forest children.entry)) }
{
    let params = half_of(children, Half::Params);
    if !has_default(params) {
        return Ok(true);
    }
    let mut own = Vec::new(alloc);
    add_names(&mut own, params, Part::Params)?;
    let mut declared = Vec::new(alloc);
    add_body(&mut declared, half_of(children, Half::Body))?;
    let stand_apart = none_declared(&own, &declared, alloc)?;
    Ok(stand_apart)
}

/// Whether no text of a parameter is among those of names. Fails where memory is refused.
fn none_declared<'a>(
    params: &[Name<'a>],
    names: &[Name<'a>],
    alloc: Global,
) -> Result<bool, AllocError>
    ensures { IfOk result (λ b. b ≡ none_among (names_of params.now) (names_of names.now)) }
{
    let texts = TextSet::of(names, alloc)?;
    let mut left = params;
    while let [param, rest @ ..] = left {
        if texts.contains(param.text) {
            return Ok(false);
        }
        left = rest;
    }
    Ok(true)
}
