//! Whether names stand in a list once, and lists have no name in common.
ghost use Rattle.std.specs.Prelude.{◌≡◌, ◌&&◌, ◌≤◌, length, IfOk, IfSome};
ghost use Rattle.swc_ast.specs.Core.{once_each, none_in};
ghost use Rattle.swc_resolved.specs.Names.{names as names_of, members};
ghost use Rattle.swc_resolved.specs.Here.{stand_apart};
ghost use Rattle.swc_resolved.specs.Once.{EachOnce, AreMembers};

use crate::names::{Name, NameSet};
use std::alloc::{AllocError, Global};

/// The set of some names; none where one stands among them twice. Fails where memory is refused.
#[tactic(auto, using(crate::proofs::Once::one_twice))]
fn set_of<'a>(names: &[Name<'a>], alloc: Global) -> Result<Option<NameSet<'a>>, AllocError>
    ensures once { IfOk result (EachOnce (names_of names.now)) }
    ensures members { IfOk result (λ o. IfSome o (AreMembers (names_of names.now))) }
{
    let mut set = NameSet::new(alloc);
    set.make_room(names.len());
    let mut left = names;
    while let [name, rest @ ..] = left {
        if !set.insert(*name)? {
            return Ok(None);
        }
        left = rest;
    }
    Ok(Some(set))
}

/// Whether names stand in a list once each. Fails where memory is refused.
pub(crate) fn are_distinct<'a>(names: &[Name<'a>], alloc: Global) -> Result<bool, AllocError>
    ensures { IfOk result (λ b. b ≡ once_each (names_of names.now) (names_of names.now)) }
{
    match names {
        [] => Ok(true),
        [_] => Ok(true),
        _ => match set_of(names, alloc)? {
            None => Ok(false),
            Some(_) => Ok(true),
        },
    }
}

/// Whether names stand in a list once each, and none of them in another. Fails where memory is refused.
pub(crate) fn are_apart<'a>(
    names: &[Name<'a>],
    others: &[Name<'a>],
    alloc: Global,
) -> Result<bool, AllocError>
    ensures { IfOk result (λ b. b ≡ (once_each (names_of names.now) (names_of names.now) && none_in (names_of names.now) (names_of others.now))) }
{
    match names {
        [] => Ok(true),
        _ => match set_of(names, alloc)? {
            None => Ok(false),
            Some(set) => Ok(set.has_none(others)),
        },
    }
}

/// Whether the names of a scope stand as the core wants them: as many as `strict` in front once each, and those behind as many as
/// `loose` once each and not in front too. Fails where memory is refused.
#[inline(never)]
pub(crate) fn stand_apart<'a>(
    names: &[Name<'a>],
    strict: usize,
    loose: usize,
    alloc: Global,
) -> Result<bool, AllocError>
    requires strict { strict ≤ length names.now }
    requires loose { loose ≤ length names.now }
    ensures { IfOk result (λ b. b ≡ stand_apart strict loose (names_of names.now)) }
{
    if !are_apart(&names[loose..], &names[..loose], alloc)? {
        return Ok(false);
    }
    let is_good = are_distinct(&names[..strict], alloc)?;
    Ok(is_good)
}

impl<'a> NameSet<'a> {
    /// The set of some names. Fails where memory is refused.
    pub(crate) fn of(names: &[Name<'a>], alloc: Global) -> Result<NameSet<'a>, AllocError>
        ensures { IfOk result (AreMembers (names_of names.now)) }
    {
        let mut set = NameSet::new(alloc);
        set.make_room(names.len());
        let mut left = names;
        while let [name, rest @ ..] = left {
            set.insert(*name)?;
            left = rest;
        }
        Ok(set)
    }

    /// Whether none of some names is in the set.
    pub(crate) fn has_none(&self, names: &[Name<'a>]) -> bool
        ensures { result ≡ none_in (names_of names.now) (members self.now) }
    {
        let mut left = names;
        while let [name, rest @ ..] = left {
            if self.contains(*name) {
                return false;
            }
            left = rest;
        }
        true
    }
}
