//! What jumps may go to, and whether a jump has a target.
ghost use Rattle.std.specs.Prelude.{◌≡◌, false, IfOk, map};
ghost use Rattle.swc_ast.specs.Meaning.{has_label};
ghost use Rattle.swc_ast.specs.Resolved.{below, no_targets, jump_is_aimed, all_labels};
ghost use Rattle.tree_visit.specs.Kinds.{kind_label};
ghost use Rattle.swc_resolved.specs.Jumps.{adds_targets, targets};

use std::alloc::{AllocError, Global};
use tree_visit::Kind;

/// What jumps may go to.
#[derive(Clone, Copy)]
pub(crate) struct Targets<'a> {
    pub(crate) labels: &'a [&'a str],
    /// the labels of loops
    pub(crate) loops: &'a [&'a str],
    pub(crate) can_break: bool,
    pub(crate) can_continue: bool,
    /// the labels of the statement at hand
    pub(crate) own: &'a [&'a str],
}

impl<'a> Targets<'a> {
    /// What jumps may go to at the top and where a function begins: nothing.
    pub(crate) fn none() -> Targets<'a>
        ensures { targets result ≡ no_targets }
    {
        Targets {
            labels: &[],
            loops: &[],
            can_break: false,
            can_continue: false,
            own: &[],
        }
    }

    /// What jumps in a node may go to, unless the node is a label or a loop, which add to that.
    #[inline(always)]
    pub(crate) fn inside(&self, kind: Kind<'_>) -> Targets<'a>
        ensures { adds_targets (kind_label kind.entry) ≡ false → targets result ≡ below (kind_label kind.entry) (targets self.now) }
    {
        match kind {
            Kind::Switch(_) => Targets {
                can_break: true,
                own: &[],
                ..*self
            },
            Kind::Fn(_) | Kind::Arrow | Kind::Method | Kind::FnDecl(_) | Kind::ExportDefaultFn(_) =>
                { Targets::none() }
            _ => Targets { own: &[], ..*self },
        }
    }
}

/// Whether a node that is a jump has a target.
#[inline(always)]
pub(crate) fn is_jump_aimed(kind: Kind<'_>, g: Targets<'_>) -> bool
    ensures { result ≡ jump_is_aimed (kind_label kind.entry) (targets g.entry) }
{
    match kind {
        Kind::Break(label) => match label {
            None => g.can_break,
            Some(name) => is_among(&name.sym, g.labels),
        },
        Kind::Continue(label) => match label {
            None => g.can_continue,
            Some(name) => is_among(&name.sym, g.loops),
        },
        _ => true,
    }
}

fn is_among(text: &str, labels: &[&str]) -> bool
    ensures { result ≡ has_label text.now (map (λ t. t.now) labels.now) }
{
    let mut left = labels;
    while let [label, rest @ ..] = left {
        if text == *label {
            return true;
        }
        left = rest;
    }
    false
}

/// Labels in front of others.
pub(crate) fn joined<'a>(
    labels: &[&'a str],
    others: &[&'a str],
    alloc: Global,
) -> Result<Vec<&'a str>, AllocError>
    ensures { IfOk result (λ all. map (λ t. t.now) all.items ≡ all_labels (map (λ t. t.now) labels.now) (map (λ t. t.now) others.now)) }
{
    let mut all = Vec::new(alloc);
    all.extend_from_slice(labels)?;
    all.extend_from_slice(others)?;
    Ok(all)
}
