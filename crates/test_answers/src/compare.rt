//! Texts whose trees are compared.
use anyhow::Context;
use std::alloc::Global;
use swc_ast::{EqIgnoreSpan, Mark, Module, Script};
use swc_text::{ReadError, read_module, read_script};

/// Tells whether the trees of two texts, with `≟` between them, are the same.
pub fn compared(
    alloc: Global,
    told: &mut String,
    line: &str,
    mark: Mark,
    both: bool,
) -> anyhow::Result<()> {
    let (left, right) = line.split_once(" ≟ ").context("two texts")?;
    let word = as_modules(alloc, left, right, mark)?;
    told.push_str(word)?;
    if both {
        let as_script = as_scripts(alloc, left, right, mark)?;
        if as_script != word {
            told.push_str("\nas scripts: ")?;
            told.push_str(as_script)?;
        }
    }
    Ok(())
}

fn as_modules(
    alloc: Global,
    left: &str,
    right: &str,
    mark: Mark,
) -> Result<&'static str, ReadError> {
    let one = read_module(alloc, left, mark)?;
    let other = read_module(alloc, right, mark)?;
    Ok(how(one == other, one.eq_ignore_span(&other)))
}

fn as_scripts(
    alloc: Global,
    left: &str,
    right: &str,
    mark: Mark,
) -> Result<&'static str, ReadError> {
    let one = read_script(alloc, left, mark)?;
    let other = read_script(alloc, right, mark)?;
    Ok(how(one == other, one.eq_ignore_span(&other)))
}

fn how(is_same: bool, is_same_but_for_spans: bool) -> &'static str {
    match (is_same, is_same_but_for_spans) {
        (true, true) => "the same",
        (false, true) => "the same but for spans",
        (false, false) => "different",
        (true, false) => "WRONG: the same, and different but for spans",
    }
}
