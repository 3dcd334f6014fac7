//! What becomes of whole texts.
use crate::passes::TextPass;
use core_trees::{is_core, is_script_core};
use std::alloc::Global;
use std::fmt::{Display, Write};
use swc_ast::{Mark, Module, PassError, Script};
use swc_debug::{is_script_valid, is_valid};
use swc_resolved::{is_resolved, is_script_resolved};
use swc_text::{print, print_script, read_module, read_script};

/// A text, and how it is read and told of.
#[derive(Clone, Copy)]
pub struct Asked<'a> {
    pub text: &'a str,
    pub mark: Mark,
    /// Whether the number of rounds is told.
    pub counts_rounds: bool,
}

/// Tells of a text as a module, where nothing is told yet, and below that of the text as a script where it is something else.
pub fn of_both<P: TextPass>(
    alloc: Global,
    told: &mut String,
    pass: &mut P,
    asked: Asked<'_>,
) -> anyhow::Result<()> {
    of_module(alloc, told, pass, asked)?;
    let mut script = String::new(alloc);
    of_script(alloc, &mut script, pass, asked)?;
    push_other(told, script.as_str())
}

/// Tells of a text as a script, if that is something else.
fn push_other(told: &mut String, script: &str) -> anyhow::Result<()> {
    if script != told.as_str() {
        told.push_str("as a script:\n")?;
        told.push_str(script)?;
    }
    Ok(())
}

/// Tells of a text as a module.
pub fn of_module<P: TextPass>(
    alloc: Global,
    told: &mut String,
    pass: &mut P,
    asked: Asked<'_>,
) -> anyhow::Result<()> {
    match read_module(alloc, asked.text, asked.mark) {
        Ok(module) => push_module(alloc, told, pass, asked, &module),
        Err(error) => push_refusal(told, "error: ", &error),
    }
}

fn push_module<P: TextPass>(
    alloc: Global,
    told: &mut String,
    pass: &mut P,
    asked: Asked<'_>,
    module: &Module,
) -> anyhow::Result<()> {
    match pass.run(alloc, module) {
        Ok(answer) => {
            let is_same = answer == *module;
            push_answer(alloc, told, pass, asked, &answer, is_same)
        }
        Err(refusal) => push_refused(told, pass, &refusal),
    }
}

fn push_answer<P: TextPass>(
    alloc: Global,
    told: &mut String,
    pass: &mut P,
    asked: Asked<'_>,
    answer: &Module,
    is_same: bool,
) -> anyhow::Result<()> {
    match print(alloc, answer) {
        Ok(printed) => {
            let printed = printed.as_str();
            push_become(told, pass, asked, printed, is_same)?;
            push_core(alloc, told, answer, asked.mark)?;
            push_again(alloc, told, pass, printed, asked.mark)
        }
        Err(refusal) => push_refusal(told, "not printed: ", &refusal),
    }
}

/// Tells of an answer that is no tree of the core.
fn push_core(alloc: Global, told: &mut String, answer: &Module, mark: Mark) -> anyhow::Result<()> {
    if !(is_resolved(alloc, answer, mark)? && is_core(alloc, answer)? && is_valid(answer)) {
        told.push_str("WRONG: the answer is no tree of the core\n")?;
    }
    Ok(())
}

/// Tells a refusal, or why a text isn't read.
pub fn push_refusal<E: Display>(told: &mut String, what: &str, refusal: &E) -> anyhow::Result<()> {
    told.push_str(what)?;
    write!(told, "{refusal}")?;
    told.push('\n')?;
    Ok(())
}

/// Tells of a refusal of a pass.
fn push_refused<P: TextPass>(
    told: &mut String,
    pass: &P,
    refusal: &PassError,
) -> anyhow::Result<()> {
    push_refusal(told, "error: ", refusal)?;
    if pass.changed() {
        told.push_str("WRONG: a change is told\n")?;
    }
    Ok(())
}

/// Tells what is wrong with an answer once it is read again.
fn push_again<P: TextPass>(
    alloc: Global,
    told: &mut String,
    pass: &mut P,
    printed: &str,
    mark: Mark,
) -> anyhow::Result<()> {
    match read_module(alloc, printed, mark) {
        Ok(again) => push_reread(alloc, told, pass, printed, &again),
        Err(_) => Ok(told.push_str("WRONG: the answer isn't read again\n")?),
    }
}

fn push_reread<P: TextPass>(
    alloc: Global,
    told: &mut String,
    pass: &mut P,
    printed: &str,
    again: &Module,
) -> anyhow::Result<()> {
    if print(alloc, again)?.as_str() != printed {
        told.push_str("WRONG: the answer is printed otherwise once it is read\n")?;
    }
    if !is_settled(alloc, pass, again)? {
        told.push_str("WRONG: another run changes the answer\n")?;
    }
    Ok(())
}

/// Whether another run has nothing to do, where the last round of the last run had nothing to do.
fn is_settled<P: TextPass>(
    alloc: Global,
    pass: &mut P,
    module: &Module,
) -> Result<bool, PassError> {
    match pass.rounds() {
        Some((_, true)) => {
            let answer = pass.run(alloc, module)?;
            Ok(answer == *module && !pass.changed() && pass.rounds() == Some((1, true)))
        }
        _ => Ok(true),
    }
}

/// Tells of a text as a script.
fn of_script<P: TextPass>(
    alloc: Global,
    told: &mut String,
    pass: &mut P,
    asked: Asked<'_>,
) -> anyhow::Result<()> {
    match read_script(alloc, asked.text, asked.mark) {
        Ok(script) => push_script(alloc, told, pass, asked, &script),
        Err(error) => push_refusal(told, "error: ", &error),
    }
}

fn push_script<P: TextPass>(
    alloc: Global,
    told: &mut String,
    pass: &mut P,
    asked: Asked<'_>,
    script: &Script,
) -> anyhow::Result<()> {
    match pass.run_script(alloc, script) {
        Ok(answer) => {
            let is_same = answer == *script;
            push_script_answer(alloc, told, pass, asked, &answer, is_same)
        }
        Err(refusal) => push_refused(told, pass, &refusal),
    }
}

fn push_script_answer<P: TextPass>(
    alloc: Global,
    told: &mut String,
    pass: &P,
    asked: Asked<'_>,
    answer: &Script,
    is_same: bool,
) -> anyhow::Result<()> {
    match print_script(alloc, answer) {
        Ok(printed) => {
            push_become(told, pass, asked, printed.as_str(), is_same)?;
            push_script_core(alloc, told, answer, asked.mark)
        }
        Err(refusal) => push_refusal(told, "not printed: ", &refusal),
    }
}

/// Tells of an answer that is no tree of the core.
fn push_script_core(
    alloc: Global,
    told: &mut String,
    answer: &Script,
    mark: Mark,
) -> anyhow::Result<()> {
    let is_resolved = is_script_resolved(alloc, answer, mark)?;
    if !(is_resolved && is_script_core(alloc, answer)? && is_script_valid(answer)) {
        told.push_str("WRONG: the answer is no tree of the core\n")?;
    }
    Ok(())
}

/// Tells what a text becomes, by the answer's text and by what the pass tells, and whether it tells of a change where there is one.
fn push_become<P: TextPass>(
    told: &mut String,
    pass: &P,
    asked: Asked<'_>,
    printed: &str,
    is_same: bool,
) -> anyhow::Result<()> {
    let changed = pass.changed();
    if !changed && printed.strip_suffix("\n").unwrap_or("") == asked.text {
        told.push_str("stays\n")?;
    } else {
        told.push_str(printed)?;
        if !(changed || pass.is_printer()) {
            told.push_str("unchanged\n")?;
        }
    }
    if let Some((rounds, reached)) = pass.rounds() {
        if asked.counts_rounds {
            write!(told, "rounds: {rounds}, ")?;
        }
        told.push_str(if reached {
            "reached\n"
        } else {
            "not reached\n"
        })?;
    }
    if changed == is_same {
        told.push_str("WRONG: what it tells of its change\n")?;
    }
    Ok(())
}
