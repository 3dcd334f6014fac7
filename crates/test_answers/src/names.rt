//! The names of texts, and their weight.
use anyhow::Context;
use std::alloc::Global;
use std::collections::BTreeSet;
use std::fmt::Write;
use swc_ast::{Id, Mark, Module, Script};
use swc_names::{Names, collect_decls, extract_var_ids};
use swc_text::{read_module, read_script};
use swc_weight::{weight, weight_of_script};

/// Tells a text's names, each with its context, in the order of their numbers and with `*` behind those that it declares; behind
/// them, for a script, the names that `var` declares.
pub fn named(
    alloc: Global,
    told: &mut String,
    text: &str,
    mark: Mark,
    is_script: bool,
) -> anyhow::Result<()> {
    told.push_str("names:")?;
    push_names(alloc, told, &read_module(alloc, text, mark)?)?;
    if is_script {
        told.push_str("\nvar:")?;
        push_vars(alloc, told, &read_script(alloc, text, mark)?)?;
    }
    Ok(())
}

fn push_names(alloc: Global, told: &mut String, module: &Module) -> anyhow::Result<()> {
    let names = Names::new(alloc, &module.body)?;
    let declared = collect_decls(alloc, &module.body)?;
    push_numbered(alloc, told, &names, &declared)
}

fn push_numbered(
    alloc: Global,
    told: &mut String,
    names: &Names,
    declared: &BTreeSet<Id>,
) -> anyhow::Result<()> {
    for number in 0..names.len() {
        let id = names.id(number).context("a name")?;
        if names.number(id) != Some(number) {
            told.push_str(" WRONG:")?;
        }
        push_name(alloc, told, id)?;
        if declared.contains(id) {
            told.push_str("*")?;
        }
    }
    Ok(())
}

fn push_vars(alloc: Global, told: &mut String, script: &Script) -> anyhow::Result<()> {
    let vars = extract_var_ids(alloc, &script.body)?;
    for id in &vars {
        push_name(alloc, told, id)?;
    }
    Ok(())
}

fn push_name(alloc: Global, told: &mut String, id: &Id) -> anyhow::Result<()> {
    told.push_str(" ")?;
    told.push_str(id.0.as_str())?;
    let context = format!(in alloc; "{:?}", id.1)?;
    let context = context.as_str().strip_prefix("SyntaxContext").unwrap_or("");
    told.push_str(context)?;
    Ok(())
}

/// Tells the weight of a text.
pub fn weighed(alloc: Global, told: &mut String, text: &str, mark: Mark) -> anyhow::Result<()> {
    let as_module = weight(&read_module(alloc, text, mark)?);
    let as_script = weight_of_script(&read_script(alloc, text, mark)?);
    if as_module == as_script {
        write!(told, "{as_module}")?;
    } else {
        write!(told, "WRONG: {as_module}, and {as_script} as a script")?;
    }
    Ok(())
}
