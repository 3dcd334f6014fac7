//! Rounds of the tree shaker that are done at once.
use std::alloc::Global;
use std::fmt::Write;
use swc_ast::{Mark, Module};
use swc_dce::TreeShaker;
use swc_pass::Pass;
use swc_text::{print, read_module};

/// Tells how many rounds are done at once, `most` at most, and whether what they leave is what as many rounds leave one by one.
pub fn peeled(
    alloc: Global,
    told: &mut String,
    pass: &mut TreeShaker,
    most: usize,
    text: &str,
    mark: Mark,
) -> anyhow::Result<()> {
    let peeled = pass.peel(alloc, read_module(alloc, text, mark)?, most)?;
    writeln!(told, "{} at once", peeled.rounds)?;
    let one_by_one = one_by_one(alloc, pass, peeled.rounds, text, mark)?;
    push_other(alloc, told, &peeled.module, one_by_one.as_str())
}

/// Tells what rounds leave one by one, if it isn't the text of a module.
fn push_other(
    alloc: Global,
    told: &mut String,
    module: &Module,
    one_by_one: &str,
) -> anyhow::Result<()> {
    if print(alloc, module)?.as_str() != one_by_one {
        told.push_str("WRONG: one by one they leave\n")?;
        told.push_str(one_by_one)?;
    }
    Ok(())
}

/// What so many rounds leave.
fn one_by_one(
    alloc: Global,
    pass: &mut TreeShaker,
    rounds: usize,
    text: &str,
    mark: Mark,
) -> anyhow::Result<String> {
    let mut module = read_module(alloc, text, mark)?;
    for _ in 0..rounds {
        module = pass.fold_module(alloc, module)?;
    }
    Ok(print(alloc, &module)?)
}
