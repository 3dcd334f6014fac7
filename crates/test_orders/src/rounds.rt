//! The simplifier beside its passes in a row, again and again.
use std::alloc::{AllocError, Global};
use std::fmt::Write;
use swc_ast::Mark;
use swc_branch::dead_branch_remover;
use swc_dce::dce;
use swc_expr::expr_simplifier;
use swc_optimization::{Config, simplifier};
use swc_pass::{Chain, Pass, Repeat, Repeated};
use swc_text::{print, read_module};

/// What a run leaves, and what is told of it.
#[derive(Drop, PartialEq)]
struct Outcome {
    left: String,
    rounds: usize,
    reached: bool,
    changed: bool,
}

/// Tells how many rounds a text has, with 0, 1, 2, 3 and 100 of them at most; below that the same where some names are retained.
pub fn rounds(
    alloc: Global,
    told: &mut String,
    retained: &[String],
    text: &str,
    mark: Mark,
) -> anyhow::Result<()> {
    told.push_str("rounds:")?;
    push_rounds(alloc, told, &[], text, mark)?;
    if !retained.is_empty() {
        told.push_str("retained:")?;
        push_rounds(alloc, told, retained, text, mark)?;
    }
    Ok(())
}

fn push_rounds(
    alloc: Global,
    told: &mut String,
    retained: &[String],
    text: &str,
    mark: Mark,
) -> anyhow::Result<()> {
    for most in [0, 1, 2, 3, 100] {
        let all = simplified(alloc, config(alloc, retained, most)?, text, mark)?;
        let row = repeated(alloc, config(alloc, retained, most)?, text, mark)?;
        push_count(told, all.rounds, all.reached, all == row)?;
    }
    told.push('\n')?;
    Ok(())
}

fn push_count(
    told: &mut String,
    rounds: usize,
    reached: bool,
    is_same: bool,
) -> anyhow::Result<()> {
    if !is_same {
        told.push_str(" WRONG:")?;
    }
    write!(told, " {rounds}")?;
    if reached {
        told.push_str(" reached")?;
    }
    Ok(())
}

/// What passes are told.
fn config(alloc: Global, retained: &[String], most: usize) -> Result<Config, AllocError> {
    let retained = retained.to_vec(alloc)?;
    let mut config = Config::new(alloc);
    config.max_rounds = most;
    config.dce.top_retain = retained;
    Ok(config)
}

/// What a pass leaves of a text.
fn left<P: Pass>(alloc: Global, pass: &mut P, text: &str, mark: Mark) -> anyhow::Result<String> {
    let answer = pass.run(alloc, &read_module(alloc, text, mark)?)?;
    Ok(print(alloc, &answer)?)
}

/// What the simplifier makes of a text.
fn simplified(alloc: Global, config: Config, text: &str, mark: Mark) -> anyhow::Result<Outcome> {
    let mut pass = simplifier(mark, config);
    Ok(Outcome {
        left: left(alloc, &mut pass, text, mark)?,
        rounds: pass.rounds(),
        reached: pass.reached(),
        changed: pass.changed(),
    })
}

/// What its passes in a row make of a text.
fn repeated(alloc: Global, config: Config, text: &str, mark: Mark) -> anyhow::Result<Outcome> {
    let expressions = expr_simplifier(mark, config.expr);
    let front = Chain::new(expressions, dead_branch_remover(mark));
    let row = Chain::new(front, dce(config.dce, mark));
    let mut pass = Repeat::new(row, config.max_rounds);
    Ok(Outcome {
        left: left(alloc, &mut pass, text, mark)?,
        rounds: pass.rounds(),
        reached: pass.reached(),
        changed: pass.changed(),
    })
}
