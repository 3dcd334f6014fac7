//! All tests: a program that tells what becomes of texts, and tests of what no text can say: public calls that no text reaches, trees
//! that no text has or that aren't valid, streams that fail, memory that is refused, and texts that are long, wide and deep. Each
//! line of the program's input is a comment, an order or a text, and is written again; below a text stands what is told of it.
#![tactic(auto)]

#[cfg(test)]
mod calls;
#[cfg(test)]
mod carried;
#[cfg(test)]
mod chains;
#[cfg(test)]
mod invalid;
#[cfg(test)]
mod layers;
#[cfg(test)]
mod passes;
#[cfg(test)]
mod paths;
#[cfg(test)]
mod propagated;
#[cfg(test)]
mod reading;
#[cfg(test)]
mod refused;
#[cfg(test)]
mod rounds;
#[cfg(test)]
mod runs;
#[cfg(test)]
mod small;
#[cfg(test)]
mod texts;
#[cfg(test)]
mod trees;
#[cfg(test)]
mod walk;

use anyhow::Context;
use std::alloc::{AllocError, Global};
use std::io;
use swc_ast::Mark;
use test_orders::{LINE_END, Order};

fn main(rt: HostRuntime) -> anyhow::Result<()> {
    let input = io::read_to_string(rt.alloc(), rt.stdin())?;
    let mut output = String::new(rt.alloc());
    push_lines(rt.alloc(), &mut output, input.as_str())?;
    print!(rt; "{output}")?;
    Ok(())
}

/// Writes the lines of an input, with what is told of its texts.
fn push_lines(alloc: Global, output: &mut String, input: &str) -> anyhow::Result<()> {
    let mark = Mark::new(1).context("a mark")?;
    let mut order = Order::parse(alloc, "print", mark)?;
    for line in input.lines() {
        push_line(alloc, output, &mut order, line, mark)?;
    }
    Ok(())
}

/// Writes a line, with what is told of it if it is a text.
fn push_line(
    alloc: Global,
    output: &mut String,
    order: &mut Order,
    line: &str,
    mark: Mark,
) -> anyhow::Result<()> {
    output.push_str(line)?;
    output.push('\n')?;
    if let Some(words) = line.strip_prefix(": ") {
        *order = Order::parse(alloc, words, mark)?;
    } else if !line.starts_with("# ") {
        let text = text_of(alloc, line)?;
        push_answer(alloc, output, order, text.as_str(), mark)?;
    }
    Ok(())
}

/// Writes what is told of a text.
fn push_answer(
    alloc: Global,
    output: &mut String,
    order: &mut Order,
    text: &str,
    mark: Mark,
) -> anyhow::Result<()> {
    let mut told = String::new(alloc);
    order.answer(alloc, &mut told, text, mark)?;
    push_told(output, told.as_str())
}

fn push_told(output: &mut String, told: &str) -> anyhow::Result<()> {
    for line in told.lines() {
        output.push_str("  ")?;
        output.push_str(line)?;
        output.push('\n')?;
    }
    Ok(())
}

/// The text that a line stands for.
fn text_of(alloc: Global, line: &str) -> Result<String, AllocError> {
    let mut text = String::new(alloc);
    for c in line.chars() {
        text.push(if c == LINE_END { '\n' } else { c })?;
    }
    Ok(text)
}
