//! Runs of the program `shake`, with streams in memory.
use crate::words::push_word;
use shake_run::run;
use std::alloc::Global;
use std::fmt::Write;

/// The words behind the program's name.
#[derive(Drop)]
pub struct CommandLine {
    words: Vec<String>,
}

impl CommandLine {
    /// The words of a line.
    pub fn parse(alloc: Global, line: &str) -> anyhow::Result<CommandLine> {
        let mut words = Vec::new(alloc);
        for word in line.split_whitespace() {
            push_word(alloc, &mut words, word)?;
        }
        Ok(CommandLine { words })
    }

    /// Tells what the program writes, or its status and what it says, with a text as its input.
    pub fn run(&self, alloc: Global, told: &mut String, text: &str) -> anyhow::Result<()> {
        let mut input = text.as_bytes();
        let (mut output, mut errors) = (Vec::new(alloc), Vec::new(alloc));
        let words = self.words.as_slice();
        let status = run(alloc, words, &mut input, &mut output, &mut errors);
        let is_read = input.len() != text.len();
        // The last line of a compact text has no end.
        if status == 0 && words.iter().any(|word| word.as_str() == "--compact") {
            output.push(b'\n')?;
        }
        push_run(
            alloc,
            told,
            status,
            output.as_slice(),
            errors.as_slice(),
            is_read,
        )
    }
}

/// Tells of a run, by the bytes that it writes and says.
fn push_run(
    alloc: Global,
    told: &mut String,
    status: u8,
    output: &[u8],
    errors: &[u8],
    is_read: bool,
) -> anyhow::Result<()> {
    let output = String::from_utf8_lossy(alloc, output)?;
    let said = String::from_utf8_lossy(alloc, errors)?;
    if status == 0 {
        push_written(told, output.as_str(), said.as_str())
    } else {
        push_failed(told, status, output.as_str(), said.as_str(), is_read)
    }
}

/// Tells of a run that succeeds.
fn push_written(told: &mut String, output: &str, said: &str) -> anyhow::Result<()> {
    told.push_str(output)?;
    if output.is_empty() {
        told.push_str("(nothing)\n")?;
    } else if !output.ends_with('\n') {
        told.push_str("\nWRONG: the last line has no end\n")?;
    }
    if !said.is_empty() {
        told.push_str("WRONG: something is said: ")?;
        told.push_str(said)?;
    }
    Ok(())
}

/// Tells of a run that fails.
fn push_failed(
    told: &mut String,
    status: u8,
    output: &str,
    said: &str,
    is_read: bool,
) -> anyhow::Result<()> {
    write!(told, "status {status}: ")?;
    told.push_str(said)?;
    if !said.ends_with('\n') {
        told.push_str("\nWRONG: what is said has no end\n")?;
    }
    if !output.is_empty() {
        told.push_str("WRONG: something is written: ")?;
        told.push_str(output)?;
    }
    if status == 2 && is_read {
        told.push_str("WRONG: the input is read\n")?;
    }
    Ok(())
}
