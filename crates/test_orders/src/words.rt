//! The words behind an order's name.
use anyhow::{Context, bail};
use std::alloc::{AllocError, Global};
use swc_optimization::Config;

/// What stands for a space inside a word.
const SPACE: char = '␣';

/// What stands for the end of a line inside a word or a text.
pub const LINE_END: char = '¶';

/// What the words behind an order's name ask for.
#[derive(Drop)]
pub struct Words {
    /// What passes are told.
    pub config: Config,
    /// Whether the texts are modules alone, and no scripts.
    pub is_for_modules: bool,
    /// Whether the number of rounds is told.
    pub counts_rounds: bool,
    /// What is given, each a key, `=` and a text.
    pub given: Vec<String>,
}

impl Words {
    /// `modules`, what passes are told, and what is given.
    pub fn parse(alloc: Global, line: &str) -> anyhow::Result<Words> {
        let mut found = Words {
            config: Config::new(alloc),
            is_for_modules: false,
            counts_rounds: false,
            given: Vec::new(alloc),
        };
        found.read(alloc, line)?;
        Ok(found)
    }

    fn read(&mut self, alloc: Global, line: &str) -> anyhow::Result<()> {
        let mut words = line.split_whitespace();
        while let Some(word) = words.next() {
            match word {
                "modules" => self.is_for_modules = true,
                "keep-top" => self.config.dce.top_level = false,
                "drop-imports" => self.config.dce.preserve_imports_with_side_effects = false,
                "retain" => {
                    let name = words.next().context("a name")?;
                    let name = String::from_str(alloc, name)?;
                    self.config.dce.top_retain.push(name)?;
                }
                "rounds" => {
                    self.config.max_rounds = words.next().context("a number")?.parse()?;
                    self.counts_rounds = true;
                }
                word if word.contains('=') => push_word(alloc, &mut self.given, word)?,
                _ => bail!("{word} is no word of an order"),
            }
        }
        Ok(())
    }
}

/// Puts what a word stands for behind others.
pub fn push_word(alloc: Global, words: &mut Vec<String>, word: &str) -> anyhow::Result<()> {
    words.push(word_of(alloc, word)?)?;
    Ok(())
}

/// What a word stands for, in which spaces and ends of lines are written as other signs. Two quotes are the empty word.
fn word_of(alloc: Global, word: &str) -> Result<String, AllocError> {
    let mut text = String::new(alloc);
    if word != "\"\"" {
        for c in word.chars() {
            text.push(match c {
                SPACE => ' ',
                LINE_END => '\n',
                c => c,
            })?;
        }
    }
    Ok(text)
}
