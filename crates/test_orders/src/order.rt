//! What is done with texts.
use crate::command::CommandLine;
use crate::globals::Globals;
use crate::imports::exports;
use crate::passes::AnyPass;
use crate::peel::peeled;
use crate::rounds::rounds;
use crate::words::Words;
use anyhow::bail;
use std::alloc::Global;
use swc_ast::{Mark, PassError};
use swc_const_modules::const_modules;
use swc_dce::{TreeShaker, dce};
use swc_optimization::Config;
use swc_text::read_expr;
use test_answers::{
    Asked, Question, TextPass, compared, known, named, of_both, of_module, push_refusal, weighed,
};

/// What is done with a text.
#[derive(Drop)]
enum Task {
    Run(AnyPass),
    Put(Globals),
    /// Each text is refused, since what is given is.
    Refuse(PassError),
    Shake(CommandLine),
    Peel(TreeShaker, usize),
    Repeat(Vec<String>),
    Compare,
    Read,
    Name,
    Weigh,
    Know(Question),
}

impl Task {
    fn parse(name: &str, mark: Mark, config: Config) -> anyhow::Result<Task> {
        if let Some(what) = Question::parse(name) {
            return Ok(Task::Know(what));
        }
        Ok(match name {
            "compare" => Task::Compare,
            "expression" => Task::Read,
            "names" => Task::Name,
            "weight" => Task::Weigh,
            "peel" => Task::Peel(dce(config.dce, mark), config.max_rounds),
            "rounds" => Task::Repeat(config.dce.top_retain),
            name => Task::Run(AnyPass::parse(name, mark, config)?),
        })
    }

    /// The tasks that are given something.
    fn with(alloc: Global, name: &str, given: &[String], mark: Mark) -> anyhow::Result<Task> {
        match name {
            "globals" => Ok(Task::Put(Globals::parse(alloc, given, mark)?)),
            "imports" => Task::of_exports(alloc, given, mark),
            _ => bail!("nothing is given to {name}"),
        }
    }

    /// The task that puts what is given for imports.
    fn of_exports(alloc: Global, given: &[String], mark: Mark) -> anyhow::Result<Task> {
        let exports = exports(alloc, given)?;
        Ok(match const_modules(alloc, &exports, mark) {
            Ok(pass) => Task::Run(AnyPass::Imports(pass)),
            Err(refusal) => Task::Refuse(refusal),
        })
    }

    /// The task of a name and the words behind it.
    fn of_words(alloc: Global, name: &str, words: Words, mark: Mark) -> anyhow::Result<Task> {
        if matches!(name, "globals" | "imports") || !words.given.is_empty() {
            Task::with(alloc, name, words.given.as_slice(), mark)
        } else {
            Task::parse(name, mark, words.config)
        }
    }
}

/// What is done with the texts behind an order.
#[derive(Drop)]
pub struct Order {
    task: Task,
    /// Whether the texts are modules alone, and no scripts.
    is_for_modules: bool,
    /// Whether the number of rounds is told.
    counts_rounds: bool,
}

impl Order {
    /// An order's words: what is done, and then what the program `shake` is called with, or `modules`, what passes are told and
    /// what is given.
    pub fn parse(alloc: Global, line: &str, mark: Mark) -> anyhow::Result<Order> {
        let (name, rest) = line.split_once(' ').unwrap_or((line, ""));
        if name == "shake" {
            return Ok(Order {
                task: Task::Shake(CommandLine::parse(alloc, rest)?),
                is_for_modules: true,
                counts_rounds: false,
            });
        }
        let words = Words::parse(alloc, rest)?;
        let (is_for_modules, counts_rounds) = (words.is_for_modules, words.counts_rounds);
        Ok(Order {
            task: Task::of_words(alloc, name, words, mark)?,
            is_for_modules,
            counts_rounds,
        })
    }

    /// Tells of a text, where nothing is told yet.
    pub fn answer(
        &mut self,
        alloc: Global,
        told: &mut String,
        text: &str,
        mark: Mark,
    ) -> anyhow::Result<()> {
        let both = !self.is_for_modules;
        let asked = Asked {
            text,
            mark,
            counts_rounds: self.counts_rounds,
        };
        match &mut self.task {
            Task::Run(pass) => {
                if both {
                    of_both(alloc, told, pass, asked)
                } else {
                    of_module(alloc, told, pass, asked)
                }
            }
            Task::Put(globals) => put(alloc, told, globals, asked),
            Task::Refuse(refusal) => push_refusal(told, "error: ", refusal),
            Task::Shake(command) => command.run(alloc, told, text),
            Task::Peel(pass, most) => peeled(alloc, told, pass, *most, text, mark),
            Task::Repeat(retained) => rounds(alloc, told, retained.as_slice(), text, mark),
            Task::Compare => compared(alloc, told, text, mark, both),
            Task::Read => push_read(alloc, told, text, mark),
            Task::Name => named(alloc, told, text, mark, both),
            Task::Weigh => weighed(alloc, told, text, mark),
            Task::Know(what) => known(alloc, told, *what, text, mark),
        }
    }
}

/// Tells of a text in which what is given is put.
fn put(
    alloc: Global,
    told: &mut String,
    globals: &Globals,
    asked: Asked<'_>,
) -> anyhow::Result<()> {
    let mut pass = globals.pass(asked.mark);
    of_both(alloc, told, &mut pass, asked)
}

/// Tells whether a text is an expression.
fn push_read(alloc: Global, told: &mut String, text: &str, mark: Mark) -> anyhow::Result<()> {
    match read_expr(alloc, text, mark) {
        Ok(_) => Ok(told.push_str("an expression")?),
        Err(error) => push_refusal(told, "error: ", &error),
    }
}
