//! Flags: what is given for names, for members and for imports.
ghost use Rattle.std.specs.Prelude.{◌≡◌, IfOk, map, string_bytes, option_map};
ghost use Rattle.std.specs.Path.{rsplit_once};
ghost use Rattle.shake_options.specs.CommandLine.{flags_in};
ghost use Rattle.shake_options.specs.Flags.{flag_of, flag_texts, pair_in, const_of, text_pair};

use crate::options::takes_operand;
use std::alloc::{AllocError, Global};

/// What one word gives. The texts are parts of the word.
#[derive(Clone, Copy, Debug, PartialEq, Eq)]
pub enum Flag<'a> {
    /// An expression for a name or a chain of members.
    Define {
        key: &'a str,
        value: &'a str,
    },
    /// A text for a member of `process.env`.
    Env {
        key: &'a str,
        text: &'a str,
    },
    /// A text for `typeof` of a name.
    TypeOf {
        name: &'a str,
        text: &'a str,
    },
    /// An expression for an export of a module.
    Const {
        module: &'a str,
        name: &'a str,
        value: &'a str,
    },
}

impl<'a> Flag<'a> {
    /// What an option gives with its operand: `KEY=TEXT`, and of `--const` `MODULE:NAME=TEXT`. A key ends at the first `=`,
    /// and a module's name at the last `:` in front of that. None where the option gives nothing, and where a sign is
    /// missing or nothing stands in front of it or between the two.
    pub fn of(option: &str, operand: &'a str) -> Option<Flag<'a>>
        ensures { option_map flag_texts result ≡ flag_of option.now operand.now }
    {
        let (key, value) = pair(operand)?;
        match option {
            "--define" => Some(Flag::Define { key, value }),
            "--env" => Some(Flag::Env { key, text: value }),
            "--typeof" => Some(Flag::TypeOf {
                name: key,
                text: value,
            }),
            "--const" => constant(key, value),
            _ => None,
        }
    }
}

/// What stands in front of the first `=`, and behind it.
fn pair(operand: &str) -> Option<(&str, &str)>
    ensures { option_map text_pair result ≡ pair_in operand.now }
{
    match operand.split_once('=') {
        Some((key, value)) if !key.is_empty() => Some((key, value)),
        _ => None,
    }
}

/// What stands in front of the last `:`, and behind it.
#[tactic(auto, using(crate::proofs::Lasts::split_at_last))]
fn last_pair(key: &str) -> Option<(&str, &str)>
    ensures { option_map text_pair result ≡ rsplit_once 58 key.now }
{
    key.rsplit_once(':')
}

/// The value of an export, by the module's name and the export's.
fn constant<'a>(key: &'a str, value: &'a str) -> Option<Flag<'a>>
    ensures { option_map flag_texts result ≡ const_of key.now value.now }
{
    match last_pair(key) {
        Some((module, name)) if !module.is_empty() && !name.is_empty() => Some(Flag::Const {
            module,
            name,
            value,
        }),
        _ => None,
    }
}

/// What a command line gives, in order. Refuses only where memory is refused.
pub fn flags_of<'a>(alloc: Global, args: &'a [String]) -> Result<Vec<Flag<'a>>, AllocError>
    ensures { IfOk result (λ flags. map flag_texts flags.items ≡ flags_in (map string_bytes args.now)) }
{
    let mut flags = Vec::new(alloc);
    let mut words = args.iter();
    words.next();
    while let Some(word) = words.next() {
        let word = word.as_str();
        if takes_operand(word) {
            let Some(operand) = words.next() else {
                break;
            };
            if let Some(flag) = Flag::of(word, operand.as_str()) {
                flags.push(flag)?;
            }
        }
    }
    Ok(flags)
}
