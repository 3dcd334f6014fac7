//! The word for whole modules, and the names that flags give something for.
ghost use Rattle.std.specs.Prelude.{◌<◌, length, IfSome};

use shake_options::{Flag, takes_operand};

/// Where the word `--verbatim` is among those of a command line, if it is there and no operand.
pub fn verbatim_at(args: &[String]) -> Option<usize>
    ensures place { IfSome result (λ at. at < length args.now) }
{
    let mut is_operand = false;
    for at in 0..args.len() {
        let word = args[at].as_str();
        if !is_operand && word == "--verbatim" {
            return Some(at);
        }
        is_operand = !is_operand && takes_operand(word);
    }
    None
}

/// The name in front of the first `.` or `[` of a key.
fn leading(key: &str) -> &str {
    let end = key
        .find(|sign| sign == '.' || sign == '[')
        .unwrap_or(key.len());
    key.get(..end).unwrap_or(key)
}

/// The unresolved name that a flag gives something for, or for whose members. An import is told by its locals instead.
pub(crate) fn name_given<'a>(flag: &Flag<'a>) -> Option<&'a str> {
    match *flag {
        Flag::Define { key, .. } => Some(leading(key)),
        Flag::Env { .. } => Some("process"),
        Flag::TypeOf { name, .. } => Some(name),
        Flag::Const { .. } => None,
    }
}
