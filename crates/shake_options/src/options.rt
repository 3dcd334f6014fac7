//! A pass and its options.
ghost use Rattle.std.specs.Prelude.{◌≡◌, IfOk, string_bytes, map};
ghost use Rattle.std.specs.List.{list_all};
ghost use Rattle.std.specs.Char.{is_ascii_digit};
ghost use Rattle.shake_options.specs.CommandLine.{count_in, pass_named, defaults, takes_operand, switched, valued, command_line, retained_in};

use crate::flags::Flag;
use std::alloc::{AllocError, Global};

/// The passes that can be named.
#[derive(Clone, Copy, Debug, PartialEq, Eq)]
pub enum PassName {
    Expr,
    Branch,
    Dce,
    Simplify,
    Optimize,
    Const,
    Inline,
    Json,
}

impl PassName {
    /// The pass of this name; none where there is no such pass.
    pub fn named(name: &str) -> Option<PassName>
        ensures { result ≡ pass_named name.now }
    {
        match name {
            "expr" => Some(PassName::Expr),
            "branch" => Some(PassName::Branch),
            "dce" => Some(PassName::Dce),
            "simplify" => Some(PassName::Simplify),
            "optimize" => Some(PassName::Optimize),
            "const" => Some(PassName::Const),
            "inline" => Some(PassName::Inline),
            "json" => Some(PassName::Json),
            _ => None,
        }
    }
}

/// A pass and its options. Those that the pass doesn't use are taken and unread.
#[derive(Clone, Copy, Debug, PartialEq, Eq)]
pub struct Options {
    pub pass: PassName,
    /// Whether declarations at the top of the module may go.
    pub top_level: bool,
    /// Whether an import whose names are dropped stays for its effects.
    pub preserve_imports_with_side_effects: bool,
    /// How many rounds may be run.
    pub max_rounds: usize,
    /// How many bytes of JSON a literal has at least to be replaced.
    pub min_cost: usize,
    /// Whether the answer is printed without white space that it doesn't need.
    pub compact: bool,
}

impl Options {
    /// The options of the words behind the program's name: a pass, and then options, of which the last of a kind
    /// counts. None where a word isn't understood, an operand is missing, or one that gives something has no key.
    pub fn parse(args: &[String]) -> Option<Options>
        ensures { result ≡ command_line (map string_bytes args.now) }
    {
        let mut words = args.iter();
        let pass = PassName::named(words.next()?.as_str())?;
        let mut options = Options::of(pass);
        while let Some(word) = words.next() {
            let word = word.as_str();
            options = if takes_operand(word) {
                options.valued(word, words.next()?.as_str())?
            } else {
                options.switched(word)?
            };
        }
        Some(options)
    }

    fn of(pass: PassName) -> Options
        ensures { result ≡ defaults pass }
    {
        Options {
            pass,
            top_level: true,
            preserve_imports_with_side_effects: true,
            max_rounds: usize::MAX,
            min_cost: 1024,
            compact: false,
        }
    }

    fn switched(self, word: &str) -> Option<Options>
        ensures { result ≡ switched word.now self }
    {
        match word {
            "--keep-top" => Some(Options {
                top_level: false,
                ..self
            }),
            "--drop-imports" => Some(Options {
                preserve_imports_with_side_effects: false,
                ..self
            }),
            "--compact" => Some(Options {
                compact: true,
                ..self
            }),
            _ => None,
        }
    }

    fn valued(self, word: &str, operand: &str) -> Option<Options>
        ensures { result ≡ valued word.now operand.now self }
    {
        match word {
            "--retain" => Some(self),
            "--rounds" => Some(Options {
                max_rounds: count(operand)?,
                ..self
            }),
            "--min-cost" => Some(Options {
                min_cost: count(operand)?,
                ..self
            }),
            _ => Flag::of(word, operand).map(|_| self),
        }
    }
}

/// The texts of names that stay: the operands of `--retain`, in order. Refuses only where memory is refused.
pub fn retained(alloc: Global, args: &[String]) -> Result<Vec<String>, AllocError>
    ensures { IfOk result (λ texts. map string_bytes texts.items ≡ retained_in (map string_bytes args.now)) }
{
    let mut texts = Vec::new(alloc);
    let mut words = args.iter();
    words.next();
    while let Some(word) = words.next() {
        let word = word.as_str();
        if takes_operand(word) {
            let Some(operand) = words.next() else {
                break;
            };
            if word == "--retain" {
                texts.push(operand.clone()?)?;
            }
        }
    }
    Ok(texts)
}

/// Whether a word is an option whose operand is the next word.
pub fn takes_operand(word: &str) -> bool
    ensures { result ≡ takes_operand word.now }
{
    matches!(
        word,
        "--retain" | "--rounds" | "--min-cost" | "--define" | "--env" | "--typeof" | "--const"
    )
}

/// The number that decimal digits alone write; none for another text, and past the greatest usize.
fn count(word: &str) -> Option<usize>
    ensures { result ≡ count_in word.now }
{
    if is_decimal(word) {
        word.parse().ok()
    } else {
        None
    }
}

fn is_decimal(word: &str) -> bool
    ensures { result ≡ list_all is_ascii_digit word.now }
{
    word.as_bytes().iter().all(|byte| byte.is_ascii_digit())
}
