//! What a command line asks of the program itself.
ghost use Rattle.std.specs.Prelude.{◌≡◌, ◌≢◌, None, string_bytes, map};
ghost use Rattle.shake_options.specs.CommandLine.{command_line};
ghost use Rattle.shake_options.specs.Notices.{notice_named, notice_in};

use crate::options::Options;

/// What is said about the program, in place of its work.
#[derive(Clone, Copy, Debug, PartialEq, Eq)]
pub enum Notice {
    /// Its passes and options.
    Help,
    /// Its version.
    Version,
}

impl Notice {
    /// What the first word `--help`, `-h`, `--version` or `-v` asks for among those behind the program's name. None where the words
    /// are a pass and its options, since such a word is an operand there.
    #[tactic(auto, using(crate::proofs::Notices::asked_for_no_work))]
    pub fn asked(args: &[String]) -> Option<Notice>
        ensures notice { result ≡ notice_in (map string_bytes args.now) }
        ensures no_work { result ≢ None → command_line (map string_bytes args.now) ≡ None }
    {
        if Options::parse(args).is_some() {
            return None;
        }
        let mut words = args.iter();
        while let Some(word) = words.next() {
            let notice = Notice::named(word.as_str());
            if notice.is_some() {
                return notice;
            }
        }
        None
    }

    fn named(word: &str) -> Option<Notice>
        ensures { result ≡ notice_named word.now }
    {
        match word {
            "--help" | "-h" => Some(Notice::Help),
            "--version" | "-v" => Some(Notice::Version),
            _ => None,
        }
    }

    /// What is said.
    pub fn text(self) -> &'static str {
        match self {
            Notice::Help => HELP,
            Notice::Version => "shake 0.1.0\n",
        }
    }
}

const HELP: &str = "\
Usage: shake PASS [OPTION]* < module.js

Reads a module of JavaScript and writes what the pass makes of it.

Passes:
  simplify  expr, branch and dce, round after round, until a round changes nothing
  optimize  inline and simplify, round after round, until a round changes nothing
  expr      folds operators, conditions, sequences and members of literals
  branch    removes code that is never run, and statements that do nothing
  dce       removes declarations of names that nothing reads, and assignments to them
  const     propagates constants: numbers, booleans and null
  inline    replaces variables that always hold the same literal or variable
  json      replaces large literals by calls of JSON.parse

Options:
  --verbatim          read every module: keep word for word what isn't in the core
  --compact           write no white space that isn't needed
  --keep-top          keep what is declared at the top level
  --retain NAME       keep what is declared with this name
  --drop-imports      remove an import once all of its names are removed
  --rounds N          run at most N rounds of simplify or optimize
  --min-cost N        json replaces literals of at least N bytes of JSON (1024)
  -h, --help          write this
  -v, --version       write the version

Values that a build knows, before the pass:
  --define KEY=EXPRESSION              replace reads of a name or of members, as a.b
  --env KEY=TEXT                       replace process.env.KEY
  --typeof NAME=TEXT                   replace typeof NAME
  --const MODULE:NAME=EXPRESSION       replace an import of a module

Status 0: the result is on standard output. 1: something failed, and standard
error has the reason. 2: the words aren't understood.
";
