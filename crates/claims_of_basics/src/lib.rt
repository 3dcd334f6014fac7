//! What is promised where no tree is, of words, of outlines, of layers of items and of command lines, for edits that must fail: each
//! function here calls the one that it is named after, under the same contract.
#![tactic(auto)]

ghost use Rattle.std.specs.Prelude.{◌≡◌, ◌≤◌, ◌<◌, ◌^◌, length, IfOk, map, option_map, string_bytes};
ghost use Rattle.dce_peel.specs.Rounds.{AreLayers};
ghost use Rattle.shake_options.specs.CommandLine.{command_line, flags_in, retained_in};
ghost use Rattle.shake_options.specs.Flags.{flag_of, flag_texts};
ghost use Rattle.text_lexer.specs.Words.{word_part};
ghost use Rattle.text_lexer.specs.declared.fault.Fault.TheVariants.{OutOfMemory};
ghost use Rattle.text_outline.specs.Order.{AreUnits};

use dce_peel::{Access, Item, Layering};
use shake_options::{Flag, Options};
use std::alloc::{AllocError, Global};
use text_lexer::Fault;
use text_outline::Outline;

/// `text_lexer::is_word_part`
pub fn is_word_part(byte: u8) -> bool
    ensures { result ≡ word_part byte }
{
    text_lexer::is_word_part(byte)
}

/// `Fault::from` of a growth that was refused.
pub fn fault_from(error: AllocError) -> Fault
    ensures { result ≡ OutOfMemory }
{
    Fault::from(error)
}

/// `text_outline::outline`
pub fn outline(alloc: Global, text: &str) -> Result<Outline<'_>, Fault>
    requires { length text.now < 2 ^ 31 }
    ensures units { IfOk result (λ outline. AreUnits text.now outline.units.items) }
{
    text_outline::outline(alloc, text)
}

/// `dce_peel::layers_of`
pub fn layers_of(
    alloc: Global,
    names: usize,
    items: &[Item],
    accesses: &[Access],
    most: usize,
) -> Result<Layering, AllocError>
    ensures few { IfOk result (λ l. l.rounds ≤ most) }
    ensures layers { IfOk result (λ l. 0 < l.rounds → AreLayers items.now l.rounds l.layers.items) }
{
    dce_peel::layers_of(alloc, names, items, accesses, most)
}

/// `Options::parse`
pub fn parse(args: &[String]) -> Option<Options>
    ensures { result ≡ command_line (map string_bytes args.now) }
{
    Options::parse(args)
}

/// `shake_options::retained`
pub fn retained(alloc: Global, args: &[String]) -> Result<Vec<String>, AllocError>
    ensures { IfOk result (λ texts. map string_bytes texts.items ≡ retained_in (map string_bytes args.now)) }
{
    shake_options::retained(alloc, args)
}

/// `Flag::of`
pub fn flag<'a>(option: &str, operand: &'a str) -> Option<Flag<'a>>
    ensures { option_map flag_texts result ≡ flag_of option.now operand.now }
{
    Flag::of(option, operand)
}

/// `shake_options::flags_of`
pub fn flags_of<'a>(alloc: Global, args: &'a [String]) -> Result<Vec<Flag<'a>>, AllocError>
    ensures { IfOk result (λ flags. map flag_texts flags.items ≡ flags_in (map string_bytes args.now)) }
{
    shake_options::flags_of(alloc, args)
}
