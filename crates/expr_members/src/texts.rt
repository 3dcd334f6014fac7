//! Members of text literals. ECMA-262, 10.4.3.
ghost use Rattle.std.specs.Prelude.{◌≡◌, ℕ, List, Some, length, string_bytes, IfOk, IfSome, chars};
ghost use Rattle.swc_ast.specs.Operators.{units, units_of_all};
ghost use Rattle.swc_ast.specs.Tree.{StrLit, node, ε};
ghost use Rattle.swc_ast.specs.declared.Span.{Span};
ghost use Rattle.expr_rules.specs.Members.{all_basic, character};
ghost use Rattle.expr_members.specs.Members.{character_at as tree_character_at, IsCharacter, IsLength, StandsFor};

use crate::keys::{index_of, length_literal};
use std::alloc::{AllocError, Global};
use swc_ast::{Expr, Lit, Span, Str};

fn chars_of(alloc: Global, text: &str) -> Result<Vec<char>, AllocError>
    ensures { IfOk result (λ cs. cs.items ≡ chars text.now) }
{
    text.chars().collect(alloc)
}

/// How many UTF-16 units characters are.
fn units_in(chars: &[char]) -> usize
    ensures { result ≡ length (units_of_all chars.now) }
{
    let mut count = 0;
    for c in chars {
        count += c.len_utf16();
    }
    count
}

/// How many UTF-16 units a text is.
#[tactic(auto, unfolding(swc_ast::specs::Operators::units))]
fn utf16_length(alloc: Global, text: &str) -> Result<usize, AllocError>
    ensures { IfOk result (λ n. n ≡ length (units text.now)) }
{
    let chars = chars_of(alloc, text)?;
    Ok(units_in(&chars))
}

/// Whether characters are one UTF-16 unit each.
fn are_basic(chars: &[char]) -> bool
    ensures { result ≡ all_basic chars.now }
{
    for c in chars {
        if c.len_utf16() != 1 {
            return false;
        }
    }
    true
}

fn text_of(alloc: Global, c: char) -> Result<String, AllocError>
    ensures { IfOk result (λ t. character c ≡ Some (string_bytes t)) }
{
    let mut text = String::new(alloc);
    text.push(c)?;
    Ok(text)
}

/// The character of a text at an index inside it, where no character of the text lies past the basic plane.
fn character_at(alloc: Global, text: &str, i: usize) -> Result<Option<String>, AllocError>
    ensures { IfOk result (λ o. IfSome o (λ c. tree_character_at text.now i ≡ Some (string_bytes c))) }
{
    let chars = chars_of(alloc, text)?;
    if !are_basic(&chars) {
        return Ok(None);
    }
    match chars.get(i) {
        Some(c) => Ok(Some(text_of(alloc, *c)?)),
        None => Ok(None),
    }
}

/// The literal of a text's length.
fn text_length(alloc: Global, span: Span, text: &str) -> Result<Option<Expr>, AllocError>
    ensures { IfOk result (λ o. IfSome o (λ e. IsLength span (length (units text.now)) e)) }
{
    let length = utf16_length(alloc, text)?;
    Ok(length_literal(span, length))
}

/// The literal of a text's character at an index.
#[tactic(auto, using(swc_ast::proofs::Equations::forms))]
fn text_character(
    alloc: Global,
    span: Span,
    text: &str,
    i: usize,
) -> Result<Option<Expr>, AllocError>
    ensures { IfOk result (λ o. IfSome o (λ e. IsCharacter span text.now i e)) }
{
    match character_at(alloc, text, i)? {
        Some(value) => Ok(Some(Expr::Lit(Lit::Str(Str { span, value })))),
        None => Ok(None),
    }
}

/// What takes the place of a member of a text literal: its length, or the character at an index inside it, where no
/// character of the text lies past the basic plane.
pub(crate) fn text_member(
    alloc: Global,
    span: Span,
    text: &str,
    key: &str,
) -> Result<Option<Expr>, AllocError>
    ensures { (mark : ℕ) (is : List Span) → IfOk result (λ o. IfSome o (λ e. StandsFor mark (node (StrLit text.now) is ε) key.now e)) }
{
    if key == "length" {
        return text_length(alloc, span, text);
    }
    match index_of(alloc, key)? {
        Some(i) => text_character(alloc, span, text, i as usize),
        None => Ok(None),
    }
}
