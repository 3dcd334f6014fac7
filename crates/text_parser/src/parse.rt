//! Parsing of a text.
ghost use Rattle.std.specs.Prelude.{◌<◌, ◌^◌, length};

use crate::contexts::Contexts;
use crate::cursor::{Parser, ROOM, Read, Refused};
use crate::scopes::{Mention, ScopeKind};
use std::alloc::Global;
use swc_ast::{Expr, Mark, Module, ModuleItem, Script, Span, Stmt};
use text_lexer::{Fault, Kind, tokenize};

/// A module (ECMA-262, 16.2), by its text of less than 2^31 bytes. A span is a node's first and past-last byte plus 1.
///
/// The k-th scope that the text opens gives its names the context of the mark's number plus k, where numbers past 2^31 - 1 go on
/// at 1: so no two scopes share one, and none has the mark's. Scopes are the module, each function, a function expression's own
/// name, a body whose parameters have a default, each block, `for`, `switch` and `catch`. Other names have the mark's context.
pub fn parse_module(alloc: Global, text: &str, mark: Mark) -> Result<Module, Fault>
    requires { length text.now < 2 ^ 31 }
{
    let tokens = tokenize(alloc, text)?;
    let mut parser = Parser::new(alloc, text, tokens.as_slice(), mark)?;
    match module_items(&mut parser) {
        Ok(body) => Ok(Module {
            span: span_of(text),
            body,
        }),
        Err(Refused) => Err(parser.fault),
    }
}

/// A script (ECMA-262, 16.1) of strict code, by its text. Spans and contexts are those of `parse_module`; the script is the first
/// scope.
pub fn parse_script(alloc: Global, text: &str, mark: Mark) -> Result<Script, Fault>
    requires { length text.now < 2 ^ 31 }
{
    let tokens = tokenize(alloc, text)?;
    let mut parser = Parser::new(alloc, text, tokens.as_slice(), mark)?;
    match script_statements(&mut parser) {
        Ok(body) => Ok(Script {
            span: span_of(text),
            body,
        }),
        Err(Refused) => Err(parser.fault),
    }
}

/// An expression (ECMA-262, 13.16) of module code, by its text. Spans and contexts are those of `parse_module`, but for the scope
/// of the module, which is not opened.
pub fn parse_expr(alloc: Global, text: &str, mark: Mark) -> Result<Expr, Fault>
    requires { length text.now < 2 ^ 31 }
{
    parse_spanned(alloc, text, mark, true)
}

/// The same expression with dummy spans. It is refused where `parse_expr` refuses, with the same fault.
pub fn parse_spanless_expr(alloc: Global, text: &str, mark: Mark) -> Result<Expr, Fault>
    requires { length text.now < 2 ^ 31 }
{
    // (offsets of faults are taken from spans)
    parse_spanned(alloc, text, mark, true)?;
    parse_spanned(alloc, text, mark, false)
}

fn parse_spanned(alloc: Global, text: &str, mark: Mark, has_spans: bool) -> Result<Expr, Fault>
    requires { length text.now < 2 ^ 31 }
{
    let tokens = tokenize(alloc, text)?;
    let mut parser = Parser::new(alloc, text, tokens.as_slice(), mark)?;
    parser.has_spans = has_spans;
    match whole_expression(&mut parser) {
        Ok(read) => Ok(Box::into_inner(read)),
        Err(Refused) => Err(parser.fault),
    }
}

/// The items of a module, up to the end of the text.
fn module_items<'a>(parser: &mut Parser<'a>) -> Read<Vec<ModuleItem>> {
    parser.scopes.open(ScopeKind::Function)?;
    let mut body = Vec::new(parser.alloc);
    let mut starts = Vec::new(parser.alloc);
    for _ in 0..parser.tokens.len() {
        if parser.is_at(Kind::End) {
            break;
        }
        starts.push(parser.scopes.mentions().len())?;
        body.push(parser.module_item(ROOM)?)?;
    }
    parser.expect(Kind::End)?;
    parser.refuse_undeclared_exports()?;
    parser.scopes.close();
    resolve_items(parser.scopes.mentions(), starts.as_slice(), &mut body);
    Ok(body)
}

/// The statements of a script, up to the end of the text.
fn script_statements<'a>(parser: &mut Parser<'a>) -> Read<Vec<Stmt>> {
    parser.scopes.open(ScopeKind::Function)?;
    let mut body = Vec::new(parser.alloc);
    for _ in 0..parser.tokens.len() {
        if parser.is_at(Kind::End) {
            break;
        }
        body.push(parser.item_stmt(ROOM)?)?;
    }
    parser.expect(Kind::End)?;
    parser.scopes.close();
    resolve_statements(parser.scopes.mentions(), &mut body);
    Ok(body)
}

/// An expression, up to the end of the text.
fn whole_expression<'a>(parser: &mut Parser<'a>) -> Read<Box<Expr>> {
    let mut read = parser.expression(ROOM)?;
    parser.expect(Kind::End)?;
    Contexts::new(parser.scopes.mentions()).expr(&mut read);
    Ok(read)
}

/// Gives the names of items the contexts of their mentions. An item whose names have them already is passed by: those of the i-th
/// item begin at the i-th start.
fn resolve_items(mentions: &[Mention], starts: &[usize], items: &mut Vec<ModuleItem>) {
    for i in 0..items.len() {
        let from = starts.get(i).copied().unwrap_or(0);
        let to = starts.get(i + 1).copied().unwrap_or(mentions.len());
        let found = mentions.get(from..to).unwrap_or(&[]);
        if has_late(found) {
            Contexts::new(found).module_item(&mut items[i]);
        }
    }
}

/// Whether one of the mentions is bound by what was declared behind it.
fn has_late(mentions: &[Mention]) -> bool {
    for mention in mentions {
        if mention.is_late {
            return true;
        }
    }
    false
}

fn resolve_statements(mentions: &[Mention], stmts: &mut Vec<Stmt>) {
    let mut giver = Contexts::new(mentions);
    for i in 0..stmts.len() {
        giver.stmt(&mut stmts[i]);
    }
}

/// The span of the whole text.
fn span_of(text: &str) -> Span {
    let len = u32::try_from(text.len()).unwrap_or(0);
    Span {
        lo: 1,
        hi: len.saturating_add(1),
    }
}
