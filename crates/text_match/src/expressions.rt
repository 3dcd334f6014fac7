//! Expressions.
ghost use Rattle.std.specs.Prelude.{◌≡◌, ◌≤◌, ◌||◌, ◌∷◌, [], true, bytes_eq, codes, map, pos, string_bytes, IfSome, IsTrue};
ghost use Rattle.swc_ast.specs.Expressions.{array_tree, assign_tree, bin_tree, call_tree, cond_tree, item_kind, item_trees, key_value_tree, member_tree, new_tree, object_tree, quasi_text, seq_tree, shorthand_tree, spread_kind, spread_tree, tpl_tree, unary_tree, update_tree};
ghost use Rattle.swc_ast.specs.Parts.{ident_tree, lit_tree, list_trees};
ghost use Rattle.swc_ast.specs.Tree.{NameKey, TextKey, NumberKey, ε, ◌⊳◌};
ghost use Rattle.swc_ast.specs.Views.{expr_tree, prop_tree, prop_or_spread_tree};
ghost use Rattle.swc_ast.specs.declared.BinaryOp.TheVariants.{NullishCoalescing};
ghost use Rattle.swc_ast.specs.declared.UnaryOp.TheVariants.{Delete};
ghost use Rattle.text_tokens.specs.Texts.{TemplateText};
ghost use Rattle.text_match.specs.Grammar as grammar;
ghost use Rattle.text_match.specs.Grammar.{Written, Bare, Row, Others, Arguments, Target, Parts, Item, Items, Property, Properties, Value, KeyText, IsExpressionText};
ghost use Rattle.text_match.specs.Lists.{Listed, ListedProperty};
ghost use Rattle.text_match.specs.Parentheses.{Opens, Closes};

use crate::operators::{
    after_binary, after_unary, assign_text, left_least, right_least, strength, update_text,
};
use swc_ast::{
    ArrayLit, AssignExpr, AssignTarget, BinExpr, BinaryOp, CallExpr, CondExpr, Expr, ExprOrSpread,
    Ident, IdentName, KeyValueProp, Lit, MemberExpr, MemberProp, NewExpr, Number, ObjectLit, Prop,
    PropName, PropOrSpread, SeqExpr, SpreadElement, Str, Tpl, TplElement, UnaryExpr, UnaryOp,
    UpdateExpr,
};
use text_tokens::{
    after_blanks, after_identifier, after_name, after_number, after_quoted, after_sign,
    after_template_text, after_word, at_token,
};

/// What is behind a name that is read.
fn after_ident<'a>(name: &Ident, text: &'a [u8]) -> Option<&'a [u8]>
    ensures { IfSome result (λ rest. Bare 19 (ident_tree name.now) text.now rest.now) }
{
    after_identifier(text, name.sym.as_str().as_bytes())
}

/// The number itself, where it isn't negative.
fn natural(value: i64) -> Option<u64>
    ensures { IfSome result (λ number. value ≡ pos number) }
{
    if value >= 0 { Some(value as u64) } else { None }
}

/// What is behind a literal. One that is negative isn't looked for.
fn after_literal<'a>(literal: &Lit, text: &'a [u8]) -> Option<&'a [u8]>
    ensures { IfSome result (λ rest. Bare 19 (lit_tree literal.now) text.now rest.now) }
{
    match literal {
        Lit::Bool(truth) => {
            if truth.value {
                after_word(text, b"true")
            } else {
                after_word(text, b"false")
            }
        }
        Lit::Null(_) => after_word(text, b"null"),
        Lit::Num(number) => {
            let whole = number.value;
            let value = natural(whole)?;
            after_number(text, value)
        }
        Lit::Str(string) => after_quoted(text, string.value.as_bytes()),
    }
}

/// Where an expression begins, by its span: the number of its first byte, from 1 on.
fn start_of(expr: &Expr) -> u32 {
    match expr {
        Expr::This(node) => node.span.lo,
        Expr::Array(node) => node.span.lo,
        Expr::Object(node) => node.span.lo,
        Expr::Fn(node) => node.function.span.lo,
        Expr::Unary(node) => node.span.lo,
        Expr::Update(node) => node.span.lo,
        Expr::Bin(node) => node.span.lo,
        Expr::Assign(node) => node.span.lo,
        Expr::Member(node) => node.span.lo,
        Expr::Cond(node) => node.span.lo,
        Expr::Call(node) => node.span.lo,
        Expr::New(node) => node.span.lo,
        Expr::Seq(node) => node.span.lo,
        Expr::Ident(node) => node.span.lo,
        Expr::Tpl(node) => node.span.lo,
        Expr::Arrow(node) => node.span.lo,
        Expr::Invalid(node) => node.span.lo,
        Expr::Lit(_) => 0,
    }
}

/// How tightly an expression binds, as far as it is told.
fn tightness(expr: &Expr) -> u8 {
    match expr {
        Expr::Seq(_) => 0,
        Expr::Assign(_) | Expr::Arrow(_) => 1,
        Expr::Cond(_) => 2,
        Expr::Bin(node) => strength(node.op),
        Expr::Unary(_) => 15,
        Expr::Update(_) => 16,
        Expr::Call(_) => 17,
        _ => 19,
    }
}

/// Whether a parenthesis at the front is one round the whole expression: where the expression has to stand in one, or begins
/// behind it by its span. What is told wrongly here is not found behind it.
fn is_wrapped(expr: &Expr, least: u8, text: &[u8], whole: usize) -> bool {
    match after_sign(text, b"(") {
        Some(rest) => {
            tightness(expr) < least || whole.saturating_sub(rest.len()) < start_of(expr) as usize
        }
        None => false,
    }
}

/// How many parentheses at the front are round an expression, and what is behind them.
fn opened<'a>(expr: &Expr, least: u8, text: &'a [u8], whole: usize) -> (usize, &'a [u8])
    ensures { Opens result.0 text.now result.1.now }
{
    let mut rest = text;
    let mut least = least;
    for count in 0..text.len() {
        if !is_wrapped(expr, least, rest, whole) {
            return (count, rest);
        }
        let Some(inside) = after_sign(rest, b"(") else {
            return (count, rest);
        };
        rest = inside;
        least = 0;
    }
    (text.len(), rest)
}

/// What is behind so many closing parentheses.
fn closed<'a>(text: &'a [u8], count: usize) -> Option<&'a [u8]>
    ensures { IfSome result (λ rest. Closes count text.now rest.now) }
{
    let mut rest = text;
    for _closed in 0..count {
        rest = after_sign(rest, b")")?;
    }
    Some(rest)
}

/// What is behind an expression that has to be of this production or a later one, or in parentheses, where it stands at the front.
/// The whole text has so many bytes.
#[cycle(matching)]
pub fn after_expr<'a>(expr: &Expr, least: u8, text: &'a [u8], whole: usize) -> Option<&'a [u8]>
    ensures { IfSome result (λ rest. Written least (expr_tree expr.now) text.now rest.now) }
{
    let (count, inside) = opened(expr, least, text, whole);
    let wanted = if count == 0 { least } else { 0 };
    let (production, rest) = after_bare(expr, wanted, inside, whole)?;
    if count == 0 && production < least {
        return None;
    }
    closed(rest, count)
}

/// The same without parentheses, and the production. A member is looked for as what is no call, where it has to be.
#[cycle(matching)]
fn after_bare<'a>(expr: &Expr, least: u8, text: &'a [u8], whole: usize) -> Option<(u8, &'a [u8])>
    ensures { IfSome result (λ found. Bare found.0 (expr_tree expr.now) text.now found.1.now) }
{
    match expr {
        Expr::This(_) => Some((19, after_word(text, b"this")?)),
        Expr::Ident(name) => Some((19, after_ident(name, text)?)),
        Expr::Lit(literal) => Some((19, after_literal(literal, text)?)),
        Expr::Unary(node) => Some((15, after_unary_expr(node, text, whole)?)),
        Expr::Bin(node) => after_binary_expr(node, text, whole),
        Expr::Tpl(node) => Some((19, after_template(node, text, whole)?)),
        Expr::Array(node) => Some((19, after_array(node, text, whole)?)),
        Expr::Object(node) => Some((19, after_object(node, text, whole)?)),
        Expr::Update(node) => Some((16, after_update(node, text, whole)?)),
        Expr::Assign(node) => Some((1, after_assign(node, text, whole)?)),
        Expr::New(node) => after_new(node, text, whole),
        Expr::Cond(node) => Some((2, after_cond(node, text, whole)?)),
        Expr::Member(node) => {
            let level = member_level(least);
            Some((level, after_member(node, level, text, whole)?))
        }
        Expr::Call(node) => Some((17, after_call(node, text, whole)?)),
        Expr::Seq(node) => Some((0, after_seq(node, text, whole)?)),
        _ => None,
    }
}

/// `-a`
#[cycle(matching)]
fn after_unary_expr<'a>(node: &UnaryExpr<Expr>, text: &'a [u8], whole: usize) -> Option<&'a [u8]>
    ensures { IfSome result (λ rest. Bare 15 (unary_tree expr_tree node.now) text.now rest.now) }
{
    if !has_operand(node.op, &node.arg) {
        return None;
    }
    let operand = after_unary(text, node.op)?;
    after_expr(&node.arg, 15, operand, whole)
}

/// `a + b`, and the production.
#[cycle(matching)]
fn after_binary_expr<'a>(
    node: &BinExpr<Expr>,
    text: &'a [u8],
    whole: usize,
) -> Option<(u8, &'a [u8])>
    ensures { IfSome result (λ found. Bare found.0 (bin_tree expr_tree node.now) text.now found.1.now) }
{
    if is_chain(node, text, whole) {
        let rest = after_coalesce(node, text, whole)?;
        return Some((3, rest));
    }
    let behind = after_bin(node, text, whole)?;
    Some((strength(node.op), behind))
}

/// Whether an operator is `??`.
fn is_coalescing(op: BinaryOp) -> bool
    ensures { IsTrue result → op ≡ NullishCoalescing }
{
    match op {
        BinaryOp::NullishCoalescing => true,
        _ => false,
    }
}

/// Whether `??` stands behind another one, whose operands aren't in parentheses of their own. What is told wrongly here isn't found.
fn is_chain(node: &BinExpr<Expr>, text: &[u8], whole: usize) -> bool {
    match &*node.left {
        Expr::Bin(left) => is_coalescing(node.op)
            && is_coalescing(left.op)
            && !is_wrapped(&node.left, 3, text, whole),
        _ => false,
    }
}

/// `a + b`
#[cycle(matching)]
fn after_bin<'a>(node: &BinExpr<Expr>, text: &'a [u8], whole: usize) -> Option<&'a [u8]>
    ensures { IfSome result (λ rest. Bare (grammar.strength node.now.op) (bin_tree expr_tree node.now) text.now rest.now) }
{
    let behind_left = after_expr(&node.left, left_least(node.op), text, whole)?;
    let right = after_binary(behind_left, node.op)?;
    after_expr(&node.right, right_least(node.op), right, whole)
}

/// `a ? b : c`
#[cycle(matching)]
fn after_cond<'a>(node: &CondExpr<Expr>, text: &'a [u8], whole: usize) -> Option<&'a [u8]>
    ensures { IfSome result (λ rest. Bare 2 (cond_tree expr_tree node.now) text.now rest.now) }
{
    let behind_test = after_expr(&node.test, 3, text, whole)?;
    let cons = after_sign(behind_test, b"?")?;
    let behind_cons = after_expr(&node.cons, 1, cons, whole)?;
    let alt = after_sign(behind_cons, b":")?;
    after_expr(&node.alt, 1, alt, whole)
}

/// Whether an expression is a member, which is no name.
fn is_member(expr: &Expr) -> bool
    ensures { IsTrue result → grammar.has_operand Delete (expr_tree expr.now) ≡ true }
{
    match expr {
        Expr::Member(_) => true,
        _ => false,
    }
}

/// Whether the operand may stand behind the operator: strict code doesn't delete names. Only members are told to be deleted.
fn has_operand(op: UnaryOp, operand: &Expr) -> bool
    ensures { IsTrue result → grammar.has_operand op (expr_tree operand.now) ≡ true }
{
    match op {
        UnaryOp::Delete => is_member(operand),
        UnaryOp::Minus
        | UnaryOp::Plus
        | UnaryOp::Bang
        | UnaryOp::Tilde
        | UnaryOp::TypeOf
        | UnaryOp::Void => true,
    }
}

/// How tightly a member binds, given what is wanted.
fn member_level(least: u8) -> u8
    ensures above { 17 ≤ result }
    ensures below { result ≤ 18 }
{
    if least == 18 { 18 } else { 17 }
}

/// `a.b`, `a[b]`
#[cycle(matching)]
fn after_member<'a>(
    node: &MemberExpr<Expr>,
    level: u8,
    text: &'a [u8],
    whole: usize,
) -> Option<&'a [u8]>
    requires above { 17 ≤ level }
    requires below { level ≤ 18 }
    ensures { IfSome result (λ rest. Bare level (member_tree expr_tree node.now) text.now rest.now) }
{
    let behind_object = after_expr(&node.obj, level, text, whole)?;
    match &node.prop {
        MemberProp::Ident(name) => {
            let word = after_sign(behind_object, b".")?;
            after_name(word, name.sym.as_str().as_bytes())
        }
        MemberProp::Computed(key) => {
            let inside = after_sign(behind_object, b"[")?;
            let rest = after_expr(&key.expr, 0, inside, whole)?;
            after_sign(rest, b"]")
        }
    }
}

/// `a ?? b ?? c`
#[cycle(matching)]
fn after_coalesce<'a>(node: &BinExpr<Expr>, text: &'a [u8], whole: usize) -> Option<&'a [u8]>
    ensures { IfSome result (λ rest. Bare 3 (bin_tree expr_tree node.now) text.now rest.now) }
{
    if !is_coalescing(node.op) {
        return None;
    }
    let (production, behind_left) = after_bare(&node.left, 3, text, whole)?;
    if production != 3 {
        return None;
    }
    let right = after_sign(behind_left, b"??")?;
    after_expr(&node.right, 6, right, whole)
}

/// `new F(a)`, `new F`, and the production.
#[cycle(matching)]
fn after_new<'a>(node: &NewExpr<Expr>, text: &'a [u8], whole: usize) -> Option<(u8, &'a [u8])>
    ensures { IfSome result (λ found. Bare found.0 (new_tree expr_tree node.now) text.now found.1.now) }
{
    let callee = after_word(text, b"new")?;
    let behind_callee = after_expr(&node.callee, 18, callee, whole)?;
    if let Some(rest) = after_arguments(&node.args, behind_callee, whole) {
        return Some((18, rest));
    }
    let count = node.args.len();
    if count == 0 {
        Some((16, behind_callee))
    } else {
        None
    }
}

/// Whether strict code may write to a target.
fn is_writable(target: &AssignTarget<Expr>) -> bool
    ensures { result ≡ grammar.is_writable target.now }
{
    match target {
        AssignTarget::Ident(name) => !is_evil(name.sym.as_str().as_bytes()),
        AssignTarget::Member(_) => true,
    }
}

/// Whether a word is `eval` or `arguments`.
fn is_evil(word: &[u8]) -> bool
    ensures { result ≡ (bytes_eq word.now (codes "eval") || bytes_eq word.now (codes "arguments")) }
{
    is_same(word, b"eval") || is_same(word, b"arguments")
}

fn is_same(word: &[u8], other: &[u8]) -> bool
    ensures { result ≡ bytes_eq word.now other.now }
{
    word == other
}

/// What is written to. It isn't looked for in parentheses.
#[cycle(matching)]
fn after_target<'a>(target: &AssignTarget<Expr>, text: &'a [u8], whole: usize) -> Option<&'a [u8]>
    ensures { IfSome result (λ rest. Target target.now text.now rest.now) }
{
    if !is_writable(target) {
        return None;
    }
    match target {
        AssignTarget::Ident(name) => after_ident(name, text),
        AssignTarget::Member(member) => after_member(member, 17, text, whole),
    }
}

/// `++a`, `a++`
#[cycle(matching)]
fn after_update<'a>(node: &UpdateExpr<Expr>, text: &'a [u8], whole: usize) -> Option<&'a [u8]>
    ensures { IfSome result (λ rest. Bare 16 (update_tree expr_tree node.now) text.now rest.now) }
{
    let in_front = node.prefix;
    if in_front {
        let target = after_sign(text, update_text(node.op))?;
        return after_target(&node.arg, target, whole);
    }
    let behind_target = after_target(&node.arg, text, whole)?;
    let (line, sign) = at_token(behind_target)?;
    if line {
        return None;
    }
    after_sign(sign, update_text(node.op))
}

/// `a = b`
#[cycle(matching)]
fn after_assign<'a>(node: &AssignExpr<Expr>, text: &'a [u8], whole: usize) -> Option<&'a [u8]>
    ensures { IfSome result (λ rest. Bare 1 (assign_tree expr_tree node.now) text.now rest.now) }
{
    let behind_target = after_target(&node.left, text, whole)?;
    let value = after_sign(behind_target, assign_text(node.op))?;
    after_expr(&node.right, 1, value, whole)
}

/// A template.
#[cycle(matching)]
fn after_template<'a>(node: &Tpl<Expr>, text: &'a [u8], whole: usize) -> Option<&'a [u8]>
    ensures { IfSome result (λ rest. Bare 19 (tpl_tree expr_tree node.now) text.now rest.now) }
{
    let inside = after_sign(text, b"`")?;
    after_parts(&node.quasis, &node.exprs, inside, whole)
}

/// A text of a template.
fn after_quasi<'a>(quasi: &TplElement, last: bool, text: &'a [u8]) -> Option<&'a [u8]>
    ensures { IfSome result (λ rest. (quasi.now.tail ≡ last) × TemplateText last (string_bytes quasi.now.cooked) text.now rest.now) }
{
    let tail = quasi.tail;
    if tail == last {
        after_template_text(text, quasi.cooked.as_bytes(), last)
    } else {
        None
    }
}

/// The first text of a template and the others.
fn first_quasi(quasis: &[TplElement]) -> Option<(&TplElement, &[TplElement])>
    ensures { IfSome result (λ found. quasis.now ≡ found.0.now ∷ found.1.now) }
{
    quasis.split_first()
}

/// The texts of a template, and the expressions between them.
#[cycle(matching)]
fn after_parts<'a>(
    quasis: &[TplElement],
    exprs: &[Expr],
    text: &'a [u8],
    whole: usize,
) -> Option<&'a [u8]>
    ensures { IfSome result (λ rest. Parts (map quasi_text quasis.now) (list_trees expr_tree exprs.now) text.now rest.now) }
{
    let mut left = quasis;
    let mut rest = text;
    for expr in exprs {
        let (quasi, others) = first_quasi(left)?;
        let inside = after_quasi(quasi, false, rest)?;
        let behind_expr = after_expr(expr, 0, inside, whole)?;
        rest = after_sign(behind_expr, b"}")?;
        left = others;
    }
    let (last, none) = first_quasi(left)?;
    let more = none.len();
    if more == 0 {
        after_quasi(last, true, rest)
    } else {
        None
    }
}

/// `[a, , ...b]`
#[cycle(matching)]
fn after_array<'a>(node: &ArrayLit<Expr>, text: &'a [u8], whole: usize) -> Option<&'a [u8]>
    ensures { IfSome result (λ rest. Bare 19 (array_tree expr_tree node.now) text.now rest.now) }
{
    let inside = after_sign(text, b"[")?;
    after_items(&node.elems, inside, whole)
}

/// An item of an array.
#[cycle(matching)]
fn after_item<'a>(item: &ExprOrSpread<Expr>, text: &'a [u8], whole: usize) -> Option<&'a [u8]>
    ensures { IfSome result (λ rest. Item (spread_kind item.now.spread) (expr_tree item.now.expr.value) text.now rest.now) }
{
    match item.spread {
        Some(_) => {
            let inside = after_sign(text, b"...")?;
            after_expr(&item.expr, 1, inside, whole)
        }
        None => after_expr(&item.expr, 1, text, whole),
    }
}

/// An item that is no hole with the comma behind it, or the last one with the closing bracket; the truth value says which.
#[cycle(matching)]
fn after_listed_item<'a>(
    item: &ExprOrSpread<Expr>,
    text: &'a [u8],
    whole: usize,
) -> Option<(bool, &'a [u8])>
    ensures { IfSome result (λ found. Listed found.0 (spread_kind item.now.spread) (expr_tree item.now.expr.value ⊳ ε) text.now found.1.now) }
{
    let behind = after_item(item, text, whole)?;
    match after_sign(behind, b",") {
        Some(next) => Some((false, next)),
        None => {
            let end = after_sign(behind, b"]")?;
            Some((true, end))
        }
    }
}

/// The same of an item that may be a hole.
#[cycle(matching)]
fn after_listed<'a>(
    item: &Option<ExprOrSpread<Expr>>,
    text: &'a [u8],
    whole: usize,
) -> Option<(bool, &'a [u8])>
    ensures { IfSome result (λ found. Listed found.0 (item_kind item.now) (item_trees expr_tree (item.now ∷ [])) text.now found.1.now) }
{
    match item {
        Some(inner) => after_listed_item(inner, text, whole),
        None => {
            let next = after_sign(text, b",")?;
            Some((false, next))
        }
    }
}

/// The items of an array, with the closing bracket.
#[cycle(matching)]
fn after_items<'a>(
    items: &[Option<ExprOrSpread<Expr>>],
    text: &'a [u8],
    whole: usize,
) -> Option<&'a [u8]>
    ensures { IfSome result (λ rest. Items (map item_kind items.now) (item_trees expr_tree items.now) text.now rest.now) }
{
    let mut rest = text;
    for (i, item) in items.iter().enumerate() {
        let (is_last, next) = after_listed(item, rest, whole)?;
        if is_last {
            let left = items.len() - i;
            if left == 1 {
                return Some(next);
            }
            return None;
        }
        rest = next;
    }
    after_sign(rest, b"]")
}

/// `{a: 1, b, ...c}`
#[cycle(matching)]
fn after_object<'a>(
    node: &ObjectLit<PropOrSpread>,
    text: &'a [u8],
    whole: usize,
) -> Option<&'a [u8]>
    ensures { IfSome result (λ rest. Bare 19 (object_tree prop_or_spread_tree node.now) text.now rest.now) }
{
    let inside = after_sign(text, b"{")?;
    after_properties(&node.props, inside, whole)
}

/// A property with the comma behind it, or the last one with the closing brace; the truth value says which.
#[cycle(matching)]
fn after_listed_property<'a>(
    prop: &PropOrSpread,
    text: &'a [u8],
    whole: usize,
) -> Option<(bool, &'a [u8])>
    ensures { IfSome result (λ found. ListedProperty found.0 (prop_or_spread_tree prop.now) text.now found.1.now) }
{
    let behind = after_property(prop, text, whole)?;
    match after_sign(behind, b",") {
        Some(next) => Some((false, next)),
        None => {
            let end = after_sign(behind, b"}")?;
            Some((true, end))
        }
    }
}

/// The properties of an object, with the closing brace.
#[cycle(matching)]
fn after_properties<'a>(props: &[PropOrSpread], text: &'a [u8], whole: usize) -> Option<&'a [u8]>
    ensures { IfSome result (λ rest. Properties (list_trees prop_or_spread_tree props.now) text.now rest.now) }
{
    let mut rest = text;
    for (i, prop) in props.iter().enumerate() {
        let (is_last, next) = after_listed_property(prop, rest, whole)?;
        if is_last {
            let left = props.len() - i;
            if left == 1 {
                return Some(next);
            }
            return None;
        }
        rest = next;
    }
    after_sign(rest, b"}")
}

/// A property, or what is spread.
#[cycle(matching)]
fn after_property<'a>(prop: &PropOrSpread, text: &'a [u8], whole: usize) -> Option<&'a [u8]>
    ensures { IfSome result (λ rest. Property (prop_or_spread_tree prop.now) text.now rest.now) }
{
    match prop {
        PropOrSpread::Spread(node) => after_spread(node, text, whole),
        PropOrSpread::Prop(inner) => after_prop(inner, text, whole),
    }
}

/// `...a`
#[cycle(matching)]
fn after_spread<'a>(node: &SpreadElement<Expr>, text: &'a [u8], whole: usize) -> Option<&'a [u8]>
    ensures { IfSome result (λ rest. Property (spread_tree expr_tree node.now) text.now rest.now) }
{
    let inside = after_sign(text, b"...")?;
    after_expr(&node.expr, 1, inside, whole)
}

/// A property that isn't spread. Methods aren't looked for yet.
#[cycle(matching)]
fn after_prop<'a>(prop: &Prop, text: &'a [u8], whole: usize) -> Option<&'a [u8]>
    ensures { IfSome result (λ rest. Property (prop_tree prop.now) text.now rest.now) }
{
    match prop {
        Prop::Shorthand(name) => after_shorthand(name, text),
        Prop::KeyValue(node) => after_key_value(node, text, whole),
        Prop::Method(_) => None,
    }
}

/// `{a}`
fn after_shorthand<'a>(name: &Ident, text: &'a [u8]) -> Option<&'a [u8]>
    ensures { IfSome result (λ rest. Property (shorthand_tree name.now) text.now rest.now) }
{
    after_identifier(text, name.sym.as_str().as_bytes())
}

/// A key that is a name.
fn after_name_key<'a>(name: &IdentName, text: &'a [u8]) -> Option<&'a [u8]>
    ensures { IfSome result (λ rest. KeyText (NameKey name.now.sym) text.now rest.now) }
{
    after_name(text, name.sym.as_str().as_bytes())
}

/// A key that is a text.
fn after_text_key<'a>(string: &Str, text: &'a [u8]) -> Option<&'a [u8]>
    ensures { IfSome result (λ rest. KeyText (TextKey (string_bytes string.now.value)) text.now rest.now) }
{
    after_quoted(text, string.value.as_bytes())
}

/// A key that is a number.
fn after_number_key<'a>(number: &Number, text: &'a [u8]) -> Option<&'a [u8]>
    ensures { IfSome result (λ rest. KeyText (NumberKey number.now.value) text.now rest.now) }
{
    let whole = number.value;
    let value = natural(whole)?;
    after_number(text, value)
}

/// The value behind a key and its colon.
#[cycle(matching)]
fn after_value<'a>(value: &Expr, text: &'a [u8], whole: usize) -> Option<&'a [u8]>
    ensures { IfSome result (λ rest. Value (expr_tree value.now) text.now rest.now) }
{
    let inside = after_sign(text, b":")?;
    after_expr(value, 1, inside, whole)
}

/// `key: value`
#[cycle(matching)]
fn after_key_value<'a>(node: &KeyValueProp<Expr>, text: &'a [u8], whole: usize) -> Option<&'a [u8]>
    ensures { IfSome result (λ rest. Property (key_value_tree expr_tree node.now) text.now rest.now) }
{
    match &node.key {
        PropName::Ident(name) => {
            let behind_key = after_name_key(name, text)?;
            after_value(&node.value, behind_key, whole)
        }
        PropName::Str(string) => {
            let behind_key = after_text_key(string, text)?;
            after_value(&node.value, behind_key, whole)
        }
        PropName::Num(number) => {
            let behind_key = after_number_key(number, text)?;
            after_value(&node.value, behind_key, whole)
        }
        PropName::Computed(key) => {
            let inside = after_sign(text, b"[")?;
            let behind_expr = after_expr(&key.expr, 1, inside, whole)?;
            let behind_key = after_sign(behind_expr, b"]")?;
            after_value(&node.value, behind_key, whole)
        }
    }
}

/// `a, b`
#[cycle(matching)]
fn after_seq<'a>(node: &SeqExpr<Expr>, text: &'a [u8], whole: usize) -> Option<&'a [u8]>
    ensures { IfSome result (λ rest. Bare 0 (seq_tree expr_tree node.now) text.now rest.now) }
{
    after_row(&node.exprs, text, whole)
}

/// `f(a)`
#[cycle(matching)]
fn after_call<'a>(node: &CallExpr<Expr>, text: &'a [u8], whole: usize) -> Option<&'a [u8]>
    ensures { IfSome result (λ rest. Bare 17 (call_tree expr_tree node.now) text.now rest.now) }
{
    let behind_callee = after_expr(&node.callee, 17, text, whole)?;
    after_arguments(&node.args, behind_callee, whole)
}

/// `(a, b)`
#[cycle(matching)]
fn after_arguments<'a>(args: &Vec<Expr>, text: &'a [u8], whole: usize) -> Option<&'a [u8]>
    ensures { IfSome result (λ rest. Arguments (list_trees expr_tree args.now.items) text.now rest.now) }
{
    let inside = after_sign(text, b"(")?;
    let count = args.len();
    if count == 0 {
        return after_sign(inside, b")");
    }
    let rest = after_row(args, inside, whole)?;
    match after_sign(rest, b",") {
        Some(behind) => after_sign(behind, b")"),
        None => after_sign(rest, b")"),
    }
}

/// What is behind expressions with commas between them.
#[cycle(matching)]
fn after_row<'a>(exprs: &[Expr], text: &'a [u8], whole: usize) -> Option<&'a [u8]>
    ensures { IfSome result (λ rest. Row (list_trees expr_tree exprs.now) text.now rest.now) }
{
    match exprs {
        [first, others @ ..] => {
            let rest = after_expr(first, 1, text, whole)?;
            after_others(others, rest, whole)
        }
        _ => None,
    }
}

/// What is behind expressions with a comma before each.
#[cycle(matching)]
fn after_others<'a>(exprs: &[Expr], text: &'a [u8], whole: usize) -> Option<&'a [u8]>
    ensures { IfSome result (λ rest. Others (list_trees expr_tree exprs.now) text.now rest.now) }
{
    let mut rest = text;
    for expr in exprs {
        let inside = after_sign(rest, b",")?;
        rest = after_expr(expr, 1, inside, whole)?;
    }
    Some(rest)
}

/// Whether a text is one of an expression, with blanks round it. Where it isn't told so, it may still be one.
pub fn is_text_of_expr(expr: &Expr, text: &[u8]) -> bool
    ensures { IsTrue result → IsExpressionText (expr_tree expr.now) text.now }
{
    match after_expr(expr, 0, text, text.len()) {
        Some(rest) => after_blanks(rest).len() == 0,
        None => false,
    }
}
