//! How heavy a tree is.
ghost use Rattle.std.specs.Prelude.{◌≡◌, ◌-◌, ◌^◌, min, map, if◌then◌else◌};
ghost use Rattle.swc_ast.specs.Expressions.{item_kind};
ghost use Rattle.swc_ast.specs.Modules.{module_tree, script_tree};
ghost use Rattle.swc_ast.specs.Tree.{While, For};
ghost use Rattle.swc_ast.specs.Weight.{weight as tree_weight, own_weight as node_weight, items_weight as kinds_weight, number_weight as literal_weight, test_weight as label_test_weight, is_truth_or_absent as tree_is_truth, movable as movable_in, unreached as unreached_in};
ghost use Rattle.swc_weight.specs.Classes.{class_test_weight, class_list_weight, weight_without_children};
ghost use Rattle.tree_visit.specs.Nodes.{node_tree, children_forest};
ghost use Rattle.tree_visit.specs.Kinds.{kind_label};

use swc_ast::{ExprOrSpread, Module, Script};
use tree_visit::{Children, Class, Kind, Node};

/// Returns the weight of a module, which each change of a simplifier makes smaller; at most `u64::MAX`.
pub fn weight(m: &Module) -> u64
    ensures { result ≡ min (tree_weight (module_tree m.now)) (2 ^ 64 - 1) }
{
    weight_of(Node::Module(m))
}

/// Returns the weight of a script, which each change of a simplifier makes smaller; at most `u64::MAX`.
pub fn weight_of_script(s: &Script) -> u64
    ensures { result ≡ min (tree_weight (script_tree s.now)) (2 ^ 64 - 1) }
{
    weight_of(Node::Script(s))
}

#[tactic(auto, using(crate::proofs::Caps::weight_starts, crate::proofs::Caps::weight_goes_on, crate::proofs::Caps::weight_ends, tree_visit::proofs::Caps::opened_smaller, tree_visit::proofs::Caps::child_smaller, tree_visit::proofs::Caps::rest_smaller, tree_visit::proofs::Caps::rest_falls))]
fn weight_of(n: Node<'_>) -> u64
    ensures { result ≡ min (tree_weight (node_tree n.entry)) (2 ^ 64 - 1) }
{
    let opened = n.open();
    let mut left = opened.children;
    let mut total = weight_at(opened.kind, opened.children);
    while let Some((child, rest)) = left.next() {
        total = total.saturating_add(weight_of(child));
        left = rest;
    }
    total
}

/// The weight of a node without its children's.
#[tactic(auto, using(crate::proofs::Classes::test_by, crate::proofs::Classes::list_by))]
fn weight_at(kind: Kind<'_>, children: Children<'_>) -> u64
    ensures { result ≡ min (weight_without_children (kind_label kind.entry) (children_forest children.entry)) (2 ^ 64 - 1) }
{
    let own = own_weight(kind, children);
    let class = kind.class();
    let of_test = test_weight(class, children);
    let of_list = list_weight(class, children);
    own.saturating_add(of_test).saturating_add(of_list)
}

fn items_weight(items: &[Option<ExprOrSpread>]) -> u64
    ensures { result ≡ min (kinds_weight (map item_kind items.now)) (2 ^ 64 - 1) }
{
    let mut left = items;
    let mut total = 0u64;
    while let [x, rest @ ..] = left {
        let own = match x {
            None => 6,
            Some(item) => match item.spread {
                None => 0,
                Some(_) => 1,
            },
        };
        total = total.saturating_add(own);
        left = rest;
    }
    total
}

fn number_weight(z: i64) -> u64
    ensures { result ≡ literal_weight z }
{
    if z == 0 { 1 } else { 2 }
}

/// The weight of a node by itself.
#[tactic(auto, unfolding(swc_ast::specs::Weight::own_weight))]
fn own_weight(kind: Kind<'_>, children: Children<'_>) -> u64
    ensures { result ≡ min (node_weight (kind_label kind.entry) (children_forest children.entry)) (2 ^ 64 - 1) }
{
    match kind {
        Kind::NumLit(z) => number_weight(z),
        Kind::Array(items) => items_weight(items).saturating_add(2),
        Kind::Fn(name) => match name {
            None => 2,
            Some(_) => 4,
        },
        Kind::ExportDefaultFn(name) => match name {
            None => 4,
            Some(_) => 6,
        },
        Kind::Param(_) => match children.next() {
            None => 2,
            Some(_) => 4,
        },
        Kind::Try(handler) => match handler {
            None => 8,
            Some(clause) => match &clause.param {
                None => 11,
                Some(_) => 13,
            },
        },
        Kind::Invalid
        | Kind::NameKey(_)
        | Kind::TextKey(_)
        | Kind::NumberKey(_)
        | Kind::ComputedKey
        | Kind::Params
        | Kind::Absent
        | Kind::Module
        | Kind::Script => 0,
        Kind::SpreadRecord
        | Kind::KeyValue
        | Kind::Seq
        | Kind::Empty
        | Kind::Throw
        | Kind::Return
        | Kind::Break(_)
        | Kind::Continue(_) => 1,
        Kind::StrLit(_)
        | Kind::BoolLit(_)
        | Kind::NullLit
        | Kind::This
        | Kind::Read(_)
        | Kind::Template(_)
        | Kind::Object
        | Kind::Arrow
        | Kind::Dot(_)
        | Kind::Index
        | Kind::Call
        | Kind::New
        | Kind::ExprStmt
        | Kind::Labeled(_)
        | Kind::Import(_)
        | Kind::ExportDecl
        | Kind::ExportNamed
        | Kind::ExportDefaultExpr => 2,
        Kind::Shorthand(_)
        | Kind::Method
        | Kind::Body
        | Kind::Block
        | Kind::CaseBody
        | Kind::VarDecl(_) => 3,
        Kind::Unary(_)
        | Kind::Binary(_)
        | Kind::CallEval(_)
        | Kind::CallDot(_)
        | Kind::CallIndex
        | Kind::For
        | Kind::Declarator(_, _)
        | Kind::ImportNamed(_)
        | Kind::ImportDefault(_)
        | Kind::ImportStar(_)
        | Kind::ExportSpecifier(_) => 4,
        Kind::Assign(_, _)
        | Kind::AssignDot(_, _)
        | Kind::AssignIndex(_)
        | Kind::Update(_, _, _)
        | Kind::UpdateDot(_, _, _)
        | Kind::UpdateIndex(_, _) => 5,
        Kind::TypeOfName(_) | Kind::Cond | Kind::FnDecl(_) => 6,
        Kind::While => 8,
        Kind::If => 10,
        Kind::DoWhile => 12,
        Kind::Switch(_) => 20,
    }
}

/// 3 for a loop whose test is no truth literal.
fn test_weight(class: Class, children: Children<'_>) -> u64
    ensures { result ≡ class_test_weight class (children_forest children.entry) }
{
    match class {
        Class::While => while_weight(children),
        Class::For => for_weight(children),
        Class::List => 0,
        Class::Stopper => 0,
        Class::FnDecl => 0,
        Class::ModuleItem => 0,
        Class::Lexical => 0,
        Class::Truth => 0,
        Class::Absent => 0,
        Class::Other => 0,
    }
}

/// 3 for a test that is no truth literal.
fn tested_weight(test: Node<'_>) -> u64
    ensures { result ≡ (if tree_is_truth (node_tree test.entry) then 0 else 3) }
{
    if test.is_truth_or_absent() { 0 } else { 3 }
}

fn while_weight(children: Children<'_>) -> u64
    ensures { result ≡ label_test_weight While (children_forest children.entry) }
{
    let Some((test, rest)) = children.next() else {
        return 0;
    };
    let Some((_, rest)) = rest.next() else {
        return 0;
    };
    if rest.next().is_some() {
        return 0;
    }
    tested_weight(test)
}

fn for_weight(children: Children<'_>) -> u64
    ensures { result ≡ label_test_weight For (children_forest children.entry) }
{
    let Some((_, rest)) = children.next() else {
        return 0;
    };
    let Some((test, rest)) = rest.next() else {
        return 0;
    };
    let Some((_, rest)) = rest.next() else {
        return 0;
    };
    let Some((_, rest)) = rest.next() else {
        return 0;
    };
    if rest.next().is_some() {
        return 0;
    }
    tested_weight(test)
}

fn list_weight(class: Class, children: Children<'_>) -> u64
    ensures { result ≡ min (class_list_weight class (children_forest children.entry)) (2 ^ 64 - 1) }
{
    match class {
        Class::List => unreached(children).saturating_mul(4),
        Class::Stopper => 0,
        Class::FnDecl => 0,
        Class::ModuleItem => 0,
        Class::Lexical => 0,
        Class::Truth => 0,
        Class::Absent => 0,
        Class::While => 0,
        Class::For => 0,
        Class::Other => 0,
    }
}

/// How many statements that are no functions stand behind the first direct stopper.
#[tactic(auto, using(tree_visit::proofs::Caps::rest_falls))]
fn unreached(children: Children<'_>) -> u64
    ensures { result ≡ min (unreached_in (children_forest children.entry)) (2 ^ 64 - 1) }
{
    let mut left = children;
    while let Some((child, rest)) = left.next() {
        if child.is_stopper() {
            return movable(rest);
        }
        left = rest;
    }
    0
}

/// How many statements stand in a list that are no functions.
#[tactic(auto, using(tree_visit::proofs::Caps::rest_falls, crate::proofs::Caps::movable_ends))]
fn movable(children: Children<'_>) -> u64
    ensures { result ≡ min (movable_in (children_forest children.entry)) (2 ^ 64 - 1) }
{
    let mut left = children;
    let mut count = 0u64;
    while let Some((child, rest)) = left.next() {
        if !child.stays_behind() {
            count = count.saturating_add(1);
        }
        left = rest;
    }
    count
}
