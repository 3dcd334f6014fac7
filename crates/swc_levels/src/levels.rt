//! How deep expressions and statements stand inside one another.
ghost use Rattle.std.specs.Prelude.{◌≡◌, ◌+◌, ◌<◌, None, IfSome};
ghost use Rattle.swc_ast.specs.Modules.{module_tree};
ghost use Rattle.swc_ast.specs.Views.{expr_tree};
ghost use Rattle.tree_visit.specs.Kinds.{kind_label};
ghost use Rattle.tree_visit.specs.Nodes.{children_forest};
ghost use Rattle.swc_levels.specs.Levels.{levels, own_levels as tree_own_levels, deepest, Counts};

use swc_ast::{Expr, Module};
use tree_visit::{Kind, Node, Opened, open_expr};

/// Returns how many expressions and statements of an expression stand inside one another, the innermost among them: `None` where
/// they are more than `most`.
pub fn levels_of_expr(e: &Expr, most: u32) -> Option<u32>
    ensures counts { IfSome result (Counts (levels (expr_tree e.now)) most) }
    ensures more { result ≡ None → most < levels (expr_tree e.now) }
{
    levels_of_opened(open_expr(e), most)
}

/// Returns how many expressions and statements of a module stand inside one another, the innermost among them: `None` where they
/// are more than `most`.
pub fn levels_of_module(m: &Module, most: u32) -> Option<u32>
    ensures counts { IfSome result (Counts (levels (module_tree m.now)) most) }
    ensures more { result ≡ None → most < levels (module_tree m.now) }
{
    levels_of_opened(Node::Module(m).open(), most)
}

/// The same of a node that was opened.
fn levels_of_opened(n: Opened<'_>, most: u32) -> Option<u32>
    ensures counts { IfSome result (Counts (tree_own_levels (kind_label n.entry.kind) + deepest (children_forest n.entry.children)) most) }
    ensures more { result ≡ None → most < tree_own_levels (kind_label n.entry.kind) + deepest (children_forest n.entry.children) }
{
    let own = own_levels(n.kind);
    if most < own {
        return None;
    }
    let mut left = n.children;
    let mut highest = 0;
    while let Some((child, rest)) = left.next() {
        let Some(levels) = levels_of_opened(child.open(), most - own) else {
            return None;
        };
        highest = levels.max(highest);
        left = rest;
    }
    Some(own + highest)
}

/// How many levels a node is by itself.
fn own_levels(kind: Kind<'_>) -> u32
    ensures { result ≡ tree_own_levels (kind_label kind.entry) }
{
    match kind {
        Kind::SpreadRecord
        | Kind::KeyValue
        | Kind::Method
        | Kind::NameKey(_)
        | Kind::TextKey(_)
        | Kind::NumberKey(_)
        | Kind::ComputedKey
        | Kind::Params
        | Kind::Param(_)
        | Kind::Body
        | Kind::Absent
        | Kind::CaseBody
        | Kind::Declarator(_, _)
        | Kind::Module
        | Kind::Script
        | Kind::ExportDecl
        | Kind::ExportDefaultExpr => 0,
        Kind::NumLit(_)
        | Kind::StrLit(_)
        | Kind::BoolLit(_)
        | Kind::NullLit
        | Kind::This
        | Kind::Invalid
        | Kind::Read(_)
        | Kind::Template(_)
        | Kind::Array(_)
        | Kind::Object
        | Kind::Shorthand(_)
        | Kind::Fn(_)
        | Kind::Arrow
        | Kind::Unary(_)
        | Kind::Binary(_)
        | Kind::Cond
        | Kind::Seq
        | Kind::Dot(_)
        | Kind::Index
        | Kind::Call
        | Kind::New
        | Kind::Assign(_, _)
        | Kind::Block
        | Kind::Empty
        | Kind::Throw
        | Kind::ExprStmt
        | Kind::Return
        | Kind::If
        | Kind::While
        | Kind::DoWhile
        | Kind::For
        | Kind::Labeled(_)
        | Kind::Break(_)
        | Kind::Continue(_)
        | Kind::Switch(_)
        | Kind::Try(_)
        | Kind::VarDecl(_)
        | Kind::FnDecl(_)
        | Kind::Import(_)
        | Kind::ImportNamed(_)
        | Kind::ImportDefault(_)
        | Kind::ImportStar(_)
        | Kind::ExportNamed
        | Kind::ExportSpecifier(_)
        | Kind::ExportDefaultFn(_) => 1,
        Kind::TypeOfName(_)
        | Kind::CallEval(_)
        | Kind::CallDot(_)
        | Kind::CallIndex
        | Kind::AssignDot(_, _)
        | Kind::AssignIndex(_)
        | Kind::Update(_, _, _)
        | Kind::UpdateDot(_, _, _)
        | Kind::UpdateIndex(_, _) => 2,
    }
}
