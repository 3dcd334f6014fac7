//! Why a module with imports of given modules is refused.
ghost use Rattle.std.specs.Prelude.{◌≡◌, ◌⊎◌, ◌++◌, Some, IfOk, IfSome, option_map};
ghost use Rattle.swc_ast.specs.Redex.{is_delete};
ghost use Rattle.swc_ast.specs.Tree.{label_of};
ghost use Rattle.swc_ast.specs.Modules.{item_tree};
ghost use Rattle.swc_ast.specs.Parts.{list_trees, ident_name};
ghost use Rattle.swc_ast.specs.declared.errors.PassError.TheVariants as error;
ghost use Rattle.tree_visit.specs.Kinds.{kind_label};
ghost use Rattle.tree_visit.specs.Nodes.{node_tree, children_forest};
ghost use Rattle.const_imports.specs.Faults as spec;
ghost use Rattle.const_imports.specs.Faults.{local_faults, import_faults, name_faults, export_faults, bare_faults, unless, missing_export, member_parts, seen_at, joined, use_faults, each_faults};
ghost use Rattle.const_imports.specs.Views as view;
ghost use Rattle.const_imports.specs.Views.{imported_of, locals_of, roles_of, has_value, told, told_name, member_view, without_first, first_of, fault_of, error_fault, dotted, indexed};

use crate::given::GivenModules;
use crate::imports::{Imported, Local, Role};
use crate::table::Locals;
use std::alloc::{AllocError, Global};
use swc_ast::{Ident, Module, PassError, UnaryOp};
use tree_visit::{Children, Kind, Node};

/// Why a module is refused.
#[derive(Clone, Copy)]
pub enum Fault<'a> {
    /// A given module has no export of the name.
    MissingExport(&'a str, &'a str),
    /// A given module has no default export.
    MissingDefault(&'a str),
    /// A namespace of a given module is used otherwise than to name an export.
    BareNamespace(&'a str),
    /// A name that is imported from a given module is exported again.
    ReExported(&'a str),
}

impl<'a> Fault<'a> {
    /// The refusal that tells this, or that memory was refused.
    pub fn refusal(self, alloc: Global) -> PassError
        ensures { (result ≡ error.OutOfMemory) ⊎ (error_fault result ≡ Some (fault_of self.entry)) }
    {
        match self.told(alloc) {
            Ok(refusal) => refusal,
            Err(_) => PassError::OutOfMemory,
        }
    }

    fn told(self, alloc: Global) -> Result<PassError, AllocError>
        ensures { IfOk result (λ e. error_fault e ≡ Some (fault_of self.entry)) }
    {
        match self {
            Fault::MissingExport(module, export) => Ok(PassError::MissingExport {
                module: String::from_str(alloc, module)?,
                export: String::from_str(alloc, export)?,
            }),
            Fault::MissingDefault(module) => Ok(PassError::MissingDefault {
                module: String::from_str(alloc, module)?,
            }),
            Fault::BareNamespace(name) => Ok(PassError::BareNamespace {
                name: String::from_str(alloc, name)?,
            }),
            Fault::ReExported(name) => Ok(PassError::ReExported {
                name: String::from_str(alloc, name)?,
            }),
        }
    }
}

/// What is wrong with a local: the module hasn't what is imported.
fn local_fault<'a, V: Drop>(local: &Local<'a>, given: &GivenModules<V>) -> Option<Fault<'a>>
    ensures { told result ≡ first_of (local_faults (has_value given.now) local.now.source.now (imported_of local.now.imported)) }
{
    let source = local.source;
    match local.imported {
        Imported::Export(name) => match given.export(source, name) {
            Some(_) => None,
            None => Some(Fault::MissingExport(source, name)),
        },
        Imported::Default => match given.export(source, "default") {
            Some(_) => None,
            None => Some(Fault::MissingDefault(source)),
        },
        Imported::Namespace => None,
    }
}

/// What is wrong with the first of some locals with which something is.
pub(crate) fn first_of_locals<'a, V: Drop>(
    locals: &[Local<'a>],
    given: &GivenModules<V>,
) -> Option<Fault<'a>>
    ensures { told result ≡ first_of (import_faults (has_value given.now) (locals_of locals.now)) }
{
    let mut left = locals;
    while let [local, rest @ ..] = left {
        let fault = local_fault(local, given);
        if fault.is_some() {
            return fault;
        }
        left = rest;
    }
    None
}

/// A member of a name, read or called, and the children of the node behind it.
#[derive(Clone, Copy)]
struct Member<'a> {
    name: &'a Ident,
    key: &'a str,
    rest: Children<'a>,
}

/// The name that a node reads.
fn name_read<'a>(n: Node<'a>) -> Option<&'a Ident>
    ensures { told_name result ≡ spec.read_name (label_of (node_tree n.entry)) }
{
    match n.open().kind {
        Kind::Read(name) => Some(name),
        _ => None,
    }
}

/// The text that a node is.
fn text_read<'a>(n: Node<'a>) -> Option<&'a str>
    ensures { option_map (λ t. t.now) result ≡ spec.read_text (label_of (node_tree n.entry)) }
{
    match n.open().kind {
        Kind::StrLit(text) => Some(text.value.as_str()),
        _ => None,
    }
}

/// The member behind a dot, if it is one of a name.
fn dot_member<'a>(key: &'a str, children: Children<'a>) -> Option<Member<'a>>
    ensures member { option_map member_view result ≡ dotted key.now (children_forest children.entry) }
    ensures rest { IfSome result (λ m. children_forest m.rest ≡ without_first 1 (children_forest children.entry)) }
{
    let (object, rest) = children.next()?;
    let name = name_read(object)?;
    Some(Member { name, key, rest })
}

/// The member in brackets, if it is one of a name and a text.
fn index_member<'a>(children: Children<'a>) -> Option<Member<'a>>
    ensures member { option_map member_view result ≡ indexed (children_forest children.entry) }
    ensures rest { IfSome result (λ m. children_forest m.rest ≡ without_first 2 (children_forest children.entry)) }
{
    let (object, behind) = children.next()?;
    let (index, rest) = behind.next()?;
    let name = name_read(object)?;
    let key = text_read(index)?;
    Some(Member { name, key, rest })
}

fn member_of<'a>(kind: Kind<'a>, children: Children<'a>) -> Option<Member<'a>>
    ensures member { option_map member_view result ≡ spec.member_of (kind_label kind.entry) (children_forest children.entry) }
    ensures rest { IfSome result (λ m. children_forest m.rest ≡ without_first (member_parts (kind_label kind.entry)) (children_forest children.entry)) }
{
    match kind {
        Kind::Dot(key) | Kind::CallDot(key) => dot_member(key.sym.as_str(), children),
        Kind::Index | Kind::CallIndex => index_member(children),
        _ => None,
    }
}

/// The name that a node reads or writes.
fn used_name<'a>(kind: Kind<'a>) -> Option<&'a Ident>
    ensures { told_name result ≡ spec.used_name (kind_label kind.entry) }
{
    match kind {
        Kind::Read(name)
        | Kind::Shorthand(name)
        | Kind::TypeOfName(name)
        | Kind::CallEval(name)
        | Kind::Assign(_, name)
        | Kind::Update(_, _, name) => Some(name),
        _ => None,
    }
}

/// The name that a node exports.
fn exported_name<'a>(kind: Kind<'a>) -> Option<&'a Ident>
    ensures { told_name result ≡ spec.exported_name (kind_label kind.entry) }
{
    match kind {
        Kind::ExportSpecifier(n) => Some(&n.orig),
        _ => None,
    }
}

/// What is wrong with a name that is exported.
fn export_fault<'a>(name: &'a Ident, locals: &Locals<'a>) -> Option<Fault<'a>>
    ensures { told result ≡ first_of (export_faults (roles_of locals.now (ident_name name.now)) (ident_name name.now)) }
{
    match locals.role(name) {
        Role::Namespace(_) => Some(Fault::BareNamespace(name.sym.as_str())),
        Role::Constant => Some(Fault::ReExported(name.sym.as_str())),
        Role::Other => None,
    }
}

/// What is wrong with a name that is read or written.
fn bare_fault<'a>(name: &'a Ident, locals: &Locals<'a>) -> Option<Fault<'a>>
    ensures { told result ≡ first_of (bare_faults (roles_of locals.now (ident_name name.now)) (ident_name name.now)) }
{
    match locals.role(name) {
        Role::Namespace(_) => Some(Fault::BareNamespace(name.sym.as_str())),
        Role::Constant | Role::Other => None,
    }
}

/// What is wrong with the name in a node.
fn name_fault<'a>(kind: Kind<'a>, locals: &Locals<'a>) -> Option<Fault<'a>>
    ensures { told result ≡ first_of (name_faults (roles_of locals.now) (spec.exported_name (kind_label kind.entry)) (spec.used_name (kind_label kind.entry))) }
{
    match exported_name(kind) {
        Some(name) => export_fault(name, locals),
        None => match used_name(kind) {
            Some(name) => bare_fault(name, locals),
            None => None,
        },
    }
}

/// What is wrong with a member of a namespace: the module has no such export.
fn missing_member<'a, V: Drop>(
    source: &'a str,
    key: &'a str,
    given: &GivenModules<V>,
) -> Option<Fault<'a>>
    ensures { told result ≡ first_of (unless (has_value given.now source.now key.now) (missing_export source.now key.now)) }
{
    match given.export(source, key) {
        Some(_) => None,
        None => Some(Fault::MissingExport(source, key)),
    }
}

/// What is wrong at a node, and the children that are looked into.
#[derive(Clone, Copy)]
struct Looked<'a> {
    fault: Option<Fault<'a>>,
    rest: Children<'a>,
}

fn look<'a, V: Drop>(
    kind: Kind<'a>,
    children: Children<'a>,
    locals: &Locals<'a>,
    given: &GivenModules<V>,
) -> Looked<'a>
    ensures fault { told result.fault ≡ first_of (seen_at (has_value given.now) (roles_of locals.now) (kind_label kind.entry) (children_forest children.entry)).own }
    ensures rest { children_forest result.rest ≡ without_first (seen_at (has_value given.now) (roles_of locals.now) (kind_label kind.entry) (children_forest children.entry)).skipped (children_forest children.entry) }
{
    if let Some(member) = member_of(kind, children) {
        if let Role::Namespace(source) = locals.role(member.name) {
            return Looked {
                fault: missing_member(source, member.key, given),
                rest: member.rest,
            };
        }
    }
    Looked {
        fault: name_fault(kind, locals),
        rest: children,
    }
}

/// Whether a node deletes its operand.
fn is_delete(kind: Kind<'_>) -> bool
    ensures { result ≡ is_delete (kind_label kind.entry) }
{
    match kind {
        Kind::Unary(UnaryOp::Delete) => true,
        _ => false,
    }
}

/// What is wrong first in a node, in the order of the text.
#[cycle(uses)]
#[tactic(auto, using(crate::proofs::Firsts::children_fall))]
fn first_in<'a, V: Drop>(
    n: Node<'a>,
    locals: &Locals<'a>,
    given: &GivenModules<V>,
) -> Option<Fault<'a>>
    ensures { told result ≡ first_of (use_faults (has_value given.now) (roles_of locals.now) (node_tree n.entry)) }
{
    let opened = n.open();
    if is_delete(opened.kind) {
        return None;
    }
    let looked = look(opened.kind, opened.children, locals, given);
    if looked.fault.is_some() {
        return looked.fault;
    }
    first_among(looked.rest, locals, given)
}

/// The same in nodes in a row.
#[cycle(uses)]
fn first_among<'a, V: Drop>(
    children: Children<'a>,
    locals: &Locals<'a>,
    given: &GivenModules<V>,
) -> Option<Fault<'a>>
    ensures { told result ≡ first_of (joined (each_faults (has_value given.now) (roles_of locals.now) (children_forest children.entry))) }
{
    let mut left = children;
    while let Some((child, rest)) = left.next() {
        let fault = first_in(child, locals, given);
        if fault.is_some() {
            return fault;
        }
        left = rest;
    }
    None
}

/// Why a module is refused: what is wrong first, imports of given modules in front of the rest, each in the order of the text.
pub(crate) fn first_fault<'a, V: Drop>(
    module: &'a Module,
    imported: &[Local<'a>],
    locals: &Locals<'a>,
    given: &GivenModules<V>,
) -> Option<Fault<'a>>
    ensures { told result ≡ first_of (import_faults (has_value given.now) (locals_of imported.now) ++ joined (each_faults (has_value given.now) (roles_of locals.now) (list_trees item_tree «module».now.body.items))) }
{
    let fault = first_of_locals(imported, given);
    if fault.is_some() {
        return fault;
    }
    first_among(Node::Module(module).open().children, locals, given)
}
