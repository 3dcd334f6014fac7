//! The names that imports of given modules bind.
ghost use Rattle.std.specs.Prelude.{◌≡◌, ◌∷◌, ◌++◌, [], IfOk, OnOk};
ghost use Rattle.swc_ast.specs.Modules.{import_specifier_tree, import_tree, item_tree};
ghost use Rattle.swc_ast.specs.Parts.{list_trees, ident_name};
ghost use Rattle.swc_ast.specs.Tree.{same_name, label_of, children_of};
ghost use Rattle.const_imports.specs.Locals as spec;
ghost use Rattle.const_imports.specs.Locals.{own_role, specifier_locals, specifiers_locals, given_label, item_locals, locals};
ghost use Rattle.const_imports.specs.Views as view;
ghost use Rattle.const_imports.specs.Views.{imported_of, locals_of};

use crate::given::GivenModules;
use given_shield::imported_text;
use std::alloc::{AllocError, Global};
use swc_ast::{Ident, ImportDecl, ImportSpecifier, ModuleDecl, ModuleItem};

/// What is imported of a module.
#[derive(Clone, Copy)]
pub enum Imported<'a> {
    /// The export of a name.
    Export(&'a str),
    /// The default export.
    Default,
    /// All exports.
    Namespace,
}

/// A name that an import binds, the module, and what of the module it stands for.
#[derive(Clone, Copy)]
pub struct Local<'a> {
    pub(crate) name: &'a Ident,
    pub(crate) source: &'a str,
    pub(crate) imported: Imported<'a>,
}

/// What a name is.
#[derive(Clone, Copy)]
pub enum Role<'a> {
    /// An export of a given module.
    Constant,
    /// All exports of the given module of this name.
    Namespace(&'a str),
    Other,
}

impl<'a> Local<'a> {
    /// Whether this is the local of a name.
    pub(crate) fn is_named(&self, name: &Ident) -> bool
        ensures { result ≡ same_name (view.local_of self.now).name (ident_name name.now) }
    {
        self.name.sym == name.sym && self.name.ctxt == name.ctxt
    }

    pub(crate) fn role(&self) -> Role<'a>
        ensures { view.role_of result ≡ own_role self.now.source.now (imported_of self.now.imported) }
    {
        match self.imported {
            Imported::Export(_) | Imported::Default => Role::Constant,
            Imported::Namespace => Role::Namespace(self.source),
        }
    }
}

fn local_of<'a>(source: &'a str, s: &'a ImportSpecifier) -> Local<'a>
    ensures { view.local_of result ∷ [] ≡ specifier_locals source.now (label_of (import_specifier_tree s.now)) }
{
    match s {
        ImportSpecifier::Named(n) => Local {
            name: &n.local,
            source,
            imported: Imported::Export(imported_text(n)),
        },
        ImportSpecifier::Default(n) => Local {
            name: &n.local,
            source,
            imported: Imported::Default,
        },
        ImportSpecifier::Namespace(n) => Local {
            name: &n.local,
            source,
            imported: Imported::Namespace,
        },
    }
}

/// Adds the locals of an import. Fails where memory is refused.
fn add_specifiers<'a>(
    out: &mut Vec<Local<'a>>,
    source: &'a str,
    specifiers: &'a [ImportSpecifier],
) -> Result<(), AllocError>
    ensures { OnOk result (locals_of out.new.items ≡ locals_of out.old.items ++ specifiers_locals source.now (list_trees import_specifier_tree specifiers.now)) }
{
    let mut left = specifiers;
    while let [s, rest @ ..] = left {
        out.push(local_of(source, s))?;
        left = rest;
    }
    Ok(())
}

/// Whether an item is an import of a given module.
#[tactic(auto, using(swc_ast::proofs::Equations::forms, crate::proofs::Items::no_import))]
pub(crate) fn is_given_import<V: Drop>(item: &ModuleItem, given: &GivenModules<V>) -> bool
    ensures { result ≡ given_label (view.is_given given.now) (label_of (item_tree item.now)) }
{
    match item {
        ModuleItem::ModuleDecl(ModuleDecl::Import(n)) => given.is_given(n.src.value.as_str()),
        _ => false,
    }
}

/// Adds the locals of an import, if its module is given. Fails where memory is refused.
fn add_import<'a, V: Drop>(
    out: &mut Vec<Local<'a>>,
    n: &'a ImportDecl,
    given: &GivenModules<V>,
) -> Result<(), AllocError>
    ensures { OnOk result (locals_of out.new.items ≡ locals_of out.old.items ++ item_locals (view.is_given given.now) (label_of (import_tree n.now)) (children_of (import_tree n.now))) }
{
    let source = n.src.value.as_str();
    if given.is_given(source) {
        add_specifiers(out, source, &n.specifiers)?;
    }
    Ok(())
}

/// Adds the locals of an item. Fails where memory is refused.
#[tactic(auto, using(swc_ast::proofs::Equations::forms, crate::proofs::Items::nothing_added))]
fn add_item<'a, V: Drop>(
    out: &mut Vec<Local<'a>>,
    item: &'a ModuleItem,
    given: &GivenModules<V>,
) -> Result<(), AllocError>
    ensures { OnOk result (locals_of out.new.items ≡ locals_of out.old.items ++ item_locals (view.is_given given.now) (label_of (item_tree item.now)) (children_of (item_tree item.now))) }
{
    match item {
        ModuleItem::ModuleDecl(ModuleDecl::Import(n)) => add_import(out, n, given),
        _ => Ok(()),
    }
}

/// The locals of imports of given modules among items, in order. Fails where memory is refused.
pub(crate) fn locals_among<'a, V: Drop>(
    alloc: Global,
    items: &'a [ModuleItem],
    given: &GivenModules<V>,
) -> Result<Vec<Local<'a>>, AllocError>
    ensures { IfOk result (λ r. locals_of r.items ≡ locals (view.is_given given.now) (list_trees item_tree items.now)) }
{
    let mut out = Vec::new(alloc);
    let mut left = items;
    while let [item, rest @ ..] = left {
        add_item(&mut out, item, given)?;
        left = rest;
    }
    Ok(out)
}
