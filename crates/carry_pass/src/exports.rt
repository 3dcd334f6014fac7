//! Exports of names that stand for names.
ghost use Rattle.std.specs.Prelude.{◌≡◌, IfOk, OnOk, Some};
ghost use Rattle.swc_ast.specs.Modules.{export_specifier_tree, item_tree, module_decl_tree};
ghost use Rattle.swc_ast.specs.Parts.{ident_name, list_trees, option_word_text};
ghost use Rattle.swc_ast.specs.Run.{export_text};
ghost use Rattle.swc_ast.specs.Scope.{has_name, list_binds};
ghost use Rattle.swc_ast.specs.Tree as tree;
ghost use Rattle.swc_ast.specs.Tree.{bare, bares, ExportSpecifier};
ghost use Rattle.carry_rules.specs.Carry.{respecified, reexported};
ghost use Rattle.swc_resolved.specs.Names.{members, names as names_of};
ghost use Rattle.carry_parts.specs.Carries.{put_of};
ghost use Rattle.carry_pass.specs.Exports.{binds, values, option_name, put_name, bound_name, renamed, reexported_item, specifier_label};

use carry_parts::Carry;
use carry_reads::Reading;
use std::alloc::{AllocError, Global};
use swc_ast::{ExportNamedSpecifier, Ident, IdentName, Module, ModuleDecl, ModuleItem};
use swc_resolved::{Name, NameSet, Part, add_names};
use tree_visit::Node;

/// What the exports of a module that was read may name.
#[derive(Drop)]
pub(crate) struct Exports<'r, 'a> {
    reading: &'r Reading<'a>,
    declared: NameSet<'a>,
}

impl<'r, 'a> Exports<'r, 'a> {
    /// Of a module that was read. Fails where memory is refused.
    pub(crate) fn of(
        alloc: Global,
        m: &'a Module,
        reading: &'r Reading<'a>,
    ) -> Result<Exports<'r, 'a>, AllocError>
        ensures reading { IfOk result (λ e. e.reading.now ≡ reading.now) }
        ensures binds { IfOk result (λ e. (x : tree.Name) → binds e x ≡ list_binds (list_trees item_tree m.now.body.items) x) }
    {
        let declared = declared(alloc, m)?;
        Ok(Exports { reading, declared })
    }

    /// The name that a name stands for, if the module's own list declares it.
    fn source(&self, name: &Ident) -> Option<&'a Ident>
        ensures { option_name result ≡ bound_name (binds self.now) (values self.now (ident_name name.now)) }
    {
        let source = name_in(self.reading.value(name)?)?;
        if self.declared.contains(Name::of(source)) {
            Some(source)
        } else {
            None
        }
    }

    /// Lets an export name what its name stands for. Fails where memory is refused.
    fn rename(&self, n: &mut ExportNamedSpecifier) -> Result<(), AllocError>
        ensures { OnOk result (renamed (binds self.now) (values self.now) (specifier_label n.old) ≡ specifier_label n.new) }
    {
        match self.source(&n.orig) {
            Some(source) => name_as(n, source),
            None => Ok(()),
        }
    }

    /// The same of some exports.
    fn rename_each(&self, specifiers: &mut Vec<ExportNamedSpecifier>) -> Result<(), AllocError>
        ensures { OnOk result (bares (respecified (binds self.now) (values self.now) (list_trees export_specifier_tree specifiers.old.items)) ≡ bares (list_trees export_specifier_tree specifiers.new.items)) }
    {
        for i in 0..specifiers.len() {
            self.rename(&mut specifiers[i])?;
        }
        Ok(())
    }

    /// The same of the exports in a declaration of a module.
    fn rename_in(&self, n: &mut ModuleDecl) -> Result<(), AllocError>
        ensures { OnOk result (bare (reexported_item (binds self.now) (values self.now) (module_decl_tree n.old)) ≡ bare (module_decl_tree n.new)) }
    {
        match n {
            ModuleDecl::ExportNamed(n) => {
                self.rename_each(&mut n.specifiers)?;
                Ok(())
            }
            ModuleDecl::Import(_)
            | ModuleDecl::ExportDecl(_)
            | ModuleDecl::ExportDefaultDecl(_)
            | ModuleDecl::ExportDefaultExpr(_) => Ok(()),
        }
    }

    /// The same of an item: a statement exports nothing.
    fn rename_item(&self, item: &mut ModuleItem) -> Result<(), AllocError>
        ensures { OnOk result (bare (reexported_item (binds self.now) (values self.now) (item_tree item.old)) ≡ bare (item_tree item.new)) }
    {
        match item {
            ModuleItem::ModuleDecl(n) => {
                self.rename_in(n)?;
                Ok(())
            }
            ModuleItem::Stmt(_) => Ok(()),
        }
    }

    /// The same of all exports in a list of items. Fails where memory is refused.
    pub(crate) fn rename_all(&self, items: &mut Vec<ModuleItem>) -> Result<(), AllocError>
        ensures { OnOk result (bares (reexported (binds self.now) (values self.now) (list_trees item_tree items.old.items)) ≡ bares (list_trees item_tree items.new.items)) }
    {
        for i in 0..items.len() {
            self.rename_item(&mut items[i])?;
        }
        Ok(())
    }
}

/// The names that a module's own list declares. Fails where memory is refused.
fn declared<'a>(alloc: Global, m: &'a Module) -> Result<NameSet<'a>, AllocError>
    ensures { IfOk result (λ s. (x : tree.Name) → has_name x (members s) ≡ list_binds (list_trees item_tree m.now.body.items) x) }
{
    let mut names = Vec::new(alloc);
    add_names(
        &mut names,
        Node::Module(m).open().children,
        Part::Declarations,
    )?;
    set_of(alloc, &names)
}

/// The set of some names. Fails where memory is refused.
fn set_of<'a>(alloc: Global, names: &[Name<'a>]) -> Result<NameSet<'a>, AllocError>
    ensures { IfOk result (λ s. (x : tree.Name) → has_name x (members s) ≡ has_name x (names_of names.now)) }
{
    let mut set = NameSet::new(alloc);
    let mut left = names;
    while let [name, rest @ ..] = left {
        set.insert(*name)?;
        left = rest;
    }
    Ok(set)
}

/// The name that is carried, if it is one.
fn name_in<'a>(carry: Carry<'a>) -> Option<&'a Ident>
    ensures { option_name result ≡ put_name (put_of carry.entry) }
{
    match carry {
        Carry::Name(name) => Some(name),
        Carry::Num(_) | Carry::Text(_) | Carry::Truth(_) | Carry::Null | Carry::Void => None,
    }
}

/// Lets an export name another name, under the name that it has. Fails where memory is refused.
fn name_as(n: &mut ExportNamedSpecifier, source: &Ident) -> Result<(), AllocError>
    ensures { OnOk result (specifier_label n.new ≡ ExportSpecifier (ident_name source.now) (Some (export_text (ident_name n.old.orig) (option_word_text n.old.exported)))) }
{
    if n.exported.is_none() {
        let span = n.orig.span;
        let sym = n.orig.sym.clone()?;
        n.exported = Some(IdentName { span, sym });
    }
    let span = n.orig.span;
    let (sym, ctxt) = source.to_id()?;
    n.orig = Ident { span, sym, ctxt };
    Ok(())
}
