//! What names stand for, by their texts.
ghost use Rattle.std.specs.Prelude.{◌≡◌, ◌∷◌, ◌++◌, [], if◌then◌else◌, bytes_eq, IfOk, OnOk, option_copied};
ghost use Rattle.swc_ast.specs.Parts.{ident_name};
ghost use Rattle.swc_ast.specs.Tree.{Text};
ghost use Rattle.const_imports.specs.Locals.{export_name, role_in};
ghost use Rattle.const_imports.specs.Views as view;
ghost use Rattle.const_imports.specs.Views.{locals_of, imported_of, of_text, group_of, value_of, value_at, member_at, constant_in, member_in};

use crate::given::GivenModules;
use crate::imports::{Imported, Local, Role};
use std::alloc::{AllocError, Global};
use std::collections::HashMap;
use swc_ast::Ident;

/// The names that imports of given modules bind, by their texts.
#[derive(Drop)]
pub struct Locals<'a> {
    by_text: HashMap<&'a str, Vec<Local<'a>>>,
}

impl<'a> Locals<'a> {
    /// A table of locals. Fails where memory is refused.
    pub(crate) fn of(alloc: Global, locals: &[Local<'a>]) -> Result<Locals<'a>, AllocError>
        ensures { IfOk result (λ r. (t : Text) → group_of r t ≡ of_text t (locals_of locals.now)) }
    {
        let mut table = Locals {
            by_text: HashMap::new(alloc),
        };
        let mut left = locals;
        while let [local, rest @ ..] = left {
            table.add(alloc, *local)?;
            left = rest;
        }
        Ok(table)
    }

    /// Takes out the locals of a text.
    #[tactic(auto, using(crate::proofs::Grouped::taken_out))]
    fn take(&mut self, alloc: Global, text: &str) -> Vec<Local<'a>>
        ensures group { locals_of result.items ≡ group_of self.old text.now }
        ensures others { (t : Text) → group_of self.new t ≡ (if bytes_eq text.now t then [] else group_of self.old t) }
    {
        match self.by_text.remove(text) {
            Some(group) => group,
            None => Vec::new(alloc),
        }
    }

    /// Puts the locals of a text in. Fails where memory is refused.
    #[tactic(auto, using(crate::proofs::Grouped::put_back))]
    fn put(&mut self, text: &'a str, group: Vec<Local<'a>>) -> Result<(), AllocError>
        ensures { OnOk result ((t : Text) → group_of self.new t ≡ (if bytes_eq text.now t then locals_of group.entry.items else group_of self.old t)) }
    {
        self.by_text.insert(text, group)?;
        Ok(())
    }

    /// Adds a local behind those of its text. Fails where memory is refused.
    fn add(&mut self, alloc: Global, local: Local<'a>) -> Result<(), AllocError>
        ensures { OnOk result ((t : Text) → group_of self.new t ≡ (if bytes_eq (view.local_of local.entry).name.text t then group_of self.old t ++ view.local_of local.entry ∷ [] else group_of self.old t)) }
    {
        let text = local.name.sym.as_str();
        let mut group = self.take(alloc, text);
        group.push(local)?;
        self.put(text, group)?;
        Ok(())
    }

    /// What a name is.
    pub fn role(&self, name: &Ident) -> Role<'a>
        ensures { view.role_of result ≡ role_in (group_of self.now (ident_name name.now).text) (ident_name name.now) }
    {
        match self.by_text.get(name.sym.as_str()) {
            Some(group) => role_among(group, name),
            None => Role::Other,
        }
    }

    /// The value of a name, if it is an export of a given module.
    pub fn constant<'v, V: Drop>(&self, given: &'v GivenModules<V>, name: &Ident) -> Option<&'v V>
        ensures { option_copied result ≡ constant_in (value_of given.now) (group_of self.now (ident_name name.now).text) (ident_name name.now) }
    {
        match self.by_text.get(name.sym.as_str()) {
            Some(group) => constant_among(group, given, name),
            None => None,
        }
    }

    /// The value of a member of a name, if the name is a namespace of a given module.
    pub fn member<'v, V: Drop>(
        &self,
        given: &'v GivenModules<V>,
        name: &Ident,
        key: &str,
    ) -> Option<&'v V>
        ensures { option_copied result ≡ member_in (value_of given.now) (group_of self.now (ident_name name.now).text) (ident_name name.now) key.now }
    {
        match self.by_text.get(name.sym.as_str()) {
            Some(group) => member_among(group, given, name, key),
            None => None,
        }
    }
}

/// What a name is by the first of its locals among some.
fn role_among<'a>(locals: &[Local<'a>], name: &Ident) -> Role<'a>
    ensures { view.role_of result ≡ role_in (locals_of locals.now) (ident_name name.now) }
{
    let mut left = locals;
    while let [local, rest @ ..] = left {
        if local.is_named(name) {
            return local.role();
        }
        left = rest;
    }
    Role::Other
}

/// The value of a name by its locals among some.
fn constant_among<'v, V: Drop>(
    locals: &[Local<'_>],
    given: &'v GivenModules<V>,
    name: &Ident,
) -> Option<&'v V>
    ensures { option_copied result ≡ constant_in (value_of given.now) (locals_of locals.now) (ident_name name.now) }
{
    let mut left = locals;
    while let [local, rest @ ..] = left {
        if local.is_named(name) {
            let value = constant_of(local, given);
            if value.is_some() {
                return value;
            }
        }
        left = rest;
    }
    None
}

/// The value of a member of a name by its locals among some.
fn member_among<'v, V: Drop>(
    locals: &[Local<'_>],
    given: &'v GivenModules<V>,
    name: &Ident,
    key: &str,
) -> Option<&'v V>
    ensures { option_copied result ≡ member_in (value_of given.now) (locals_of locals.now) (ident_name name.now) key.now }
{
    let mut left = locals;
    while let [local, rest @ ..] = left {
        if local.is_named(name) {
            let value = member_of(local, given, key);
            if value.is_some() {
                return value;
            }
        }
        left = rest;
    }
    None
}

/// The value of the export that a local stands for.
fn constant_of<'v, V: Drop>(local: &Local<'_>, given: &'v GivenModules<V>) -> Option<&'v V>
    ensures { option_copied result ≡ value_at (value_of given.now) local.now.source.now (export_name (imported_of local.now.imported)) }
{
    match local.imported {
        Imported::Export(name) => given.export(local.source, name),
        Imported::Default => given.export(local.source, "default"),
        Imported::Namespace => None,
    }
}

/// The value of an export of the namespace that a local stands for.
fn member_of<'v, V: Drop>(local: &Local<'_>, given: &'v GivenModules<V>, key: &str) -> Option<&'v V>
    ensures { option_copied result ≡ member_at (value_of given.now) local.now.source.now (imported_of local.now.imported) key.now }
{
    match local.imported {
        Imported::Namespace => given.export(local.source, key),
        Imported::Export(_) | Imported::Default => None,
    }
}
