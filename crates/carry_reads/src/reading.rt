//! What is put at the reads of a tree.
ghost use Rattle.std.specs.Prelude.{◌≡◌, IfOk};
ghost use Rattle.swc_ast.specs.Modules.{module_tree, script_tree};
ghost use Rattle.swc_ast.specs.Parts.{ident_name};
ghost use Rattle.swc_ast.specs.Tree.{Tree};
ghost use Rattle.tree_visit.specs.Nodes.{node_tree};
ghost use Rattle.carry_parts.specs.Carries.{pass_of, puts_of};
ghost use Rattle.carry_vars.specs.Facts.{AreNamesOf, Tells as TellsFacts};
ghost use Rattle.carry_reads.specs.Readings as told;

use crate::place::Place;
use crate::reader::Reader;
use crate::tables::Tables;
use carry_parts::{Carry, Pass};
use carry_vars::Vars;
use std::alloc::{AllocError, Global};
use swc_ast::{Ident, Module, Script};
use swc_names::Names;
use tree_visit::Node;

/// What is put at the reads of a tree, and what is carried at its end.
#[derive(Drop)]
pub struct Reading<'a> {
    /// What is put at each read, in the order of the text. Nodes in which nothing is put are left out.
    pub reads: Vec<Option<Carry<'a>>>,
    reader: Reader<'a>,
    tables: Tables<'a>,
}

impl<'a> Reading<'a> {
    /// Reads a module, whose names are given. Fails where memory is refused.
    pub fn of_module(
        alloc: Global,
        names: &'a Names,
        pass: Pass,
        m: &'a Module,
    ) -> Result<Reading<'a>, AllocError>
        requires { AreNamesOf names.now (module_tree m.now) }
        ensures { IfOk result (λ r. told.Tells (pass_of pass) r (module_tree m.now)) }
    {
        let vars = Vars::of_module(alloc, names, m)?;
        read(alloc, pass, vars, Node::Module(m))
    }

    /// Reads a script, whose names are given. Fails where memory is refused.
    pub fn of_script(
        alloc: Global,
        names: &'a Names,
        pass: Pass,
        s: &'a Script,
    ) -> Result<Reading<'a>, AllocError>
        requires { AreNamesOf names.now (script_tree s.now) }
        ensures { IfOk result (λ r. told.Tells (pass_of pass) r (script_tree s.now)) }
    {
        let vars = Vars::of_script(alloc, names, s)?;
        read(alloc, pass, vars, Node::Script(s))
    }

    /// What is carried of a name at the end of the tree.
    pub fn value(&self, name: &Ident) -> Option<Carry<'a>>
        ensures { puts_of result ≡ told.value_of self.now (ident_name name.now) }
    {
        self.reader.value(&self.tables, name)
    }
}

/// Reads a tree of which something is said.
fn read<'a>(
    alloc: Global,
    pass: Pass,
    vars: Vars<'a>,
    n: Node<'a>,
) -> Result<Reading<'a>, AllocError>
    ensures { IfOk result (λ r. (t : Tree) → t ≡ node_tree n.entry → TellsFacts vars.entry t → told.Tells (pass_of pass) r t) }
{
    let mut tables = Tables::new(alloc, vars.names())?;
    let mut reads = Vec::new(alloc);
    let reader = Reader { pass, vars };
    reader.node(&mut tables, &mut reads, n, Place::top())?;
    Ok(Reading {
        reads,
        reader,
        tables,
    })
}
