//! What is carried.
ghost use Rattle.std.specs.Prelude.{◌≡◌, ◌&&◌, IfOk};
ghost use Rattle.carry_rules.specs.Carry as carry;
ghost use Rattle.tree_visit.specs.Kinds.{kind_label};
ghost use Rattle.carry_tables.specs.Tables as of;
ghost use Rattle.carry_reads.specs.States.{IsNew, Rewound, Leaves};

use crate::kinds::{groups, keeps_names};
use crate::settled::Settled;
use carry_parts::Carry;
use carry_tables::{NameTable, Scoped};
use std::alloc::{AllocError, Global};
use swc_names::Names;
use tree_visit::Kind;

/// What is carried.
#[derive(Drop)]
pub(crate) struct Tables<'a> {
    /// of names of `let` and `const`
    pub(crate) values: NameTable<'a, Option<Carry<'a>>>,
    /// of variables
    pub(crate) settled: Settled<'a>,
    /// names that may stand for others
    pub(crate) ready: Scoped<'a>,
}

/// How much there was in tables.
#[derive(Clone, Copy)]
pub(crate) struct Mark {
    pub(crate) settled: usize,
    pub(crate) ready: usize,
}

impl<'a> Tables<'a> {
    /// Nothing is carried. Fails where memory is refused.
    pub(crate) fn new(alloc: Global, names: &'a Names) -> Result<Tables<'a>, AllocError>
        ensures { IfOk result (IsNew names.now) }
    {
        Ok(Tables {
            values: NameTable::new(alloc, names, None)?,
            settled: Settled::new(alloc, names)?,
            ready: Scoped::new(alloc, names, 0)?,
        })
    }

    /// How much there is.
    pub(crate) fn mark(&self) -> Mark
        ensures settled { result.settled ≡ of.height self.now.settled.numbers }
        ensures ready { result.ready ≡ of.height self.now.ready }
    {
        Mark {
            settled: self.settled.numbers.height(),
            ready: self.ready.height(),
        }
    }

    /// Forgets what ends with a node.
    pub(crate) fn leave(&mut self, kind: Kind<'_>, listed: bool, mark: Mark)
        ensures { Leaves (carry.groups (kind_label kind.entry) && listed) (carry.keeps_names (kind_label kind.entry)) mark self.old self.new }
    {
        rewind_unless(
            groups(kind) && listed,
            &mut self.settled.numbers,
            mark.settled,
        );
        rewind_unless(keeps_names(kind), &mut self.ready, mark.ready);
    }
}

/// Makes a table what it was when there were so many changes, unless it stays.
fn rewind_unless(stays: bool, table: &mut Scoped<'_>, height: usize)
    ensures { Rewound stays height table.old table.new }
{
    if !stays {
        table.rewind(height);
    }
}
