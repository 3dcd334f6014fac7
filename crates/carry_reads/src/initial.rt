//! What initialisers carry.
ghost use Rattle.std.specs.Prelude.{◌≡◌, [], ◌∷◌};
ghost use Rattle.swc_ast.specs.Parts.{ident_name, optional_trees};
ghost use Rattle.swc_ast.specs.Views.{expr_tree};
ghost use Rattle.carry_rules.specs.Carry.{first_put};
ghost use Rattle.carry_parts.specs.Carries.{pass_of, puts_of};
ghost use Rattle.carry_reads.specs.Fronts.{ready_of};
ghost use Rattle.carry_reads.specs.Initials as initials;
ghost use Rattle.carry_reads.specs.States.{state_of};

use crate::declaration::is_dummy;
use crate::kinds::leaf;
use crate::place::Place;
use crate::reader::Reader;
use crate::ready::is_ready;
use crate::tables::Tables;
use carry_parts::{Carry, Pass, is_eval, name_of};
use carry_tables::Scoped;
use swc_ast::{Ident, VarDeclarator};
use tree_visit::open_expr;

/// What a carried initialiser carries: a value that has a literal, or a name that is in scope here.
fn passed_on<'a>(
    ready: &Scoped<'a>,
    carried: Option<Carry<'a>>,
    own: Option<Carry<'a>>,
) -> Option<Carry<'a>>
    ensures { puts_of result ≡ initials.passed_on (ready_of ready.now) (puts_of carried.entry) (puts_of own.entry) }
{
    match carried {
        None => own,
        Some(Carry::Name(name)) => { if is_ready(ready, name) { carried } else { None } }
        Some(Carry::Void) => None,
        Some(_) => carried,
    }
}

/// A name that stands for another, where the pass carries it.
fn own_name<'a>(pass: Pass, ready: &Scoped<'a>, dummy: bool, name: &'a Ident) -> Option<Carry<'a>>
    ensures { puts_of result ≡ initials.name_put (pass_of pass) (ready_of ready.now) dummy (ident_name name.now) }
{
    let may_stand = match pass {
        Pass::Constants => is_ready(ready, name) && dummy,
        Pass::Inlines => is_ready(ready, name),
    };
    if is_eval(name) || !may_stand {
        None
    } else {
        Some(Carry::Name(name))
    }
}

impl<'a> Reader<'a> {
    /// What the initialiser of a declarator carries.
    pub(crate) fn initial(
        &self,
        tables: &Tables<'a>,
        place: Place,
        n: &'a VarDeclarator,
    ) -> Option<Carry<'a>>
        ensures { puts_of result ≡ first_put (pass_of self.now.pass) (state_of self.now tables.now place) (n.now.span ∷ n.now.name.span ∷ []) (optional_trees expr_tree n.now.init) }
    {
        let Some(init) = &n.init else {
            return None;
        };
        match name_of(init) {
            Some(name) => {
                let dummy = is_dummy(n.name.span) || (place.dummy || is_dummy(name.span));
                let own = own_name(self.pass, &tables.ready, dummy, name);
                passed_on(&tables.ready, self.carried(tables, place, name), own)
            }
            None => {
                let opened = open_expr(init);
                leaf(self.pass, opened.kind, opened.children)
            }
        }
    }
}
