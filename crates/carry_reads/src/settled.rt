//! Variables that are settled.
ghost use Rattle.std.specs.Prelude.{◌≡◌, ◌≤◌, true, [], ◌∷◌, None, IfOk, OnOk, length, option_map, position};
ghost use Rattle.swc_ast.specs.Parts.{ident_name};
ghost use Rattle.swc_ast.specs.Tree.{Name, same_name};
ghost use Rattle.carry_rules.specs.Carry.{with_put};
ghost use Rattle.carry_parts.specs.Carries.{put_of, puts_of};
ghost use Rattle.carry_tables.specs.Tables.{item_of};
ghost use Rattle.carry_reads.specs.Fronts.{names_in};
ghost use Rattle.carry_reads.specs.Settles.{settled_of, Within, Grows};

use carry_parts::Carry;
use carry_tables::Scoped;
use std::alloc::{AllocError, Global};
use swc_ast::Ident;
use swc_names::Names;

/// What is carried of variables to the statements that follow.
#[derive(Drop)]
pub(crate) struct Settled<'a> {
    /// the number of what is carried
    pub(crate) numbers: Scoped<'a>,
    /// what is carried, by number
    pub(crate) carries: Vec<Option<Carry<'a>>>,
}

impl<'a> Settled<'a> {
    /// Nothing is carried. Fails where memory is refused.
    pub(crate) fn new(alloc: Global, names: &'a Names) -> Result<Settled<'a>, AllocError>
        ensures numbers { IfOk result (λ u. (x : Name) → item_of u.numbers x ≡ option_map (λ n. 0) (position (same_name x) names.now)) }
        ensures carries { IfOk result (λ u. u.carries.items ≡ None ∷ []) }
    {
        let numbers = Scoped::new(alloc, names, 0)?;
        let mut carries = Vec::new(alloc);
        carries.push(None)?;
        Ok(Settled { numbers, carries })
    }

    /// The number of what is settled next.
    pub(crate) fn next(&self) -> usize
        ensures { result ≡ length self.now.carries.items }
    {
        self.carries.len()
    }

    /// What is carried of a name, by numbers from `base` on.
    pub(crate) fn get(&self, base: usize, name: &Ident) -> Option<Carry<'a>>
        ensures { puts_of result ≡ settled_of self.now base (ident_name name.now) }
    {
        let number = self.numbers.get(name)?;
        if base <= number && number < self.carries.len() {
            self.carries[number]
        } else {
            None
        }
    }

    /// Carries something of a name, unless something is carried by numbers from `base` on. Fails where memory is refused.
    pub(crate) fn add(
        &mut self,
        base: usize,
        name: &'a Ident,
        carry: Carry<'a>,
    ) -> Result<(), AllocError>
        requires room { base ≤ length self.old.carries.items }
        requires named { names_in self.old.numbers (ident_name name.now) ≡ true }
        requires within { Within self.old }
        ensures settles { OnOk result ((x : Name) → settled_of self.new base x ≡ with_put (ident_name name.now) (put_of carry.entry) (settled_of self.old base) x) }
        ensures grows { OnOk result (Grows self.old self.new) }
    {
        if self.get(base, name).is_some() {
            return Ok(());
        }
        let number = self.carries.len();
        self.carries.push(Some(carry))?;
        self.numbers.set(name, number)?;
        Ok(())
    }
}
