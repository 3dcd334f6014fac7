//! The walk that finds names that an item keeps.
ghost use Rattle.std.specs.Prelude.{◌≡◌, ◌||◌, ◌++◌, ℕ, OnOk};
ghost use Rattle.tree_visit.specs.Kinds.{kind_label};
ghost use Rattle.tree_visit.specs.Nodes.{children_forest};
ghost use Rattle.dce_peel.specs.Rounds.{among};
ghost use Rattle.dce_layer_proofs.specs.Goers.{mentions_among, own_mention};
ghost use Rattle.dce_items.specs.Gathered.{keeps_number};

use crate::known::Known;
use dce_uses::{declared_name, named};
use std::alloc::AllocError;
use tree_visit::{Children, Kind, Opened};

impl<'a, 'b> Known<'a, 'b> {
    /// Adds the numbers of the names that stand in a node and that the item keeps.
    #[tactic(auto, using(crate::proofs::Noting::two))]
    fn note_own(&self, kind: Kind<'_>, notes: &mut Vec<usize>) -> Result<(), AllocError>
        ensures { OnOk result ((n : ℕ) → among notes.new.items n ≡ (among notes.old.items n || keeps_number self.now (own_mention (kind_label kind.entry)) n)) }
    {
        self.add_note(named(kind), notes)?;
        self.add_note(declared_name(kind), notes)
    }

    /// The same for all nodes among children and below them.
    #[cycle(note_all)]
    #[tactic(auto, using(tree_visit::proofs::Caps::rest_falls, crate::proofs::Sizes::inner_falls, crate::proofs::Sizes::rest_within, crate::proofs::Noting::begins, crate::proofs::Noting::goes_on, crate::proofs::Noting::done))]
    fn note_all(&self, children: Children<'_>, notes: &mut Vec<usize>) -> Result<(), AllocError>
        ensures { OnOk result ((n : ℕ) → among notes.new.items n ≡ (among notes.old.items n || keeps_number self.now (mentions_among (children_forest children.entry)) n)) }
    {
        let mut left = children;
        while let Some((child, rest)) = left.next() {
            let opened = child.open();
            self.note_own(opened.kind, notes)?;
            self.note_all(opened.children, notes)?;
            left = rest;
        }
        Ok(())
    }

    /// The same for an item.
    #[tactic(auto, using(crate::proofs::Noting::two))]
    pub(crate) fn note(&self, opened: Opened<'_>, notes: &mut Vec<usize>) -> Result<(), AllocError>
        ensures { OnOk result ((n : ℕ) → among notes.new.items n ≡ (among notes.old.items n || keeps_number self.now (own_mention (kind_label opened.entry.kind) ++ mentions_among (children_forest opened.entry.children)) n)) }
    {
        self.note_own(opened.kind, notes)?;
        self.note_all(opened.children, notes)?;
        Ok(())
    }
}
