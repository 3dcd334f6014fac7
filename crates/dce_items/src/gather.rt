//! The walk that finds names that are declared in an item.
ghost use Rattle.std.specs.Prelude.{IfOk};
ghost use Rattle.tree_visit.specs.Kinds.{kind_label};
ghost use Rattle.tree_visit.specs.Nodes.{children_forest};
ghost use Rattle.dce_layer_proofs.specs.Goers.{goers_among, tight_among};
ghost use Rattle.dce_items.specs.Gathered.{Gathers, goers_child, goers_inside, tight_child, tight_inside};

use crate::kinds::{goes_anyway, is_closed, is_for, is_head, is_list, is_sound, own_goer};
use crate::known::Known;
use std::alloc::AllocError;
use tree_visit::{Children, Opened};

impl<'a, 'b> Known<'a, 'b> {
    /// Adds the names that are declared below a node, where they are entered. False where something in its lists goes in any
    /// case, or nothing is known of a name.
    #[cycle(gather)]
    #[tactic(auto, using(crate::proofs::Gathering::closed, crate::proofs::Gathering::stops, crate::proofs::Gathering::inside))]
    pub(crate) fn gather_inside(
        &self,
        opened: Opened<'_>,
        goers: &mut Vec<usize>,
    ) -> Result<bool, AllocError>
        ensures { IfOk result (λ b. Gathers self.now goers.old.items goers.new.items b (tight_inside (kind_label opened.entry.kind) (children_forest opened.entry.children)) (goers_inside (kind_label opened.entry.kind) (children_forest opened.entry.children))) }
    {
        if is_closed(opened.kind) {
            return Ok(true);
        }
        if !is_sound(opened) {
            return Ok(false);
        }
        self.gather(
            opened.children,
            is_for(opened.kind),
            is_list(opened.kind),
            goers,
        )
    }

    /// The same for a child of a node, the first of a `for` or one of a list, with the name that it declares itself.
    #[cycle(gather)]
    #[tactic(auto, using(crate::proofs::Gathering::head_passed, crate::proofs::Gathering::stops, crate::proofs::Gathering::ends, crate::proofs::Gathering::child))]
    fn gather_child(
        &self,
        opened: Opened<'_>,
        head: bool,
        listed: bool,
        goers: &mut Vec<usize>,
    ) -> Result<bool, AllocError>
        ensures { IfOk result (λ b. Gathers self.now goers.old.items goers.new.items b (tight_child head listed (kind_label opened.entry.kind) (children_forest opened.entry.children)) (goers_child head (kind_label opened.entry.kind) (children_forest opened.entry.children))) }
    {
        if is_head(head, opened.kind) {
            return Ok(true);
        }
        if goes_anyway(listed, opened) {
            return Ok(false);
        }
        if !self.add_goer(own_goer(opened.kind), goers)? {
            return Ok(false);
        }
        self.gather_inside(opened, goers)
    }

    /// The same for children, the first of which may be the head of a `for`.
    #[cycle(gather)]
    #[tactic(auto, using(tree_visit::proofs::Caps::rest_falls, crate::proofs::Sizes::inner_falls, crate::proofs::Sizes::rest_within, crate::proofs::Gathering::begins, crate::proofs::Gathering::goes_on, crate::proofs::Gathering::ends_at, crate::proofs::Gathering::done))]
    fn gather(
        &self,
        children: Children<'_>,
        head: bool,
        listed: bool,
        goers: &mut Vec<usize>,
    ) -> Result<bool, AllocError>
        ensures { IfOk result (λ b. Gathers self.now goers.old.items goers.new.items b (tight_among head listed (children_forest children.entry)) (goers_among head (children_forest children.entry))) }
    {
        let mut left = children;
        let mut first = head;
        while let Some((child, rest)) = left.next() {
            if !self.gather_child(child.open(), first, listed, goers)? {
                return Ok(false);
            }
            first = false;
            left = rest;
        }
        Ok(true)
    }
}
