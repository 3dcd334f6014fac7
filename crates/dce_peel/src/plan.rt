//! Layers that are likely to be right. Nothing rests on them, since they are tested.
ghost use Rattle.std.specs.Prelude.{◌≤◌, IfOk};

use crate::access::Access;
use crate::item::Item;
use crate::layers::Layering;
use std::alloc::{AllocError, Global};
use std::mem;

/// What is known of a name while items go.
#[derive(Clone, Copy)]
struct NameState {
    /// how often items that are left note it
    noted: usize,
    /// how often it stands among the goers of items that are left
    held: usize,
    /// the first item that goes with it
    item: Option<usize>,
    /// how often items that are left read it
    reads: usize,
    /// how often they assign to it without reading it
    writes: usize,
    /// whether an item declares it
    is_declared: bool,
}

impl NameState {
    /// Nothing is known of the name.
    fn unknown() -> NameState {
        NameState {
            noted: 0,
            held: 0,
            item: None,
            reads: 0,
            writes: 0,
            is_declared: false,
        }
    }

    /// Whether assignments to the name go: it is declared, and nothing reads it.
    fn loses_writes(self) -> bool {
        self.is_declared && self.reads == 0 && self.writes > 0
    }
}

/// Items that go, round by round.
#[derive(Drop)]
struct Rounds<'a> {
    items: &'a [Item],
    accesses: &'a [Access],
    names: Vec<NameState>,
    layers: Vec<usize>,
    /// what goes in the next round
    next: Vec<usize>,
    /// whether something would go in the next round that is no item
    is_over: bool,
}

impl<'a> Rounds<'a> {
    /// All items stay.
    fn new(
        alloc: Global,
        names: usize,
        items: &'a [Item],
        accesses: &'a [Access],
    ) -> Result<Rounds<'a>, AllocError> {
        Ok(Rounds {
            items,
            accesses,
            names: vec![in alloc; NameState::unknown(); names]?,
            layers: vec![in alloc; usize::MAX; items.len()]?,
            next: Vec::new(alloc),
            is_over: false,
        })
    }

    /// An item goes with a name, if another doesn't; the name is held by this one, if another does.
    fn count_name(&mut self, at: usize, name: Option<usize>) {
        let Some(name) = name else {
            return;
        };
        if name >= self.names.len() {
            return;
        }
        if self.names[name].item.is_none() {
            self.names[name].item = Some(at);
        } else {
            self.names[name].held = self.names[name].held.saturating_add(1);
        }
    }

    /// Counts what items note and hold.
    fn count(&mut self) {
        for (i, item) in self.items.iter().enumerate() {
            for name in &item.notes {
                if *name < self.names.len() {
                    self.names[*name].noted = self.names[*name].noted.saturating_add(1);
                }
            }
            for name in &item.goers {
                if *name < self.names.len() {
                    self.names[*name].held = self.names[*name].held.saturating_add(1);
                }
            }
            self.count_name(i, item.name);
        }
    }

    /// Counts how items read, write and declare names.
    fn count_accesses(&mut self) {
        for access in self.accesses {
            for name in &access.reads {
                if *name < self.names.len() {
                    self.names[*name].reads = self.names[*name].reads.saturating_add(1);
                }
            }
            for name in &access.writes {
                if *name < self.names.len() {
                    self.names[*name].writes = self.names[*name].writes.saturating_add(1);
                }
            }
            for name in &access.declares {
                if *name < self.names.len() {
                    self.names[*name].is_declared = true;
                }
            }
        }
    }

    /// A name that no item notes goes in the next round.
    fn free(&mut self, name: NameState) -> Result<(), AllocError> {
        if name.held > 0 {
            self.is_over = true;
        }
        if let Some(item) = name.item {
            self.next.push(item)?;
        }
        Ok(())
    }

    /// What goes in the first round.
    fn begin(&mut self) -> Result<(), AllocError> {
        for i in 0..self.names.len() {
            let Some(name) = self.names.get(i).copied() else {
                return Ok(());
            };
            if name.noted == 0 {
                self.free(name)?;
            }
            if name.loses_writes() {
                self.is_over = true;
            }
        }
        Ok(())
    }

    /// An item goes in a round.
    fn take(&mut self, at: usize, round: usize) {
        if at < self.layers.len() {
            self.layers[at] = round;
        }
        let Some(item) = self.items.get(at) else {
            return;
        };
        for name in &item.goers {
            if *name < self.names.len() {
                self.names[*name].held = self.names[*name].held.saturating_sub(1);
            }
        }
    }

    /// What an item notes that has gone is noted once less.
    fn forget(&mut self, at: usize) -> Result<(), AllocError> {
        let Some(item) = self.items.get(at) else {
            return Ok(());
        };
        for number in &item.notes {
            if *number < self.names.len() {
                self.names[*number].noted = self.names[*number].noted.saturating_sub(1);
                let name = self.names[*number];
                if name.noted == 0 {
                    self.free(name)?;
                }
            }
        }
        Ok(())
    }

    /// What an item reads and writes that has gone is read and written once less.
    fn withdraw(&mut self, at: usize) {
        let Some(access) = self.accesses.get(at) else {
            return;
        };
        for name in &access.reads {
            if *name < self.names.len() {
                self.names[*name].reads = self.names[*name].reads.saturating_sub(1);
            }
        }
        for name in &access.writes {
            if *name < self.names.len() {
                self.names[*name].writes = self.names[*name].writes.saturating_sub(1);
            }
        }
    }

    /// Assignments go in the next round to what an item read that has gone, if nothing else reads it.
    fn look_at_reads(&mut self, at: usize) {
        let Some(access) = self.accesses.get(at) else {
            return;
        };
        for name in &access.reads {
            if *name < self.names.len() && self.names[*name].loses_writes() {
                self.is_over = true;
            }
        }
    }

    /// One round.
    fn run(&mut self, alloc: Global, round: usize) -> Result<(), AllocError> {
        let going = mem::replace(&mut self.next, Vec::new(alloc));
        for at in &going {
            self.take(*at, round);
            self.withdraw(*at);
        }
        for at in &going {
            self.forget(*at)?;
            self.look_at_reads(*at);
        }
        Ok(())
    }
}

/// The layers that items are likely to have, in so many rounds at most: an item goes in the round behind that of the last
/// item that notes it, and there is no round in which something else would go.
pub(crate) fn plan(
    alloc: Global,
    names: usize,
    items: &[Item],
    accesses: &[Access],
    most: usize,
) -> Result<Layering, AllocError>
    ensures { IfOk result (λ l. l.rounds ≤ most) }
{
    let mut plan = Rounds::new(alloc, names, items, accesses)?;
    plan.count();
    plan.count_accesses();
    plan.begin()?;
    let mut rounds = 0;
    while rounds < most && !plan.is_over && !plan.next.is_empty() {
        rounds += 1;
        plan.run(alloc, rounds)?;
    }
    Ok(Layering {
        layers: plan.layers,
        rounds,
    })
}
