//! An item of a module, and what is known of it.
ghost use Rattle.std.specs.Prelude.{◌≡◌, true, false, IfOk, OnOk, IsTrue, None, Some, refl};
ghost use Rattle.swc_ast.specs.Modules.{item_tree};
ghost use Rattle.swc_ast.specs.Scope.{has_name};
ghost use Rattle.swc_ast.specs.Tree.{Name};
ghost use Rattle.swc_ast.specs.declared.modules.ModuleItem.TheVariants as items;
ghost use Rattle.swc_utils.specs.Globals.{unresolved};
ghost use Rattle.swc_names.specs.Ids.{ids};
ghost use Rattle.tree_walk.specs.Walks.{Made};
ghost use Rattle.swc_expr.specs.Simplifies.{simplify_pass};
ghost use Rattle.branch_rules.specs.Removes.{remove_pass};
ghost use Rattle.dce_rules.specs.Shakes.{shake_pass};
ghost use Rattle.dce_code.specs.Knowledge.{shaker};
ghost use Rattle.dce_uses.specs.Items.{IsUnused};
ghost use Rattle.dce_uses.specs.Said.{Grows, Register, register_of};
ghost use Rattle.round_units.specs.Cleared.{ItemCleared};
ghost use Rattle.round_units.specs.Rests.{AllGo, Known, Rests, SaidOf, unknown};

use dce_uses::{Said, Speaks, Uses};
use std::alloc::AllocError;
use stmt_like::StmtLike;
use swc_ast::{DUMMY_SP, Id, Ident, ModuleDecl, ModuleItem, Stmt, SyntaxContext};
use swc_branch::BranchRules;
use swc_dce::ShakeRules;
use swc_expr::ExprRules;
use tree_walk::{Rules, walk_module_item};

/// An item of a module, and what is known of it.
#[derive(Drop)]
pub struct Unit {
    pub(crate) item: ModuleItem,
    /// The unresolved names of an expression simplifier that leaves it as it is.
    simplified: Option<SyntaxContext>,
    /// The same of a remover of dead branches.
    removed: Option<SyntaxContext>,
    /// The names that it declares and beside which the tree shaker leaves it: as long as no other goes that it declares. Nothing
    /// where it may not leave it.
    settled: Option<Vec<Id>>,
    /// What it says of names.
    said: Option<Said>,
}

/// Whether it is known of these unresolved names.
fn is_known(known: Option<SyntaxContext>, context: SyntaxContext) -> bool
    ensures { IsTrue result → known ≡ Some context }
{
    match known {
        Some(given) => given == context,
        None => false,
    }
}

/// How many names are kept beside which an item was left. Each is compared with each that it declares and that goes.
const MOST_GONE: usize = 16;

/// Whether names may go beside which an item was left: there are none, or imports stay.
fn has_place(gone: &[Id], drops_imports: bool) -> bool
    ensures { IsTrue result → (x : Name) → has_name x (ids gone.now) ≡ true → drops_imports ≡ false }
{
    gone.is_empty() || !drops_imports
}

/// Those of some names that go.
fn going(rules: &ShakeRules<'_>, names: Vec<Id>) -> Result<Vec<Id>, AllocError>
    requires { rules.now.known.drops_imports ≡ false }
    ensures { IfOk result (λ r. AllGo (shaker rules.now.known) (ids r.items)) }
{
    let mut going = Vec::new(rules.alloc);
    for (sym, ctxt) in names {
        let span = DUMMY_SP;
        let name = Ident { span, sym, ctxt };
        if rules.known.is_free(&name) {
            going.push((name.sym, name.ctxt))?;
        }
    }
    Ok(going)
}

impl Unit {
    /// An item of which nothing is known.
    pub(crate) fn new(item: ModuleItem) -> Unit
        ensures { result ≡ unknown item }
    {
        Unit {
            item,
            simplified: None,
            removed: None,
            settled: None,
            said: None,
        }
    }

    /// The item.
    pub(crate) fn into_item(self) -> ModuleItem
        ensures { result ≡ self.item }
    {
        let Unit {
            item,
            simplified: _,
            removed: _,
            settled: _,
            said: _,
        } = self;
        item
    }

    /// Notes what it says of names, unless that is known.
    pub(crate) fn say(&mut self, uses: &mut Uses) -> Result<(), AllocError>
        requires unused { IsUnused uses.old }
        requires known { Known self.old }
        requires said { SaidOf (register_of uses.old) self.old }
        ensures unused { OnOk result (IsUnused uses.new) }
        ensures grows { OnOk result (Grows (register_of uses.old) (register_of uses.new)) }
        ensures item { OnOk result (self.new.item ≡ self.old.item) }
        ensures known { OnOk result (Known self.new) }
        ensures said { OnOk result (SaidOf (register_of uses.new) self.new) }
    {
        if self.said.is_none() {
            self.said = Some(uses.said(&self.item)?);
        }
        Ok(())
    }

    /// Walks the item. What is known stays where nothing changes.
    fn walk<R: Rules>(&mut self, rules: &R) -> Result<bool, AllocError>
        requires known { Known self.old }
        ensures made { IfOk result (λ c. Made (R.pass rules.now) (item_tree self.old.item) (item_tree self.new.item) c) }
        ensures known { OnOk result (Known self.new) }
        ensures said { OnOk result ((g : Register) → SaidOf g self.old → SaidOf g self.new) }
    {
        let changed = walk_module_item(rules, &mut self.item)?;
        if changed {
            self.simplified = None;
            self.removed = None;
            self.settled = None;
            self.said = None;
        }
        Ok(changed)
    }

    /// Walks the item by the expression simplifier, unless that is known to leave it.
    fn simplify(&mut self, rules: &ExprRules) -> Result<bool, AllocError>
        requires known { Known self.old }
        ensures made { IfOk result (λ c. Made (simplify_pass (unresolved rules.now.ctx)) (item_tree self.old.item) (item_tree self.new.item) c) }
        ensures known { OnOk result (Known self.new) }
        ensures said { OnOk result ((g : Register) → SaidOf g self.old → SaidOf g self.new) }
    {
        let context = rules.ctx.unresolved_ctxt;
        if is_known(self.simplified, context) {
            return Ok(false);
        }
        let changed = self.walk(rules)?;
        if !changed {
            self.simplified = Some(context);
        }
        Ok(changed)
    }

    /// The same by the remover of dead branches.
    fn remove(&mut self, rules: &BranchRules) -> Result<bool, AllocError>
        requires known { Known self.old }
        ensures made { IfOk result (λ c. Made (remove_pass (unresolved rules.now.ctx)) (item_tree self.old.item) (item_tree self.new.item) c) }
        ensures known { OnOk result (Known self.new) }
        ensures said { OnOk result ((g : Register) → SaidOf g self.old → SaidOf g self.new) }
    {
        let context = rules.ctx.unresolved_ctxt;
        if is_known(self.removed, context) {
            return Ok(false);
        }
        let changed = self.walk(rules)?;
        if !changed {
            self.removed = Some(context);
        }
        Ok(changed)
    }

    /// Walks the item by the expression simplifier and then by the remover, and notes what it says of names then.
    pub(crate) fn clear(
        &mut self,
        expressions: &ExprRules,
        branches: &BranchRules,
        uses: &mut Uses,
    ) -> Result<bool, AllocError>
        requires unused { IsUnused uses.old }
        requires known { Known self.old }
        requires said { SaidOf (register_of uses.old) self.old }
        ensures cleared { IfOk result (λ c. ItemCleared (unresolved expressions.now.ctx) (unresolved branches.now.ctx) self.old.item self.new.item c) }
        ensures unused { OnOk result (IsUnused uses.new) }
        ensures grows { OnOk result (Grows (register_of uses.old) (register_of uses.new)) }
        ensures known { OnOk result (Known self.new) }
        ensures said { OnOk result (SaidOf (register_of uses.new) self.new) }
    {
        let simplified = self.simplify(expressions)?;
        let removed = self.remove(branches)?;
        self.say(uses)?;
        Ok(simplified | removed)
    }

    /// Whether the tree shaker leaves it, by what is known and by what it says of names.
    fn is_left(&self, rules: &ShakeRules<'_>) -> bool
        requires known { Known self.now }
        requires said { SaidOf (register_of rules.now.known.uses.now) self.now }
        ensures { IsTrue result → Rests (shake_pass (shaker rules.now.known)) (item_tree self.now.item) }
    {
        match &self.settled {
            None => false,
            Some(gone) => match self.said {
                None => false,
                Some(said) => {
                    has_place(gone, rules.known.drops_imports)
                        && rules.known.uses.leaves(said, gone)
                }
            },
        }
    }

    /// The names that it declares and that go, where a tree shaker left it; none where imports go, or where there are many.
    fn gone(&self, rules: &ShakeRules<'_>) -> Result<Vec<Id>, AllocError>
        requires { SaidOf (register_of rules.now.known.uses.now) self.now }
        ensures { IfOk result (λ r. AllGo (shaker rules.now.known) (ids r.items)) }
    {
        let Some(said) = self.said else {
            return Ok(Vec::new(rules.alloc));
        };
        if rules.known.drops_imports {
            return Ok(Vec::new(rules.alloc));
        }
        match rules.known.uses.touched(rules.alloc, said, MOST_GONE)? {
            Some(names) => going(rules, names),
            None => Ok(Vec::new(rules.alloc)),
        }
    }

    /// Walks the item by the tree shaker, unless that is known to leave it.
    pub(crate) fn shake(&mut self, rules: &ShakeRules<'_>) -> Result<bool, AllocError>
        requires known { Known self.old }
        requires said { SaidOf (register_of rules.now.known.uses.now) self.old }
        ensures made { IfOk result (λ c. Made (shake_pass (shaker rules.now.known)) (item_tree self.old.item) (item_tree self.new.item) c) }
        ensures known { OnOk result (Known self.new) }
        ensures said { OnOk result ((g : Register) → SaidOf g self.old → SaidOf g self.new) }
    {
        if self.is_left(rules) {
            return Ok(false);
        }
        let changed = self.walk(rules)?;
        if !changed {
            self.settled = Some(self.gone(rules)?);
        }
        Ok(changed)
    }
}

impl StmtLike for Unit {
    ghost item = { λ u. u.item };

    ghost made = { λ s. unknown (items.Stmt s) };

    fn from(s: Stmt) -> Unit {
        Unit::new(ModuleItem::Stmt(s))
    }

    fn try_into_stmt(self) -> Result<Stmt, Unit> {
        let Unit {
            item,
            simplified,
            removed,
            settled,
            said,
        } = self;
        match item.try_into_stmt() {
            Ok(s) => Ok(s),
            Err(item) => Err(Unit {
                item,
                simplified,
                removed,
                settled,
                said,
            }),
        }
    }

    fn as_stmt(&self) -> Option<&Stmt> {
        self.item.as_stmt()
    }

    fn as_module_decl(&self) -> Option<&ModuleDecl> {
        self.item.as_module_decl()
    }

    ghost made_is = { λ s. refl };
}

impl Speaks for Unit {
    ghost tells = { λ u. u.said };

    fn said(&self) -> Option<Said> {
        self.said
    }
}
