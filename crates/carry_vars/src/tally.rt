//! What is told of one name.
ghost use Rattle.std.specs.Prelude.{◌≡◌};
ghost use Rattle.swc_names.specs.Ids.{optional};
ghost use Rattle.tree_visit.specs.Kinds.{kind_label};
ghost use Rattle.tree_visit.specs.Nodes.{children_forest};
ghost use Rattle.carry_vars.specs.Counts as counts;
ghost use Rattle.carry_vars.specs.Told as told;
ghost use Rattle.carry_vars.specs.declared.count.Count.TheVariants as count;
ghost use Rattle.carry_vars.specs.declared.tally.Fact as facts;

use crate::count::Count;
use swc_ast::{Ident, VarDeclKind};
use tree_visit::{Children, Kind};

/// What a node may tell of a name.
#[derive(Clone, Copy)]
pub(crate) enum Fact {
    /// It is the target of an assignment or an update.
    Written,
    /// It is declared by something.
    Declared,
    /// It is declared by `const`.
    Constant,
    /// It is declared by `let` or `const`.
    Lexical,
    /// It is declared by `var`.
    Variable,
    /// It is imported.
    Imported,
    /// It is declared by `let` or `var` without an initialiser.
    Unset,
    /// It is declared by anything else.
    Set,
}

/// How often each was told of a name.
#[derive(Clone, Copy)]
pub(crate) struct Tally {
    pub(crate) written: Count,
    pub(crate) declared: Count,
    pub(crate) constant: Count,
    pub(crate) lexical: Count,
    pub(crate) variable: Count,
    pub(crate) imported: Count,
    pub(crate) unset: Count,
    pub(crate) set: Count,
}

impl Tally {
    /// Nothing was told.
    pub(crate) fn empty() -> Tally
        ensures { (f : facts.Fact) → told.holds result f ≡ count.Zero }
    {
        Tally {
            written: Count::Zero,
            declared: Count::Zero,
            constant: Count::Zero,
            lexical: Count::Zero,
            variable: Count::Zero,
            imported: Count::Zero,
            unset: Count::Zero,
            set: Count::Zero,
        }
    }

    /// What was told by both.
    pub(crate) fn and(self, other: Tally) -> Tally
        ensures { (f : facts.Fact) → told.holds result f ≡ counts.plus (told.holds self f) (told.holds other f) }
    {
        Tally {
            written: self.written.plus(other.written),
            declared: self.declared.plus(other.declared),
            constant: self.constant.plus(other.constant),
            lexical: self.lexical.plus(other.lexical),
            variable: self.variable.plus(other.variable),
            imported: self.imported.plus(other.imported),
            unset: self.unset.plus(other.unset),
            set: self.set.plus(other.set),
        }
    }

    /// What a node tells of the name that it has.
    pub(crate) fn of(kind: Kind<'_>, children: Children<'_>) -> Tally
        ensures { (f : facts.Fact) → told.holds result f ≡ counts.count_if (told.tells f (kind_label kind.entry) (children_forest children.entry)) }
    {
        Tally {
            written: Count::of(tells(Fact::Written, kind, children)),
            declared: Count::of(tells(Fact::Declared, kind, children)),
            constant: Count::of(tells(Fact::Constant, kind, children)),
            lexical: Count::of(tells(Fact::Lexical, kind, children)),
            variable: Count::of(tells(Fact::Variable, kind, children)),
            imported: Count::of(tells(Fact::Imported, kind, children)),
            unset: Count::of(tells(Fact::Unset, kind, children)),
            set: Count::of(tells(Fact::Set, kind, children)),
        }
    }
}

/// Whether a node tells something of the name that it has.
fn tells(fact: Fact, kind: Kind<'_>, children: Children<'_>) -> bool
    ensures { result ≡ told.tells fact (kind_label kind.entry) (children_forest children.entry) }
{
    match kind {
        Kind::Assign(_, _) | Kind::Update(_, _, _) => is_writing(fact),
        Kind::Declarator(kind, _) => declarator_tells(fact, kind, children),
        Kind::ImportNamed(_) | Kind::ImportDefault(_) | Kind::ImportStar(_) => is_importing(fact),
        Kind::Param(_) | Kind::Fn(_) | Kind::FnDecl(_) | Kind::ExportDefaultFn(_) | Kind::Try(_) =>
            is_declaring(fact),
        _ => false,
    }
}

/// Whether a declarator tells something of its name.
fn declarator_tells(fact: Fact, kind: VarDeclKind, children: Children<'_>) -> bool
    ensures { result ≡ told.declarator_tells fact kind (children_forest children.entry) }
{
    match fact {
        Fact::Declared => true,
        Fact::Constant => is_const(kind),
        Fact::Lexical => !is_var(kind),
        Fact::Variable => is_var(kind),
        Fact::Unset => is_none(children) && !is_const(kind),
        Fact::Set => !(is_none(children) && !is_const(kind)),
        Fact::Written | Fact::Imported => false,
    }
}

/// Whether there are no children.
fn is_none(children: Children<'_>) -> bool
    ensures { result ≡ told.is_none (children_forest children.entry) }
{
    match children.next() {
        Some(_) => false,
        None => true,
    }
}

fn is_writing(fact: Fact) -> bool
    ensures { result ≡ told.is_writing fact }
{
    match fact {
        Fact::Written => true,
        _ => false,
    }
}

fn is_declaring(fact: Fact) -> bool
    ensures { result ≡ told.is_declaring fact }
{
    match fact {
        Fact::Declared | Fact::Set => true,
        _ => false,
    }
}

fn is_importing(fact: Fact) -> bool
    ensures { result ≡ told.is_importing fact }
{
    match fact {
        Fact::Declared | Fact::Set | Fact::Imported => true,
        _ => false,
    }
}

fn is_const(kind: VarDeclKind) -> bool
    ensures { result ≡ told.is_const kind }
{
    match kind {
        VarDeclKind::Const => true,
        VarDeclKind::Let | VarDeclKind::Var => false,
    }
}

fn is_var(kind: VarDeclKind) -> bool
    ensures { result ≡ told.is_var kind }
{
    match kind {
        VarDeclKind::Var => true,
        VarDeclKind::Let | VarDeclKind::Const => false,
    }
}

/// The name that a node writes or declares.
pub(crate) fn told_name<'a>(kind: Kind<'a>) -> Option<&'a Ident>
    ensures { optional result ≡ told.told_name (kind_label kind.entry) }
{
    match kind {
        Kind::Assign(_, name)
        | Kind::Update(_, _, name)
        | Kind::Declarator(_, name)
        | Kind::Param(name)
        | Kind::FnDecl(name)
        | Kind::ImportDefault(name)
        | Kind::ImportStar(name) => Some(name),
        Kind::Fn(name) | Kind::ExportDefaultFn(name) => name.as_ref(),
        Kind::ImportNamed(n) => Some(&n.local),
        Kind::Try(handler) => match handler {
            Some(clause) => clause.param.as_ref(),
            None => None,
        },
        _ => None,
    }
}
