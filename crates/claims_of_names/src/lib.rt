//! What is promised of names by number and of names that trees bind, for edits that must fail: each function here calls the one that
//! its comment names, under the same contract.
#![tactic(auto)]

ghost use Rattle.std.specs.Prelude.{◌≡◌, IfOk, IfErr, OnOk, IfSome, Some, position, slice_get, option_map};
ghost use Rattle.swc_ast.specs.Expressions.{param_tree};
ghost use Rattle.swc_ast.specs.Modules.{item_tree};
ghost use Rattle.swc_ast.specs.Parts.{ident_name, list_trees};
ghost use Rattle.swc_ast.specs.Scope.{has_name, param_names, vars_all};
ghost use Rattle.swc_ast.specs.Tree.{Name, same_name};
ghost use Rattle.swc_ast.specs.Views.{expr_tree, stmt_tree};
ghost use Rattle.swc_ast.specs.declared.errors.PassError.TheVariants.{OutOfMemory};
ghost use Rattle.swc_names.specs.Ids.{id_name, ids as ids_of};
ghost use Rattle.swc_names.specs.Names.{bound, distinct, mentioned, with_name};

use std::alloc::{AllocError, Global};
use std::collections::BTreeSet;
use stmt_like::StmtLike;
use swc_ast::{Id, Ident, PassError, Pat, Stmt};
use swc_names::Names;

/// `Names::new`
pub fn names_of<T: StmtLike>(alloc: Global, items: &[T]) -> Result<Names, PassError>
    ensures names { IfOk result (λ n. n ≡ distinct (mentioned (list_trees (λ x. item_tree (T.item x)) items.now))) }
    ensures memory { IfErr result (λ e. e ≡ OutOfMemory) }
{
    Names::new(alloc, items)
}

/// `Names::add`
pub fn add(names: &mut Names, name: &Ident) -> Result<usize, AllocError>
    ensures names { OnOk result (names.new ≡ with_name names.old (ident_name name.now)) }
    ensures number { IfOk result (λ n. position (same_name (ident_name name.now)) names.new ≡ Some n) }
{
    names.add(name)
}

/// `Names::number`
pub fn number(names: &Names, id: &Id) -> Option<usize>
    ensures number { result ≡ position (same_name (id_name id.now)) names.now }
    ensures named { IfSome result (λ n. slice_get names.now n ≡ Some (id_name id.now)) }
{
    names.number(id)
}

/// `Names::number_of`
pub fn number_of(names: &Names, name: &Ident) -> Option<usize>
    ensures number { result ≡ position (same_name (ident_name name.now)) names.now }
    ensures named { IfSome result (λ n. slice_get names.now n ≡ Some (ident_name name.now)) }
{
    names.number_of(name)
}

/// `Names::id`
pub fn id(names: &Names, number: usize) -> Option<&Id>
    ensures name { option_map (λ i. id_name i.now) result ≡ slice_get names.now number }
    ensures numbered { IfSome result (λ i. position (same_name (id_name i.now)) names.now ≡ Some number) }
{
    names.id(number)
}

/// `swc_names::collect_decls`
pub fn collect_decls<T: StmtLike>(alloc: Global, items: &[T]) -> Result<BTreeSet<Id>, PassError>
    ensures names { IfOk result (λ s. (x : Name) → has_name x (ids_of s.keys) ≡ has_name x (bound (list_trees (λ x. item_tree (T.item x)) items.now))) }
    ensures memory { IfErr result (λ e. e ≡ OutOfMemory) }
{
    swc_names::collect_decls(alloc, items)
}

/// `swc_names::extract_var_ids`
pub fn extract_var_ids(alloc: Global, stmts: &[Stmt]) -> Result<Vec<Id>, PassError>
    ensures names { IfOk result (λ r. ids_of r.items ≡ vars_all (list_trees stmt_tree stmts.now)) }
    ensures memory { IfErr result (λ e. e ≡ OutOfMemory) }
{
    swc_names::extract_var_ids(alloc, stmts)
}

/// `swc_names::find_pat_ids`
pub fn find_pat_ids(alloc: Global, params: &[Pat]) -> Result<Vec<Id>, PassError>
    ensures names { IfOk result (λ r. ids_of r.items ≡ param_names (list_trees (param_tree expr_tree) params.now)) }
    ensures memory { IfErr result (λ e. e ≡ OutOfMemory) }
{
    swc_names::find_pat_ids(alloc, params)
}
