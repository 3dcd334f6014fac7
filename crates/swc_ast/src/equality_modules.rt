//! `==` of modules, scripts and their items: they are the same, spans too.
ghost use Rattle.swc_ast.specs.Modules.{import_specifier_tree, import_tree, export_specifier_tree, named_export_tree, export_decl_tree, export_default_fn_tree, export_default_expr_tree, module_decl_tree, item_tree, module_tree, script_tree};
ghost use Rattle.swc_ast.specs.declared.modules.ImportSpecifier.TheVariants.{Named, Default, Namespace};
ghost use Rattle.std.specs.Prelude.{true};
ghost use Rattle.swc_ast.specs.Same.{same};
ghost use Rattle.swc_ast.specs.SameLaws.{partial-by, equivalence-by};

use crate::modules::{
    ExportDecl, ExportDefaultDecl, ExportDefaultExpr, ExportNamedSpecifier, ImportDecl,
    ImportDefaultSpecifier, ImportNamedSpecifier, ImportSpecifier, ImportStarAsSpecifier, Module,
    ModuleDecl, ModuleItem, NamedExport, Script,
};
use crate::same::Compare;

impl PartialEq for ImportNamedSpecifier {
    ghost eq = { λ a b. same true (import_specifier_tree (Named a)) (import_specifier_tree (Named b)) };

    ghost laws = { partial-by (λ n. import_specifier_tree (Named n)) };

    fn eq(&self, other: &ImportNamedSpecifier) -> bool {
        self.is_same(other, true)
    }
}

impl Eq for ImportNamedSpecifier {
    ghost laws = { equivalence-by (λ n. import_specifier_tree (Named n)) };
}

impl PartialEq for ImportDefaultSpecifier {
    ghost eq = { λ a b. same true (import_specifier_tree (Default a)) (import_specifier_tree (Default b)) };

    ghost laws = { partial-by (λ n. import_specifier_tree (Default n)) };

    fn eq(&self, other: &ImportDefaultSpecifier) -> bool {
        self.is_same(other, true)
    }
}

impl Eq for ImportDefaultSpecifier {
    ghost laws = { equivalence-by (λ n. import_specifier_tree (Default n)) };
}

impl PartialEq for ImportStarAsSpecifier {
    ghost eq = { λ a b. same true (import_specifier_tree (Namespace a)) (import_specifier_tree (Namespace b)) };

    ghost laws = { partial-by (λ n. import_specifier_tree (Namespace n)) };

    fn eq(&self, other: &ImportStarAsSpecifier) -> bool {
        self.is_same(other, true)
    }
}

impl Eq for ImportStarAsSpecifier {
    ghost laws = { equivalence-by (λ n. import_specifier_tree (Namespace n)) };
}

impl PartialEq for ImportSpecifier {
    ghost eq = { λ a b. same true (import_specifier_tree a) (import_specifier_tree b) };

    ghost laws = { partial-by import_specifier_tree };

    fn eq(&self, other: &ImportSpecifier) -> bool {
        self.is_same(other, true)
    }
}

impl Eq for ImportSpecifier {
    ghost laws = { equivalence-by import_specifier_tree };
}

impl PartialEq for ImportDecl {
    ghost eq = { λ a b. same true (import_tree a) (import_tree b) };

    ghost laws = { partial-by import_tree };

    fn eq(&self, other: &ImportDecl) -> bool {
        self.is_same(other, true)
    }
}

impl Eq for ImportDecl {
    ghost laws = { equivalence-by import_tree };
}

impl PartialEq for ExportNamedSpecifier {
    ghost eq = { λ a b. same true (export_specifier_tree a) (export_specifier_tree b) };

    ghost laws = { partial-by export_specifier_tree };

    fn eq(&self, other: &ExportNamedSpecifier) -> bool {
        self.is_same(other, true)
    }
}

impl Eq for ExportNamedSpecifier {
    ghost laws = { equivalence-by export_specifier_tree };
}

impl PartialEq for NamedExport {
    ghost eq = { λ a b. same true (named_export_tree a) (named_export_tree b) };

    ghost laws = { partial-by named_export_tree };

    fn eq(&self, other: &NamedExport) -> bool {
        self.is_same(other, true)
    }
}

impl Eq for NamedExport {
    ghost laws = { equivalence-by named_export_tree };
}

impl PartialEq for ExportDecl {
    ghost eq = { λ a b. same true (export_decl_tree a) (export_decl_tree b) };

    ghost laws = { partial-by export_decl_tree };

    fn eq(&self, other: &ExportDecl) -> bool {
        self.is_same(other, true)
    }
}

impl Eq for ExportDecl {
    ghost laws = { equivalence-by export_decl_tree };
}

impl PartialEq for ExportDefaultDecl {
    ghost eq = { λ a b. same true (export_default_fn_tree a) (export_default_fn_tree b) };

    ghost laws = { partial-by export_default_fn_tree };

    fn eq(&self, other: &ExportDefaultDecl) -> bool {
        self.is_same(other, true)
    }
}

impl Eq for ExportDefaultDecl {
    ghost laws = { equivalence-by export_default_fn_tree };
}

impl PartialEq for ExportDefaultExpr {
    ghost eq = { λ a b. same true (export_default_expr_tree a) (export_default_expr_tree b) };

    ghost laws = { partial-by export_default_expr_tree };

    fn eq(&self, other: &ExportDefaultExpr) -> bool {
        self.is_same(other, true)
    }
}

impl Eq for ExportDefaultExpr {
    ghost laws = { equivalence-by export_default_expr_tree };
}

impl PartialEq for ModuleDecl {
    ghost eq = { λ a b. same true (module_decl_tree a) (module_decl_tree b) };

    ghost laws = { partial-by module_decl_tree };

    fn eq(&self, other: &ModuleDecl) -> bool {
        self.is_same(other, true)
    }
}

impl Eq for ModuleDecl {
    ghost laws = { equivalence-by module_decl_tree };
}

impl PartialEq for ModuleItem {
    ghost eq = { λ a b. same true (item_tree a) (item_tree b) };

    ghost laws = { partial-by item_tree };

    fn eq(&self, other: &ModuleItem) -> bool {
        self.is_same(other, true)
    }
}

impl Eq for ModuleItem {
    ghost laws = { equivalence-by item_tree };
}

impl PartialEq for Module {
    ghost eq = { λ a b. same true (module_tree a) (module_tree b) };

    ghost laws = { partial-by module_tree };

    fn eq(&self, other: &Module) -> bool {
        self.is_same(other, true)
    }
}

impl Eq for Module {
    ghost laws = { equivalence-by module_tree };
}

impl PartialEq for Script {
    ghost eq = { λ a b. same true (script_tree a) (script_tree b) };

    ghost laws = { partial-by script_tree };

    fn eq(&self, other: &Script) -> bool {
        self.is_same(other, true)
    }
}

impl Eq for Script {
    ghost laws = { equivalence-by script_tree };
}
