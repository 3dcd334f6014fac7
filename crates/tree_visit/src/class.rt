//! Classes of nodes, as lists and shapes of trees tell them apart.
ghost use Rattle.std.specs.Prelude.{◌≡◌};
ghost use Rattle.swc_ast.specs.Tree.{label_of};
ghost use Rattle.swc_ast.specs.Weight.{is_stopper as tree_stops, stays_behind as tree_stays, is_truth_or_absent as tree_is_truth};
ghost use Rattle.swc_ast.specs.Valid.{is_absent as tree_absent, is_listed as tree_listed};
ghost use Rattle.tree_visit.specs.Classes.{label_class};
ghost use Rattle.tree_visit.specs.Nodes.{node_tree};
ghost use Rattle.tree_visit.specs.Kinds.{kind_label};

use crate::kind::Kind;
use crate::node::Node;
use swc_ast::VarDeclKind;

/// What a node is among those round it.
#[derive(Clone, Copy, Debug, PartialEq, Eq)]
pub enum Class {
    /// A list of statements.
    List,
    /// `throw`, `return`, `break` or `continue`
    Stopper,
    FnDecl,
    /// A module declaration.
    ModuleItem,
    /// `let` or `const`
    Lexical,
    /// A truth literal.
    Truth,
    Absent,
    While,
    For,
    Other,
}

impl<'a> Kind<'a> {
    /// The class of nodes of this kind.
    pub fn class(self) -> Class
        ensures { result ≡ label_class (kind_label self.entry) }
    {
        match self {
            Kind::Body | Kind::Block | Kind::CaseBody | Kind::Module | Kind::Script => Class::List,
            Kind::Throw | Kind::Return | Kind::Break(_) | Kind::Continue(_) => Class::Stopper,
            Kind::FnDecl(_) => Class::FnDecl,
            Kind::Import(_)
            | Kind::ExportDecl
            | Kind::ExportNamed
            | Kind::ExportDefaultFn(_)
            | Kind::ExportDefaultExpr => Class::ModuleItem,
            Kind::BoolLit(_) => Class::Truth,
            Kind::Absent => Class::Absent,
            Kind::While => Class::While,
            Kind::For => Class::For,
            Kind::VarDecl(kind) => match kind {
                VarDeclKind::Var => Class::Other,
                VarDeclKind::Let => Class::Lexical,
                VarDeclKind::Const => Class::Lexical,
            },
            Kind::NumLit(_)
            | Kind::StrLit(_)
            | Kind::NullLit
            | Kind::This
            | Kind::Invalid
            | Kind::Read(_)
            | Kind::Template(_)
            | Kind::Array(_)
            | Kind::Object
            | Kind::SpreadRecord
            | Kind::KeyValue
            | Kind::Shorthand(_)
            | Kind::Method
            | Kind::NameKey(_)
            | Kind::TextKey(_)
            | Kind::NumberKey(_)
            | Kind::ComputedKey
            | Kind::Fn(_)
            | Kind::Arrow
            | Kind::Params
            | Kind::Param(_)
            | Kind::Unary(_)
            | Kind::TypeOfName(_)
            | Kind::Binary(_)
            | Kind::Cond
            | Kind::Seq
            | Kind::Dot(_)
            | Kind::Index
            | Kind::Call
            | Kind::New
            | Kind::CallEval(_)
            | Kind::CallDot(_)
            | Kind::CallIndex
            | Kind::Assign(_, _)
            | Kind::AssignDot(_, _)
            | Kind::AssignIndex(_)
            | Kind::Update(_, _, _)
            | Kind::UpdateDot(_, _, _)
            | Kind::UpdateIndex(_, _)
            | Kind::Empty
            | Kind::ExprStmt
            | Kind::If
            | Kind::DoWhile
            | Kind::Labeled(_)
            | Kind::Switch(_)
            | Kind::Try(_)
            | Kind::Declarator(_, _)
            | Kind::ImportNamed(_)
            | Kind::ImportDefault(_)
            | Kind::ImportStar(_)
            | Kind::ExportSpecifier(_) => Class::Other,
        }
    }
}

impl<'a> Node<'a> {
    /// The class of the node.
    pub fn class(self) -> Class
        ensures { result ≡ label_class (label_of (node_tree self.entry)) }
    {
        self.open().kind.class()
    }

    /// Whether control never passes the statement.
    #[tactic(auto, using(crate::proofs::Classes::stops_by))]
    pub fn is_stopper(self) -> bool
        ensures { result ≡ tree_stops (node_tree self.entry) }
    {
        match self.class() {
            Class::List => false,
            Class::Stopper => true,
            Class::FnDecl => false,
            Class::ModuleItem => false,
            Class::Lexical => false,
            Class::Truth => false,
            Class::Absent => false,
            Class::While => false,
            Class::For => false,
            Class::Other => false,
        }
    }

    /// Whether the node counts where no control reaches it: a function or a module declaration.
    #[tactic(auto, using(crate::proofs::Classes::stays_by))]
    pub fn stays_behind(self) -> bool
        ensures { result ≡ tree_stays (node_tree self.entry) }
    {
        match self.class() {
            Class::List => false,
            Class::Stopper => false,
            Class::FnDecl => true,
            Class::ModuleItem => true,
            Class::Lexical => false,
            Class::Truth => false,
            Class::Absent => false,
            Class::While => false,
            Class::For => false,
            Class::Other => false,
        }
    }

    /// Whether the node is a truth literal or left out.
    #[tactic(auto, using(crate::proofs::Classes::truth_by))]
    pub fn is_truth_or_absent(self) -> bool
        ensures { result ≡ tree_is_truth (node_tree self.entry) }
    {
        match self.class() {
            Class::List => false,
            Class::Stopper => false,
            Class::FnDecl => false,
            Class::ModuleItem => false,
            Class::Lexical => false,
            Class::Truth => true,
            Class::Absent => true,
            Class::While => false,
            Class::For => false,
            Class::Other => false,
        }
    }

    /// Whether the node is a part that is left out.
    #[tactic(auto, using(crate::proofs::Classes::absent_by))]
    pub fn is_absent(self) -> bool
        ensures { result ≡ tree_absent (node_tree self.entry) }
    {
        match self.class() {
            Class::List => false,
            Class::Stopper => false,
            Class::FnDecl => false,
            Class::ModuleItem => false,
            Class::Lexical => false,
            Class::Truth => false,
            Class::Absent => true,
            Class::While => false,
            Class::For => false,
            Class::Other => false,
        }
    }

    /// Whether the node is a declaration that stands in lists alone: `let`, `const` or a function.
    #[tactic(auto, using(crate::proofs::Classes::listed_by))]
    pub fn is_listed(self) -> bool
        ensures { result ≡ tree_listed (node_tree self.entry) }
    {
        match self.class() {
            Class::List => false,
            Class::Stopper => false,
            Class::FnDecl => true,
            Class::ModuleItem => false,
            Class::Lexical => true,
            Class::Truth => false,
            Class::Absent => false,
            Class::While => false,
            Class::For => false,
            Class::Other => false,
        }
    }
}
