//! What a node is, beside its children.
ghost use Rattle.std.specs.Prelude.{◌≡◌};
ghost use Rattle.swc_ast.specs.Scope.{holds_statements as is_holder};
ghost use Rattle.tree_visit.specs.Kinds.{kind_label};

use swc_ast::{
    AssignOp, BinaryOp, CatchClause, ExportNamedSpecifier, ExprOrSpread, Ident, IdentName,
    ImportNamedSpecifier, Str, SwitchCase, TplElement, UnaryOp, UpdateOp, VarDeclKind,
};

/// What a node is, beside its children: a label of the tree, over the parts that it was read from.
#[derive(Clone, Copy)]
pub enum Kind<'a> {
    NumLit(i64),
    StrLit(&'a Str),
    BoolLit(bool),
    NullLit,
    This,
    Invalid,
    Read(&'a Ident),
    Template(&'a [TplElement]),
    Array(&'a [Option<ExprOrSpread>]),
    Object,
    SpreadRecord,
    KeyValue,
    Shorthand(&'a Ident),
    Method,
    NameKey(&'a IdentName),
    TextKey(&'a Str),
    NumberKey(i64),
    ComputedKey,
    Fn(&'a Option<Ident>),
    Arrow,
    Params,
    Body,
    Param(&'a Ident),
    Unary(UnaryOp),
    TypeOfName(&'a Ident),
    Binary(BinaryOp),
    Cond,
    Seq,
    Dot(&'a IdentName),
    Index,
    Call,
    New,
    CallEval(&'a Ident),
    CallDot(&'a IdentName),
    CallIndex,
    Assign(AssignOp, &'a Ident),
    AssignDot(AssignOp, &'a IdentName),
    AssignIndex(AssignOp),
    Update(UpdateOp, bool, &'a Ident),
    UpdateDot(UpdateOp, bool, &'a IdentName),
    UpdateIndex(UpdateOp, bool),
    Block,
    Empty,
    Throw,
    ExprStmt,
    Return,
    If,
    While,
    DoWhile,
    For,
    Absent,
    Labeled(&'a IdentName),
    Break(&'a Option<IdentName>),
    Continue(&'a Option<IdentName>),
    Switch(&'a [SwitchCase]),
    CaseBody,
    Try(&'a Option<CatchClause>),
    VarDecl(VarDeclKind),
    Declarator(VarDeclKind, &'a Ident),
    FnDecl(&'a Ident),
    Module,
    Script,
    Import(&'a Str),
    ImportNamed(&'a ImportNamedSpecifier),
    ImportDefault(&'a Ident),
    ImportStar(&'a Ident),
    ExportDecl,
    ExportNamed,
    ExportSpecifier(&'a ExportNamedSpecifier),
    ExportDefaultFn(&'a Option<Ident>),
    ExportDefaultExpr,
}

impl<'a> Kind<'a> {
    /// Whether statements stand among the children, those of functions aside.
    #[inline(always)]
    pub fn holds_statements(self) -> bool
        ensures { result ≡ is_holder (kind_label self.entry) }
    {
        match self {
            Kind::Block
            | Kind::If
            | Kind::While
            | Kind::DoWhile
            | Kind::For
            | Kind::Labeled(_)
            | Kind::Switch(_)
            | Kind::CaseBody
            | Kind::Try(_)
            | Kind::VarDecl(_)
            | Kind::ExportDecl => true,
            _ => false,
        }
    }
}
