//! What nodes are compared by, beside their children.
ghost use Rattle.std.specs.Prelude.{◌≡◌};
ghost use Rattle.swc_ast.specs.Parts.{ident_name, option_ident_name, option_word_text};
ghost use Rattle.swc_ast.specs.Statements.{handler_param};
ghost use Rattle.tree_visit.specs.Kinds.{kind_label};
ghost use Rattle.swc_expr_map.specs.Codes.{label_code, one_text, two_texts, handler_code, plain as plain_code, numbered as numbered_code, listed as listed_code, named as named_code, optional_text as text_row, optional_name as name_row, optional_context as context_of};
ghost use Rattle.swc_expr_map.specs.Order.{code_cmp};
ghost use Rattle.swc_expr_map.specs.Rows.{code_of, row_of};

use crate::numbers::{assign_number, binary_number, unary_number, update_number, word_number};
use crate::texts::Texts;
use std::cmp::Ordering;
use swc_ast::{CatchClause, Ident, IdentName, SyntaxContext};
use tree_visit::Kind;

/// What a node is: a number for its kind, and its fields without contexts. Only imports and exports have theirs.
#[derive(Clone, Copy)]
pub(crate) struct Code<'a> {
    rank: u8,
    number: i64,
    context: SyntaxContext,
    texts: Texts<'a>,
}

impl<'a> Code<'a> {
    /// The code of a node's kind.
    #[tactic(auto, unfolding(crate::specs::Codes::label_code))]
    pub(crate) fn of(kind: Kind<'a>) -> Code<'a>
        ensures { code_of result ≡ label_code (kind_label kind.entry) }
    {
        match kind {
            Kind::NumLit(z) => Code::numbered(0, z),
            Kind::StrLit(n) => Code::text(1, &n.value),
            Kind::BoolLit(b) => Code::numbered(2, i64::from(b)),
            Kind::NullLit => Code::plain(3),
            Kind::This => Code::plain(4),
            Kind::Invalid => Code::plain(5),
            Kind::Read(n) => Code::text(6, &n.sym),
            Kind::Dot(n) => Code::text(7, &n.sym),
            Kind::Index => Code::plain(8),
            Kind::Template(xs) => Code::listed(9, Texts::Quasis(xs)),
            Kind::Array(xs) => Code::listed(10, Texts::Items(xs)),
            Kind::Object => Code::plain(11),
            Kind::SpreadRecord => Code::plain(12),
            Kind::KeyValue => Code::plain(13),
            Kind::Shorthand(n) => Code::text(14, &n.sym),
            Kind::Method => Code::plain(15),
            Kind::ComputedKey => Code::plain(16),
            Kind::NameKey(n) => Code::text(17, &n.sym),
            Kind::TextKey(n) => Code::text(18, &n.value),
            Kind::NumberKey(z) => Code::numbered(19, z),
            Kind::Fn(n) => Code::listed(20, optional_name(n)),
            Kind::Arrow => Code::plain(21),
            Kind::Params => Code::plain(22),
            Kind::Body => Code::plain(23),
            Kind::Param(n) => Code::text(24, &n.sym),
            Kind::Unary(op) => Code::numbered(25, unary_number(op)),
            Kind::TypeOfName(n) => Code::text(26, &n.sym),
            Kind::Binary(op) => Code::numbered(27, binary_number(op)),
            Kind::Cond => Code::plain(28),
            Kind::Seq => Code::plain(29),
            Kind::Call => Code::plain(30),
            Kind::New => Code::plain(31),
            Kind::CallEval(n) => Code::text(32, &n.sym),
            Kind::CallDot(n) => Code::text(33, &n.sym),
            Kind::CallIndex => Code::plain(34),
            Kind::Assign(op, n) => Code::both(35, assign_number(op), &n.sym),
            Kind::AssignDot(op, n) => Code::both(36, assign_number(op), &n.sym),
            Kind::AssignIndex(op) => Code::numbered(37, assign_number(op)),
            Kind::Update(op, prefix, n) => Code::both(38, update_number(op, prefix), &n.sym),
            Kind::UpdateDot(op, prefix, n) => Code::both(39, update_number(op, prefix), &n.sym),
            Kind::UpdateIndex(op, prefix) => Code::numbered(40, update_number(op, prefix)),
            Kind::Block => Code::plain(41),
            Kind::Empty => Code::plain(42),
            Kind::Throw => Code::plain(43),
            Kind::ExprStmt => Code::plain(44),
            Kind::Return => Code::plain(45),
            Kind::If => Code::plain(46),
            Kind::While => Code::plain(47),
            Kind::DoWhile => Code::plain(48),
            Kind::For => Code::plain(49),
            Kind::Absent => Code::plain(50),
            Kind::Labeled(n) => Code::text(51, &n.sym),
            Kind::Break(n) => Code::listed(52, optional_word(n)),
            Kind::Continue(n) => Code::listed(53, optional_word(n)),
            Kind::Switch(xs) => Code::listed(54, Texts::Cases(xs)),
            Kind::CaseBody => Code::plain(55),
            Kind::Try(n) => Code::handler(n),
            Kind::VarDecl(kind) => Code::numbered(57, word_number(kind)),
            Kind::Declarator(kind, n) => Code::both(58, word_number(kind), &n.sym),
            Kind::FnDecl(n) => Code::text(59, &n.sym),
            Kind::Module => Code::plain(60),
            Kind::Script => Code::plain(61),
            Kind::Import(n) => Code::text(62, &n.value),
            Kind::ImportNamed(n) => Code::two(63, &n.local, &n.imported),
            Kind::ImportDefault(n) => Code::named(64, n),
            Kind::ImportStar(n) => Code::named(65, n),
            Kind::ExportDecl => Code::plain(66),
            Kind::ExportNamed => Code::plain(67),
            Kind::ExportSpecifier(n) => Code::two(68, &n.orig, &n.exported),
            Kind::ExportDefaultFn(n) => Code::default_fn(n),
            Kind::ExportDefaultExpr => Code::plain(70),
        }
    }

    fn plain(rank: u8) -> Code<'a>
        ensures { code_of result ≡ plain_code rank }
    {
        Code::listed(rank, Texts::None)
    }

    fn numbered(rank: u8, number: i64) -> Code<'a>
        ensures { code_of result ≡ numbered_code rank number }
    {
        Code {
            rank,
            number,
            context: SyntaxContext::empty(),
            texts: Texts::None,
        }
    }

    fn listed(rank: u8, texts: Texts<'a>) -> Code<'a>
        ensures { code_of result ≡ listed_code rank (row_of texts.entry) }
    {
        Code {
            rank,
            number: 0,
            context: SyntaxContext::empty(),
            texts,
        }
    }

    fn text(rank: u8, text: &'a str) -> Code<'a>
        ensures { code_of result ≡ listed_code rank (one_text text.now) }
    {
        Code::listed(rank, Texts::One(text))
    }

    fn both(rank: u8, number: i64, text: &'a str) -> Code<'a>
        ensures { code_of result ≡ record { rank = rank; number = number; context = 0; row = one_text text.now } }
    {
        Code {
            rank,
            number,
            context: SyntaxContext::empty(),
            texts: Texts::One(text),
        }
    }

    /// A name that is imported or exported.
    fn named(rank: u8, name: &'a Ident) -> Code<'a>
        ensures { code_of result ≡ named_code rank (ident_name name.now).context (one_text (ident_name name.now).text) }
    {
        Code {
            rank,
            number: 0,
            context: name.ctxt,
            texts: Texts::One(&name.sym),
        }
    }

    /// The same with a second word, which may be left out.
    fn two(rank: u8, name: &'a Ident, word: &'a Option<IdentName>) -> Code<'a>
        ensures { code_of result ≡ named_code rank (ident_name name.now).context (two_texts (ident_name name.now).text (option_word_text word.now)) }
    {
        match word {
            None => Code::named(rank, name),
            Some(n) => Code {
                rank,
                number: 0,
                context: name.ctxt,
                texts: Texts::Two(&name.sym, &n.sym),
            },
        }
    }

    /// A function that is the default export.
    fn default_fn(name: &'a Option<Ident>) -> Code<'a>
        ensures { code_of result ≡ named_code 69 (context_of (option_ident_name name.now)) (name_row (option_ident_name name.now)) }
    {
        match name {
            None => Code::plain(69),
            Some(n) => Code::named(69, n),
        }
    }

    /// A `try` with its handler.
    fn handler(clause: &'a Option<CatchClause>) -> Code<'a>
        ensures { code_of result ≡ handler_code 56 (handler_param clause.now) }
    {
        match clause {
            None => Code::plain(56),
            Some(n) => Code {
                rank: 56,
                number: 1,
                context: SyntaxContext::empty(),
                texts: optional_name(&n.param),
            },
        }
    }

    /// The order of two nodes without their children.
    pub(crate) fn compare(self, other: Code<'_>) -> Ordering
        ensures { result ≡ code_cmp (code_of self.entry) (code_of other.entry) }
    {
        let order = self
            .rank
            .cmp(&other.rank)
            .then(self.number.cmp(&other.number))
            .then(self.context.cmp(&other.context));
        if order.is_ne() {
            return order;
        }
        self.texts.compare(other.texts)
    }
}

fn optional_name<'a>(name: &'a Option<Ident>) -> Texts<'a>
    ensures { row_of result ≡ name_row (option_ident_name name.now) }
{
    match name {
        None => Texts::None,
        Some(n) => Texts::One(&n.sym),
    }
}

fn optional_word<'a>(word: &'a Option<IdentName>) -> Texts<'a>
    ensures { row_of result ≡ text_row (option_word_text word.now) }
{
    match word {
        None => Texts::None,
        Some(n) => Texts::One(&n.sym),
    }
}
