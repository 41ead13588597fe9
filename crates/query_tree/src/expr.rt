//! Expressions.

use crate::name::{Number, Path, TypeName};
use event_value::Text;
use sqlite_items::{Boxed, Items};

/// How two sums are compared; `!=` is `Ne`.
#[derive(Clone, Copy, PartialEq, Eq)]
pub enum Rel {
    Eq,
    Ne,
    Lt,
    Le,
    Gt,
    Ge,
}

/// The sign before a further part of a sum.
#[derive(Clone, Copy, PartialEq, Eq)]
pub enum SumSign {
    Plus,
    Minus,
}

/// The sign before a further part of a product.
#[derive(Clone, Copy, PartialEq, Eq)]
pub enum ProdSign {
    Star,
    Slash,
    Percent,
}

/// CAST or TRY_CAST.
#[derive(Clone, Copy, PartialEq, Eq)]
pub enum CastWord {
    Cast,
    TryCast,
}

/// `and {OR and}`
#[cycle(tree)]
#[derive(Drop)]
pub struct Expr {
    pub place: u32,
    pub first: And,
    pub more: Items<And>,
}

/// `not {AND not}`
#[cycle(tree)]
#[derive(Drop)]
pub struct And {
    pub place: u32,
    pub first: Not,
    pub more: Items<Not>,
}

/// `NOT not | pred`
#[cycle(tree)]
#[derive(Drop)]
pub enum Not {
    Negation(u32, Boxed<Not>),
    Pred(Pred),
}

/// `sum [rest]`
#[cycle(tree)]
#[derive(Drop)]
pub struct Pred {
    pub place: u32,
    pub sum: Sum,
    pub rest: Option<PredRest>,
}

/// What may follow a sum, with the place of its first byte; a flag says whether NOT is written.
#[cycle(tree)]
#[derive(Drop)]
pub enum PredRest {
    /// `rel sum`
    Compare(u32, Rel, Sum),
    /// `[NOT] BETWEEN sum AND sum`
    Between(u32, bool, Sum, Sum),
    /// `[NOT] IN "(" expr {"," expr} ")"`
    In(u32, bool, Boxed<Expr>, Items<Expr>),
    /// `[NOT] LIKE sum`
    Like(u32, bool, Sum),
    /// `IS [NOT] NULL`
    IsNull(u32, bool),
}

/// `prod {("+" | "-") prod}`
#[cycle(tree)]
#[derive(Drop)]
pub struct Sum {
    pub place: u32,
    pub first: Prod,
    pub more: Items<SumMore>,
}

/// `("+" | "-") prod`
#[cycle(tree)]
#[derive(Drop)]
pub struct SumMore {
    pub place: u32,
    pub sign: SumSign,
    pub prod: Prod,
}

/// `unary {("*" | "/" | "%") unary}`
#[cycle(tree)]
#[derive(Drop)]
pub struct Prod {
    pub place: u32,
    pub first: Unary,
    pub more: Items<ProdMore>,
}

/// `("*" | "/" | "%") unary`
#[cycle(tree)]
#[derive(Drop)]
pub struct ProdMore {
    pub place: u32,
    pub sign: ProdSign,
    pub unary: Unary,
}

/// `"-" unary | primary`
#[cycle(tree)]
#[derive(Drop)]
pub enum Unary {
    Minus(u32, Boxed<Unary>),
    Primary(Primary),
}

/// `number | text | NULL | column | call | case | "(" expr ")"`
#[cycle(tree)]
#[derive(Drop)]
pub enum Primary {
    Number(u32, Number),
    /// A text without its quotes, a doubled one in it once.
    Text(u32, Text),
    Null(u32),
    Column(Path),
    Call(Call),
    Case(Case),
    Nested(u32, Boxed<Expr>),
}

/// `(CAST | TRY_CAST) "(" expr AS type ")" | path "(" [args] ")"`
#[cycle(tree)]
#[derive(Drop)]
pub enum Call {
    Cast(u32, CastWord, Boxed<Expr>, TypeName),
    Function(u32, Path, Option<Args>),
}

/// `"*" | [DISTINCT] expr {"," expr}`
#[cycle(tree)]
#[derive(Drop)]
pub enum Args {
    Star(u32),
    /// The flag says whether DISTINCT is written.
    Listed(u32, bool, Boxed<Expr>, Items<Expr>),
}

/// `CASE [expr] WHEN expr THEN expr {WHEN expr THEN expr} [ELSE expr] END`
#[cycle(tree)]
#[derive(Drop)]
pub struct Case {
    pub place: u32,
    pub subject: Option<Boxed<Expr>>,
    pub first: When,
    pub more: Items<When>,
    pub otherwise: Option<Boxed<Expr>>,
}

/// `WHEN expr THEN expr`
#[cycle(tree)]
#[derive(Drop)]
pub struct When {
    pub place: u32,
    pub when: Boxed<Expr>,
    pub then: Boxed<Expr>,
}
