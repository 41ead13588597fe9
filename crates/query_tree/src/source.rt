//! What stands behind FROM and JOIN.

use crate::expr::Expr;
use crate::name::{Name, Path};
use event_value::Seq;

/// `name [[AS] name] [TIMESTAMP BY ..]`
#[derive(Drop)]
pub struct Source {
    pub place: u32,
    pub name: Name,
    pub alias: Option<Alias>,
    pub stamp: Option<Stamp>,
}

/// `[AS] name`; the flag says whether AS is written.
#[derive(Drop)]
pub struct Alias {
    pub place: u32,
    pub written: bool,
    pub name: Name,
}

/// `TIMESTAMP BY expr [OVER column {"," column}]`
#[derive(Drop)]
pub struct Stamp {
    pub place: u32,
    pub expr: Expr,
    pub over: Option<Over>,
}

/// `OVER column {"," column}`
#[derive(Drop)]
pub struct Over {
    pub place: u32,
    pub first: Path,
    pub more: Seq<Path>,
}

/// `[INNER | LEFT [OUTER]] JOIN source ON expr`, with the place of the word JOIN.
#[derive(Drop)]
pub struct Join {
    pub place: u32,
    pub side: Option<Side>,
    pub join_place: u32,
    pub source: Source,
    pub on: Expr,
}

/// `INNER | LEFT [OUTER]`; the flag says whether OUTER is written.
#[derive(Clone, Copy, PartialEq, Eq)]
pub enum Side {
    Inner(u32),
    Left(u32, bool),
}
