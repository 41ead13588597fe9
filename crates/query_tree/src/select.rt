//! Selects, with their items, groups and conditions.

use crate::expr::Expr;
use crate::name::Path;
use crate::source::{Alias, Join, Source};
use event_value::Seq;

/// `SELECT items tail`
#[derive(Drop)]
pub struct Select {
    pub place: u32,
    pub items: SelectItems,
    pub tail: Tail,
}

/// `"*" | item {"," item}`
#[derive(Drop)]
pub enum SelectItems {
    Star(u32),
    Listed(u32, Item, Seq<Item>),
}

/// `expr [[AS] name]`
#[derive(Drop)]
pub struct Item {
    pub place: u32,
    pub expr: Expr,
    pub alias: Option<Alias>,
}

/// `FROM source {join} [WHERE expr] [GROUP BY group {"," group}] [HAVING expr]`
#[derive(Drop)]
pub struct Tail {
    pub place: u32,
    pub source: Source,
    pub joins: Seq<Join>,
    pub condition: Option<Expr>,
    pub groups: Option<GroupBy>,
    pub having: Option<Having>,
}

/// `GROUP BY group {"," group}`; the place is that of the word GROUP.
#[derive(Drop)]
pub struct GroupBy {
    pub place: u32,
    pub first: Group,
    pub more: Seq<Group>,
}

/// `expr [OVER "(" PARTITION BY column {"," column} ")"]`
#[derive(Drop)]
pub struct Group {
    pub place: u32,
    pub expr: Expr,
    pub partition: Option<Partition>,
}

/// `OVER "(" PARTITION BY column {"," column} ")"`
#[derive(Drop)]
pub struct Partition {
    pub place: u32,
    pub first: Path,
    pub more: Seq<Path>,
}

/// `HAVING expr`; the place is that of the word HAVING.
#[derive(Drop)]
pub struct Having {
    pub place: u32,
    pub condition: Expr,
}
