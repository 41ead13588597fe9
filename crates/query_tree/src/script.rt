//! Whole queries and their statements.

use crate::name::Name;
use crate::select::{Select, SelectItems, Tail};
use event_value::Seq;

/// `[WITH def {"," def}] stmt {[";"] stmt} [";"]`; the flag says whether the last `;` is written.
#[derive(Drop)]
pub struct Script {
    pub place: u32,
    pub with: Option<With>,
    pub first: Stmt,
    pub more: Seq<MoreStmt>,
    pub semicolon: bool,
}

/// `WITH def {"," def}`
#[derive(Drop)]
pub struct With {
    pub place: u32,
    pub first: Def,
    pub more: Seq<Def>,
}

/// `name AS "(" union ")"`
#[derive(Drop)]
pub struct Def {
    pub place: u32,
    pub name: Name,
    pub union: Union,
}

/// `select {UNION select}`
#[derive(Drop)]
pub struct Union {
    pub place: u32,
    pub first: Select,
    pub more: Seq<Select>,
}

/// `SELECT items INTO name tail {UNION select}`
#[derive(Drop)]
pub struct Stmt {
    pub place: u32,
    pub items: SelectItems,
    pub output: Name,
    pub tail: Tail,
    pub more: Seq<Select>,
}

/// `[";"] stmt`; the flag says whether `;` is written.
#[derive(Drop)]
pub struct MoreStmt {
    pub place: u32,
    pub semicolon: bool,
    pub stmt: Stmt,
}
