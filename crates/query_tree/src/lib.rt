//! The tree of a query: one type for each line of the grammar, and for each optional or repeated
//! group of several parts; a choice is an enum. Names, numbers and texts are parts with a place.
//! Each node has the place of its first byte. A node that holds its own type does so through a
//! `Boxed` or `Items` of `sqlite_items`, which contracts see as the value and as the list.
//! What matters: the types themselves, since the grammar, the canonical text and the rules of
//! typing speak of them.
//! It reads no text: query_parse does.
#![tactic(auto)]

mod expr;
mod name;
mod script;
mod select;
mod source;

pub use expr::{
    And, Args, Call, Case, CastWord, Expr, Not, Pred, PredRest, Primary, Prod, ProdMore, ProdSign,
    Rel, Sum, SumMore, SumSign, Unary, When,
};
pub use name::{Name, Number, Path, TypeName};
pub use script::{Def, MoreStmt, Script, Stmt, Union, With};
pub use select::{Group, GroupBy, Having, Item, Partition, Select, SelectItems, Tail};
pub use source::{Alias, Join, Over, Side, Source, Stamp};
