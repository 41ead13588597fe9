//! Copies of whole queries and of their statements.

use crate::copy_tree::{CopyTree, copies_of, copy_of_option};
use crate::parts::both;
use event_value::{Copies, Memory};
use query_tree::{Def, MoreStmt, Script, Stmt, Union, With};
use std::alloc::Global;

impl CopyTree for Script {
    fn copy(&self, alloc: Global) -> Result<Self, Memory> {
        let stmts = both(self.first.copy(alloc), copies_of(alloc, self.more.items()));
        let (with, (first, more)) = both(copy_of_option(alloc, &self.with), stmts)?;
        Ok(Script {
            place: self.place,
            with,
            first,
            more,
            semicolon: self.semicolon,
        })
    }
}

impl CopyTree for With {
    fn copy(&self, alloc: Global) -> Result<Self, Memory> {
        let (first, more) = both(self.first.copy(alloc), copies_of(alloc, self.more.items()))?;
        Ok(With {
            place: self.place,
            first,
            more,
        })
    }
}

impl CopyTree for Def {
    fn copy(&self, alloc: Global) -> Result<Self, Memory> {
        let (name, union) = both(self.name.copy(), self.union.copy(alloc))?;
        Ok(Def {
            place: self.place,
            name,
            union,
        })
    }
}

impl CopyTree for Union {
    fn copy(&self, alloc: Global) -> Result<Self, Memory> {
        let (first, more) = both(self.first.copy(alloc), copies_of(alloc, self.more.items()))?;
        Ok(Union {
            place: self.place,
            first,
            more,
        })
    }
}

impl CopyTree for Stmt {
    fn copy(&self, alloc: Global) -> Result<Self, Memory> {
        let head = both(self.items.copy(alloc), self.output.copy());
        let rest = both(self.tail.copy(alloc), copies_of(alloc, self.more.items()));
        let ((items, output), (tail, more)) = both(head, rest)?;
        Ok(Stmt {
            place: self.place,
            items,
            output,
            tail,
            more,
        })
    }
}

impl CopyTree for MoreStmt {
    fn copy(&self, alloc: Global) -> Result<Self, Memory> {
        Ok(MoreStmt {
            place: self.place,
            semicolon: self.semicolon,
            stmt: self.stmt.copy(alloc)?,
        })
    }
}
