//! Copies of selects, with their items, groups and conditions.

use crate::copy_tree::{CopyTree, copies_of, copy_of_option};
use crate::parts::both;
use event_value::{Copies, Memory};
use query_tree::{Group, GroupBy, Having, Item, Partition, Select, SelectItems, Tail};
use std::alloc::Global;

impl CopyTree for Select {
    fn copy(&self, alloc: Global) -> Result<Self, Memory> {
        let (items, tail) = both(self.items.copy(alloc), self.tail.copy(alloc))?;
        Ok(Select {
            place: self.place,
            items,
            tail,
        })
    }
}

impl CopyTree for SelectItems {
    fn copy(&self, alloc: Global) -> Result<Self, Memory> {
        match self {
            SelectItems::Star(place) => Ok(SelectItems::Star(*place)),
            SelectItems::Listed(place, first, more) => {
                let (first, more) = both(first.copy(alloc), copies_of(alloc, more.items()))?;
                Ok(SelectItems::Listed(*place, first, more))
            }
        }
    }
}

impl CopyTree for Item {
    fn copy(&self, alloc: Global) -> Result<Self, Memory> {
        let (expr, alias) = both(self.expr.copy(alloc), copy_of_option(alloc, &self.alias))?;
        Ok(Item {
            place: self.place,
            expr,
            alias,
        })
    }
}

impl CopyTree for Tail {
    fn copy(&self, alloc: Global) -> Result<Self, Memory> {
        let sources = both(
            self.source.copy(alloc),
            copies_of(alloc, self.joins.items()),
        );
        let condition = copy_of_option(alloc, &self.condition);
        let groups = copy_of_option(alloc, &self.groups);
        let groups = both(groups, copy_of_option(alloc, &self.having));
        let ((source, joins), (condition, (groups, having))) = both(
            sources,
            both(condition, groups),
        )?;
        Ok(Tail {
            place: self.place,
            source,
            joins,
            condition,
            groups,
            having,
        })
    }
}

impl CopyTree for GroupBy {
    fn copy(&self, alloc: Global) -> Result<Self, Memory> {
        let (first, more) = both(self.first.copy(alloc), copies_of(alloc, self.more.items()))?;
        Ok(GroupBy {
            place: self.place,
            first,
            more,
        })
    }
}

impl CopyTree for Group {
    fn copy(&self, alloc: Global) -> Result<Self, Memory> {
        let partition = copy_of_option(alloc, &self.partition);
        let (expr, partition) = both(self.expr.copy(alloc), partition)?;
        Ok(Group {
            place: self.place,
            expr,
            partition,
        })
    }
}

impl CopyTree for Partition {
    fn copy(&self, alloc: Global) -> Result<Self, Memory> {
        let (first, more) = both(self.first.copy(), self.more.copy())?;
        Ok(Partition {
            place: self.place,
            first,
            more,
        })
    }
}

impl CopyTree for Having {
    fn copy(&self, alloc: Global) -> Result<Self, Memory> {
        Ok(Having {
            place: self.place,
            condition: self.condition.copy(alloc)?,
        })
    }
}
