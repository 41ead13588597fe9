//! Copies of what stands behind FROM and JOIN.

use crate::copy_tree::{CopyTree, copy_of_option};
use crate::parts::both;
use event_value::{Copies, Memory};
use query_tree::{Alias, Join, Over, Source, Stamp};
use std::alloc::Global;

impl CopyTree for Source {
    fn copy(&self, alloc: Global) -> Result<Self, Memory> {
        let alias = copy_of_option(alloc, &self.alias);
        let stamp = copy_of_option(alloc, &self.stamp);
        let (name, (alias, stamp)) = both(self.name.copy(), both(alias, stamp))?;
        Ok(Source {
            place: self.place,
            name,
            alias,
            stamp,
        })
    }
}

impl CopyTree for Alias {
    fn copy(&self, alloc: Global) -> Result<Self, Memory> {
        Ok(Alias {
            place: self.place,
            written: self.written,
            name: self.name.copy()?,
        })
    }
}

impl CopyTree for Stamp {
    fn copy(&self, alloc: Global) -> Result<Self, Memory> {
        let (expr, over) = both(self.expr.copy(alloc), copy_of_option(alloc, &self.over))?;
        Ok(Stamp {
            place: self.place,
            expr,
            over,
        })
    }
}

impl CopyTree for Over {
    fn copy(&self, alloc: Global) -> Result<Self, Memory> {
        let (first, more) = both(self.first.copy(), self.more.copy())?;
        Ok(Over {
            place: self.place,
            first,
            more,
        })
    }
}

impl CopyTree for Join {
    fn copy(&self, alloc: Global) -> Result<Self, Memory> {
        let (source, on) = both(self.source.copy(alloc), self.on.copy(alloc))?;
        Ok(Join {
            place: self.place,
            side: self.side,
            join_place: self.join_place,
            source,
            on,
        })
    }
}
