//! The words of selects, with their items, groups and conditions.

ghost use Rattle.std.specs.Prelude.{◌≡◌, OnOk};
ghost use Rattle.query_print.specs.Words.{with_words};
ghost use Rattle.query_print.specs.Scripts.{optional, where_words, item_words, items_words, partition_words, group_words, group_by_words, having_words, tail_words, select_words};

use crate::part::{Part, write_all, write_listed, write_optional};
use crate::writer::Writer;
use event_value::Memory;
use query_tokens::Symbol;
use query_tree::{Expr, Group, GroupBy, Having, Item, Partition, Select, SelectItems, Tail};

impl Part for Item {
    ghost words = { item_words };

    #[tactic(auto, using(crate::proofs::WrittenLemmas::with_words_append), unfolding(crate::specs::Scripts::item_words))]
    fn write(&self, out: &mut Writer) -> Result<(), Memory> {
        self.expr.write(out)?;
        write_optional(out, &self.alias)
    }
}

impl Part for SelectItems {
    ghost words = { items_words };

    #[tactic(auto, using(crate::proofs::WrittenLemmas::with_words_append), unfolding(crate::specs::Scripts::items_words))]
    fn write(&self, out: &mut Writer) -> Result<(), Memory> {
        match self {
            SelectItems::Star(_) => out.fixed(Symbol::Star),
            SelectItems::Listed(_, first, more) => write_listed(out, first, more.items()),
        }
    }
}

impl Part for Partition {
    ghost words = { partition_words };

    #[tactic(auto, using(crate::proofs::WrittenLemmas::with_words_append), unfolding(crate::specs::Scripts::partition_words))]
    fn write(&self, out: &mut Writer) -> Result<(), Memory> {
        out.fixed(Symbol::Over)?;
        out.fixed(Symbol::Open)?;
        out.fixed(Symbol::Partition)?;
        out.fixed(Symbol::By)?;
        write_listed(out, &self.first, self.more.items())?;
        out.fixed(Symbol::Close)
    }
}

impl Part for Group {
    ghost words = { group_words };

    #[tactic(auto, using(crate::proofs::WrittenLemmas::with_words_append), unfolding(crate::specs::Scripts::group_words))]
    fn write(&self, out: &mut Writer) -> Result<(), Memory> {
        self.expr.write(out)?;
        write_optional(out, &self.partition)
    }
}

impl Part for GroupBy {
    ghost words = { group_by_words };

    #[tactic(auto, using(crate::proofs::WrittenLemmas::with_words_append), unfolding(crate::specs::Scripts::group_by_words))]
    fn write(&self, out: &mut Writer) -> Result<(), Memory> {
        out.fixed(Symbol::Group)?;
        out.fixed(Symbol::By)?;
        write_listed(out, &self.first, self.more.items())
    }
}

impl Part for Having {
    ghost words = { having_words };

    #[tactic(auto, using(crate::proofs::WrittenLemmas::with_words_append), unfolding(crate::specs::Scripts::having_words))]
    fn write(&self, out: &mut Writer) -> Result<(), Memory> {
        out.fixed(Symbol::Having)?;
        self.condition.write(out)
    }
}

impl Part for Tail {
    ghost words = { tail_words };

    #[tactic(auto, using(crate::proofs::WrittenLemmas::with_words_append), unfolding(crate::specs::Scripts::tail_words))]
    fn write(&self, out: &mut Writer) -> Result<(), Memory> {
        out.fixed(Symbol::From)?;
        self.source.write(out)?;
        write_all(out, self.joins.items())?;
        write_where(out, &self.condition)?;
        write_optional(out, &self.groups)?;
        write_optional(out, &self.having)
    }
}

fn write_where(out: &mut Writer, condition: &Option<Expr>) -> Result<(), Memory>
    ensures { OnOk result (out.new ≡ with_words out.old (optional where_words condition.now)) }
{
    match condition {
        None => Ok(()),
        Some(condition) => {
            out.fixed(Symbol::Where)?;
            condition.write(out)
        }
    }
}

impl Part for Select {
    ghost words = { select_words };

    #[tactic(auto, using(crate::proofs::WrittenLemmas::with_words_append), unfolding(crate::specs::Scripts::select_words))]
    fn write(&self, out: &mut Writer) -> Result<(), Memory> {
        out.fixed(Symbol::Select)?;
        self.items.write(out)?;
        self.tail.write(out)
    }
}
