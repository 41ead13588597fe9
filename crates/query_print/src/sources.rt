//! The words of what stands behind FROM and JOIN.

ghost use Rattle.query_print.specs.Scripts.{alias_words, over_words, stamp_words, source_words, side_words, join_words};

use crate::part::{Part, write_listed, write_optional};
use crate::writer::Writer;
use event_value::Memory;
use query_tokens::Symbol;
use query_tree::{Alias, Join, Over, Side, Source, Stamp};

impl Part for Alias {
    ghost words = { alias_words };

    #[tactic(auto, using(crate::proofs::WrittenLemmas::with_words_append), unfolding(crate::specs::Scripts::alias_words))]
    fn write(&self, out: &mut Writer) -> Result<(), Memory> {
        out.flag(Symbol::As, self.written)?;
        out.name(self.name.text.items())
    }
}

impl Part for Over {
    ghost words = { over_words };

    #[tactic(auto, using(crate::proofs::WrittenLemmas::with_words_append), unfolding(crate::specs::Scripts::over_words))]
    fn write(&self, out: &mut Writer) -> Result<(), Memory> {
        out.fixed(Symbol::Over)?;
        write_listed(out, &self.first, self.more.items())
    }
}

impl Part for Stamp {
    ghost words = { stamp_words };

    #[tactic(auto, using(crate::proofs::WrittenLemmas::with_words_append), unfolding(crate::specs::Scripts::stamp_words))]
    fn write(&self, out: &mut Writer) -> Result<(), Memory> {
        out.fixed(Symbol::Timestamp)?;
        out.fixed(Symbol::By)?;
        self.expr.write(out)?;
        write_optional(out, &self.over)
    }
}

impl Part for Source {
    ghost words = { source_words };

    #[tactic(auto, using(crate::proofs::WrittenLemmas::with_words_append), unfolding(crate::specs::Scripts::source_words))]
    fn write(&self, out: &mut Writer) -> Result<(), Memory> {
        out.name(self.name.text.items())?;
        write_optional(out, &self.alias)?;
        write_optional(out, &self.stamp)
    }
}

impl Part for Side {
    ghost words = { side_words };

    #[tactic(auto, using(crate::proofs::WrittenLemmas::with_words_append), unfolding(crate::specs::Scripts::side_words))]
    fn write(&self, out: &mut Writer) -> Result<(), Memory> {
        match self {
            Side::Inner(_) => out.fixed(Symbol::Inner),
            Side::Left(_, outer) => {
                out.fixed(Symbol::Left)?;
                out.flag(Symbol::Outer, *outer)
            }
        }
    }
}

impl Part for Join {
    ghost words = { join_words };

    #[tactic(auto, using(crate::proofs::WrittenLemmas::with_words_append), unfolding(crate::specs::Scripts::join_words))]
    fn write(&self, out: &mut Writer) -> Result<(), Memory> {
        write_optional(out, &self.side)?;
        out.fixed(Symbol::Join)?;
        self.source.write(out)?;
        out.fixed(Symbol::On)?;
        self.on.write(out)
    }
}
