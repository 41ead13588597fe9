//! The words of whole queries and of their statements.

ghost use Rattle.query_print.specs.Scripts.{union_words, def_words, defs_words, stmt_words, more_words, script_words};

use crate::part::{Part, write_all, write_each_behind, write_listed, write_optional};
use crate::writer::Writer;
use event_value::Memory;
use query_tokens::Symbol;
use query_tree::{Def, MoreStmt, Script, Stmt, Union, With};

impl Part for Union {
    ghost words = { union_words };

    #[tactic(auto, using(crate::proofs::WrittenLemmas::with_words_append), unfolding(crate::specs::Scripts::union_words))]
    fn write(&self, out: &mut Writer) -> Result<(), Memory> {
        self.first.write(out)?;
        write_each_behind(out, Symbol::Union, self.more.items())
    }
}

impl Part for Def {
    ghost words = { def_words };

    #[tactic(auto, using(crate::proofs::WrittenLemmas::with_words_append), unfolding(crate::specs::Scripts::def_words))]
    fn write(&self, out: &mut Writer) -> Result<(), Memory> {
        out.name(self.name.text.items())?;
        out.fixed(Symbol::As)?;
        out.fixed(Symbol::Open)?;
        self.union.write(out)?;
        out.fixed(Symbol::Close)
    }
}

impl Part for With {
    ghost words = { defs_words };

    #[tactic(auto, using(crate::proofs::WrittenLemmas::with_words_append), unfolding(crate::specs::Scripts::defs_words))]
    fn write(&self, out: &mut Writer) -> Result<(), Memory> {
        out.fixed(Symbol::With)?;
        write_listed(out, &self.first, self.more.items())
    }
}

impl Part for Stmt {
    ghost words = { stmt_words };

    #[tactic(auto, using(crate::proofs::WrittenLemmas::with_words_append), unfolding(crate::specs::Scripts::stmt_words))]
    fn write(&self, out: &mut Writer) -> Result<(), Memory> {
        out.fixed(Symbol::Select)?;
        self.items.write(out)?;
        out.fixed(Symbol::Into)?;
        out.name(self.output.text.items())?;
        self.tail.write(out)?;
        write_each_behind(out, Symbol::Union, self.more.items())
    }
}

impl Part for MoreStmt {
    ghost words = { more_words };

    #[tactic(auto, using(crate::proofs::WrittenLemmas::with_words_append), unfolding(crate::specs::Scripts::more_words))]
    fn write(&self, out: &mut Writer) -> Result<(), Memory> {
        out.flag(Symbol::Semicolon, self.semicolon)?;
        self.stmt.write(out)
    }
}

impl Part for Script {
    ghost words = { script_words };

    #[tactic(auto, using(crate::proofs::WrittenLemmas::with_words_append), unfolding(crate::specs::Scripts::script_words))]
    fn write(&self, out: &mut Writer) -> Result<(), Memory> {
        write_optional(out, &self.with)?;
        self.first.write(out)?;
        write_all(out, self.more.items())?;
        out.flag(Symbol::Semicolon, self.semicolon)
    }
}
