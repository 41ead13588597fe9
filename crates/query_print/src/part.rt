//! `Part`, a part of a query that can be written, and lists of such parts.

ghost use Rattle.std.specs.Prelude.{◌≡◌, List, map, OnOk};
ghost use Rattle.query_print.specs.Words.{Word, with_words};
ghost use Rattle.query_print.specs.Expressions.{each_behind, all_words, path_words, expr_words};
ghost use Rattle.query_print.specs.Scripts.{optional, listed};
ghost use Rattle.query_tokens.specs.declared.symbol.Symbol.TheVariants as symbol;

use crate::expressions::write_expr;
use crate::names::write_path;
use crate::writer::Writer;
use event_value::Memory;
use query_tokens::Symbol;
use query_tree::{Expr, Path};

/// A part of a query that can be written.
pub trait Part {
    /// Its words.
    ghost words: { Self → List Word };

    /// Adds its words.
    fn write(&self, out: &mut Writer) -> Result<(), Memory>
        ensures { OnOk result (out.new ≡ with_words out.old (words self.now)) };
}

impl Part for Expr {
    ghost words = { expr_words };

    fn write(&self, out: &mut Writer) -> Result<(), Memory> {
        write_expr(out, self)
    }
}

impl Part for Path {
    ghost words = { path_words };

    fn write(&self, out: &mut Writer) -> Result<(), Memory> {
        write_path(out, self)
    }
}

/// Adds a part, where there is one.
pub fn write_optional<P: Part>(out: &mut Writer, part: &Option<P>) -> Result<(), Memory>
    ensures { OnOk result (out.new ≡ with_words out.old (optional P.words part.now)) }
{
    match part {
        None => Ok(()),
        Some(part) => part.write(out),
    }
}

/// Adds parts.
#[tactic(auto, using(crate::proofs::WrittenLemmas::all_words_written), unfolding(crate::specs::Writing::all_written))]
pub fn write_all<P: Part>(out: &mut Writer, parts: &[P]) -> Result<(), Memory>
    ensures { OnOk result (out.new ≡ with_words out.old (all_words (map P.words parts.now))) }
{
    for part in parts {
        part.write(out)?;
    }
    Ok(())
}

/// Adds parts, each behind a keyword or a sign.
#[tactic(auto, using(crate::proofs::WrittenLemmas::each_behind_written), unfolding(crate::specs::Writing::each_written))]
pub fn write_each_behind<P: Part>(out: &mut Writer, sign: Symbol, parts: &[P]) -> Result<(), Memory>
    ensures { OnOk result (
        out.new ≡ with_words out.old (each_behind sign (map P.words parts.now))) }
{
    for part in parts {
        out.fixed(sign)?;
        part.write(out)?;
    }
    Ok(())
}

/// Adds parts with commas.
#[tactic(auto, using(crate::proofs::WrittenLemmas::with_words_append))]
pub fn write_listed<P: Part>(out: &mut Writer, first: &P, more: &[P]) -> Result<(), Memory>
    ensures { OnOk result (out.new ≡ with_words out.old (listed P.words first.now more.now)) }
{
    first.write(out)?;
    write_each_behind(out, Symbol::Comma, more)
}
