//! Names, and what is made of names alone.

ghost use Rattle.std.specs.Prelude.{◌≡◌, OnOk};
ghost use Rattle.query_print.specs.Words.{with_words};
ghost use Rattle.query_print.specs.Expressions.{path_words, second_name, type_words, type_size};

use crate::writer::Writer;
use event_value::Memory;
use query_tokens::Symbol;
use query_tree::{Name, Path, TypeName};

pub fn write_path(out: &mut Writer, path: &Path) -> Result<(), Memory>
    ensures { OnOk result (out.new ≡ with_words out.old (path_words path.now)) }
{
    out.name(path.first.text.items())?;
    write_second_name(out, &path.second)
}

fn write_second_name(out: &mut Writer, name: &Option<Name>) -> Result<(), Memory>
    ensures { OnOk result (out.new ≡ with_words out.old (second_name name.now)) }
{
    match name {
        None => Ok(()),
        Some(name) => {
            out.fixed(Symbol::Point)?;
            out.name(name.text.items())
        }
    }
}

pub fn write_type(out: &mut Writer, kind: &TypeName) -> Result<(), Memory>
    ensures { OnOk result (out.new ≡ with_words out.old (type_words kind.now)) }
{
    out.name(kind.word.text.items())?;
    write_type_size(out, &kind.size)
}

fn write_type_size(out: &mut Writer, size: &Option<Name>) -> Result<(), Memory>
    ensures { OnOk result (out.new ≡ with_words out.old (type_size size.now)) }
{
    match size {
        None => Ok(()),
        Some(size) => {
            out.fixed(Symbol::Open)?;
            out.name(size.text.items())?;
            out.fixed(Symbol::Close)
        }
    }
}
