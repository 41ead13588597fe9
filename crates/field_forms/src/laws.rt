//! The law of every form.

ghost use Rattle.field_forms.specs.Spellings.{SpellsOnce};

use crate::FormOf;

/// No bytes spell two values, no value has two spellings, and no spelling begins with another's.
pub fn bytes_spell_one_value<V, F: FormOf<V>>()
    ensures { SpellsOnce F.form }
{}
