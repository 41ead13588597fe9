//! The law of the canonical text.

ghost use Rattle.std.specs.Prelude.{ℕ, List};
ghost use Rattle.query_tree.specs.declared.script.Script.{Script};
ghost use Rattle.query_round_trip.specs.Rereading.{IsReadAgain};

/// Where the canonical text of a text's tree has at most 65,536 bytes, it is a query, and its tree
/// is that tree but for the places.
pub fn canonical_text_is_read_again()
    ensures { (text : List ℕ) (script : Script) → IsReadAgain text script }
{}
