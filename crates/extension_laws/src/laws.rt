//! What stays well formed.

ghost use Rattle.std.specs.Prelude.{ℕ};
ghost use Rattle.extension_laws.specs.Parts.{HasSoundParts};
ghost use Rattle.input_book.specs.Laws.{IsWellFormed};
ghost use Rattle.input_extension.specs.Extension.{IsExtension};
ghost use Rattle.input_types.specs.declared.inputs.Inputs.{Inputs};

/// Inputs that go on from well-formed ones are well formed, where their segments and snapshots are
/// within the limits and in order of time: all else is as it was.
pub fn what_extends_is_well_formed()
    ensures { (old new : Inputs) (w : ℕ) → IsExtension old new w
        → IsWellFormed old → HasSoundParts new → IsWellFormed new }
{}

/// What well-formed inputs go on from is well formed.
pub fn what_is_extended_is_well_formed()
    ensures { (old new : Inputs) (w : ℕ) → IsExtension old new w
        → IsWellFormed new → IsWellFormed old }
{}
