//! What holds of every extension, and of every refusal.

ghost use Rattle.std.specs.Prelude.{ℕ};
ghost use Rattle.input_extension.specs.Extension.{IsExtension};
ghost use Rattle.input_extension.specs.Laws.{IsExact, IsPreorder, KeepsLanes, KeepsSources};
ghost use Rattle.input_types.specs.declared.inputs.Inputs.{Inputs};

/// Inputs go on from themselves, and from what those go on from that they go on from.
pub fn extension_is_a_preorder()
    ensures { IsPreorder }
{}

/// Where a refusal is due, the new inputs don't go on from the old ones, and no other is due.
pub fn refusals_are_exact()
    ensures { (old new : Inputs) (w : ℕ) → IsExact old new w }
{}

/// The lanes stay, and a position in one of them names the segment that it named.
pub fn extension_keeps_lanes()
    ensures { (old new : Inputs) (w : ℕ) → IsExtension old new w → KeepsLanes old new }
{}

/// What queries and policies rest on stays: names, formats, columns, and the order of sources.
pub fn extension_keeps_sources()
    ensures { (old new : Inputs) (w : ℕ) → IsExtension old new w → KeepsSources old new }
{}
