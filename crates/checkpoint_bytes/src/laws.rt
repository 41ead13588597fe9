//! The law of the bytes of batches.

ghost use Rattle.checkpoint_bytes.specs.Batches.{SpellsOneBatch};

/// No bytes are two batches'.
pub fn bytes_spell_one_batch()
    ensures { SpellsOneBatch }
{}
