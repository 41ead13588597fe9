//! What holds of every accepted document.

ghost use Rattle.input_book.specs.Inputs.{IsAccepted};
ghost use Rattle.input_book.specs.Laws.{IsWellFormed};
ghost use Rattle.input_types.specs.declared.inputs.Inputs.{Inputs};

/// The inputs of an accepted document keep every limit and range; no two of its streams and no two
/// columns of a stream have one name, and the segments of a partition never fall in time.
pub fn accepted_inputs_are_well_formed()
    ensures { (inputs : Inputs) → IsAccepted inputs → IsWellFormed inputs }
{}
