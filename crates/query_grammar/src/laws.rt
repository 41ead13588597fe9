//! The laws of the answers that are due.

ghost use Rattle.std.specs.Prelude.{◌≡◌, ℕ, List, Result};
ghost use Rattle.query_tokens.specs.declared.parse_err.ParseErr.{ParseErr};
ghost use Rattle.query_tree.specs.declared.script.Script.{Script};
ghost use Rattle.query_grammar.specs.Queries.{IsDue};

/// For each text an answer is due: its tree, or its refusal.
pub fn each_text_has_an_answer()
    ensures { (text : List ℕ) → (due : Result Script ParseErr) × IsDue text due }
{}

/// For no text two answers are due: it has at most one tree, or one refusal at one place.
pub fn no_text_has_two_answers()
    ensures { (text : List ℕ) (a b : Result Script ParseErr) → IsDue text a → IsDue text b → a ≡ b }
{}
