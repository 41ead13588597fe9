//! `Writer`, a text of words that grows at its end.

ghost use Rattle.std.specs.Prelude.{◌≡◌, OnOk};
ghost use Rattle.query_print.specs.Words.{Fixed, Named, Numbered, Quoted, nothing_written, with_word, with_words};
ghost use Rattle.query_print.specs.Expressions.{flag};

use crate::behind::{Behind, behind_fixed, behind_name, is_tight_behind, is_tight_fixed};
use crate::written::{push_name, push_number, push_quoted, push_space_unless};
use event_value::{Memory, Text};
use query_tokens::{Symbol, fixed_text};
use query_tree::Number;
use std::alloc::Global;
use std::marker::Model;

/// A text of words, and what the last ones are to the next. Contracts see it as these two.
#[derive(Drop)]
pub struct Writer {
    text: Text,
    last: Behind,
}

impl Model for Writer {
    ghost use Rattle.query_print.specs.Words.{Written};

    ghost Value = { Written };

    ghost view = { λ w. record { bytes = w.text; last = w.last } };
}

impl Writer {
    /// A text with no words. It takes no memory.
    pub fn new(alloc: Global) -> Self
        ensures { result ≡ nothing_written }
    {
        Writer {
            text: Text::empty(alloc),
            last: Behind::Start,
        }
    }

    /// The text. It takes no memory.
    pub fn into_text(self) -> Text
        ensures { result ≡ self.bytes }
    {
        self.text
    }

    /// Adds a keyword or a sign.
    #[tactic(auto, unfolding(crate::specs::Words::with_word))]
    pub fn fixed(&mut self, symbol: Symbol) -> Result<(), Memory>
        ensures { OnOk result (self.new ≡ with_word self.old (Fixed symbol)) }
    {
        push_space_unless(&mut self.text, is_tight_fixed(self.last, symbol))?;
        self.text.extend(fixed_text(symbol))?;
        self.last = behind_fixed(self.last, symbol);
        Ok(())
    }

    /// Adds a keyword or a sign, where it is written.
    pub fn flag(&mut self, symbol: Symbol, written: bool) -> Result<(), Memory>
        ensures { OnOk result (self.new ≡ with_words self.old (flag symbol written)) }
    {
        if written { self.fixed(symbol) } else { Ok(()) }
    }

    /// Adds a name.
    #[tactic(auto, unfolding(crate::specs::Words::with_word))]
    pub fn name(&mut self, name: &[u8]) -> Result<(), Memory>
        ensures { OnOk result (self.new ≡ with_word self.old (Named name.now)) }
    {
        push_space_unless(&mut self.text, is_tight_behind(self.last))?;
        push_name(&mut self.text, self.last, name)?;
        self.last = behind_name(name);
        Ok(())
    }

    /// Adds a number.
    #[tactic(auto, unfolding(crate::specs::Words::with_word))]
    pub fn number(&mut self, number: Number) -> Result<(), Memory>
        ensures { OnOk result (self.new ≡ with_word self.old (Numbered number)) }
    {
        push_space_unless(&mut self.text, is_tight_behind(self.last))?;
        push_number(&mut self.text, number)?;
        self.last = Behind::Other;
        Ok(())
    }

    /// Adds a text.
    #[tactic(auto, unfolding(crate::specs::Words::with_word))]
    pub fn quoted(&mut self, text: &[u8]) -> Result<(), Memory>
        ensures { OnOk result (self.new ≡ with_word self.old (Quoted text.now)) }
    {
        push_space_unless(&mut self.text, is_tight_behind(self.last))?;
        push_quoted(&mut self.text, text)?;
        self.last = Behind::Other;
        Ok(())
    }
}
