//! `parse`, the tree of a query's text.

ghost use Rattle.std.specs.Prelude.{◌≡◌, ◌⊎◌, Ok, Err, Result, IfOk, IfErr};
ghost use Rattle.query_tokens.specs.declared.parse_err.ParseErr.{ParseErr};
ghost use Rattle.query_tokens.specs.Tokens.{IsRefusal};
ghost use Rattle.query_tree.specs.declared.script.Script.{Script};
ghost use Rattle.query_grammar.specs.Queries.{IsScript, IsDue, IsRefusedBy, query_limits};
ghost use Rattle.query_grammar.specs.Reading.{answer_of, answer_by, error_at, read_script};

use crate::statements::script;
use grammar_rules::Stop;
use query_cursor::Parser;
use query_tokens::{Lexeme, ParseErr, lexemes, tokens};
use query_tree::Script;
use std::alloc::Global;

/// The tree of a query's text.
///
/// # Errors
/// The one that is due for the text; `Memory`.
pub fn parse(alloc: Global, text: &[u8]) -> Result<Script, ParseErr>
    ensures ok { IfOk result (IsScript text.now) }
    ensures err { IfErr result (λ error. (error ≡ ParseErr.Memory) ⊎ IsRefusedBy text.now error) }

    // No other answer than the one that is due, but for want of memory.
    ensures only { (due : Result Script ParseErr) → IsDue text.now due
        → (result ≡ due) ⊎ (result ≡ Err ParseErr.Memory) }
{
    let parsed = read_text(alloc, text);
    parsed
}

fn read_text(alloc: Global, text: &[u8]) -> Result<Script, ParseErr>
    ensures ok { IfOk result (λ script. answer_of text.now ≡ Ok script) }
    ensures err { IfErr result (IsRefusal (answer_of text.now)) }
{
    let tokens = tokens(alloc, text)?;
    let lexemes = lexemes(alloc, text, tokens.items())?;
    read_lexemes(alloc, lexemes.items())
}

fn read_lexemes(alloc: Global, lexemes: &[Lexeme<'_>]) -> Result<Script, ParseErr>
    ensures ok { IfOk result
        (λ script. answer_by (read_script query_limits lexemes.now) ≡ Ok script) }
    ensures err { IfErr result (IsRefusal (answer_by (read_script query_limits lexemes.now))) }
{
    let mut parser = Parser::of(alloc, lexemes);
    match script(&mut parser) {
        Ok(script) => Ok(script.into_inner()),
        Err(stop) => Err(error_at(stop, parser.place())),
    }
}

fn error_at(stop: Stop, place: u32) -> ParseErr
    ensures { result ≡ error_at stop place }
{
    match stop {
        Stop::Expected => ParseErr::Expected(place),
        Stop::Deep => ParseErr::Deep(place),
        Stop::Memory => ParseErr::Memory,
    }
}
