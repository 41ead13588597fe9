//! The words of the command line, read by hand.

ghost use Rattle.std.specs.Prelude.{◌≡◌, Some, None, MatchOption};
ghost use Rattle.jobs_top.specs.Words.{action_of, command_of};
ghost use Rattle.jobs_top.specs.WordsView.{command_in};

use event_value::Text;

/// What is done with the documents of a command.
#[derive(Clone, Copy, PartialEq, Eq)]
pub enum Action {
    /// The query's rows and the dropped records are printed.
    Preview,
    /// The query is printed in its canonical text.
    Check,
}

/// A command, and the names of the files of its documents.
#[derive(Clone, Copy)]
pub struct CommandWords<'a> {
    /// What is done.
    pub action: Action,
    /// The file of the query.
    pub query: &'a [u8],
    /// The file of the inputs document.
    pub inputs: &'a [u8],
}

/// Reads the words `- preview QUERY INPUTS` or `- check QUERY INPUTS`; `None` for any others.
pub fn command_words(words: &[Text]) -> Option<CommandWords<'_>>
    ensures { MatchOption result (command_of words.now ≡ None)
        (λ command. command_of words.now ≡ Some (command_in command)) }
{
    match words {
        [store, word, query, inputs] => {
            if store.items() != b"-".as_slice() {
                return None;
            }
            let action = action_of(word.items())?;
            Some(CommandWords {
                action,
                query: query.items(),
                inputs: inputs.items(),
            })
        }
        _ => None,
    }
}

fn action_of(word: &[u8]) -> Option<Action>
    ensures { result ≡ action_of word.now }
{
    if word == b"preview".as_slice() {
        Some(Action::Preview)
    } else if word == b"check".as_slice() {
        Some(Action::Check)
    } else {
        None
    }
}
