//! Names, paths and types, a method for each line of the grammar.

ghost use Rattle.std.specs.Prelude.{◌≡◌, Ok, IfOk, IfErr};
ghost use Rattle.grammar_rules.specs.Readers.{IsStop, read_perhaps};
ghost use Rattle.query_tokens.specs.declared.symbol.Symbol.TheVariants as symbol;
ghost use Rattle.query_grammar.specs.Lists.{one};
ghost use Rattle.query_grammar.specs.Reading.{read_name, read_name_part, read_second_name, read_path, read_next, read_others, read_type_size, read_type_name, read_cast_type};

use crate::cursor::Parser;
use crate::leaves::name_of;
use event_value::Seq;
use grammar_rules::Stop;
use query_tokens::Symbol;
use query_tree::{Name, Path, TypeName};

impl<'t, 'l> Parser<'t, 'l> {
    #[tactic(auto, unfolding(query_grammar::specs::Reading::read_name))]
    pub fn name(&mut self) -> Result<Name, Stop>
        ensures ok { IfOk result (λ name. read_name self.old ≡ Ok (name, self.new)) }
        ensures err { IfErr result (IsStop (read_name self.old) self.new) }
    {
        let lexeme = self.take(&[Symbol::Word, Symbol::Bracketed])?;
        Ok(name_of(self.alloc(), lexeme)?)
    }

    #[tactic(auto, unfolding(query_grammar::specs::Reading::read_name_part))]
    fn name_part(&mut self) -> Result<Name, Stop>
        ensures ok { IfOk result (λ name. read_name_part self.old ≡ Ok (name, self.new)) }
        ensures err { IfErr result (IsStop (read_name_part self.old) self.new) }
    {
        let lexeme = self.take(&[Symbol::Word, Symbol::Bracketed, Symbol::Stamp])?;
        Ok(name_of(self.alloc(), lexeme)?)
    }

    #[tactic(auto, unfolding(query_grammar::specs::Reading::read_second_name))]
    fn second_name(&mut self) -> Result<Name, Stop>
        ensures ok { IfOk result (λ name. read_second_name self.old ≡ Ok (name, self.new)) }
        ensures err { IfErr result (IsStop (read_second_name self.old) self.new) }
    {
        self.expect(Symbol::Point)?;
        self.name_part()
    }

    fn perhaps_second_name(&mut self) -> Result<Option<Name>, Stop>
        ensures ok { IfOk result
            (λ name. read_perhaps (one symbol.Point) read_second_name self.old ≡ Ok (name, self.new)) }
        ensures err { IfErr result (IsStop (read_perhaps (one symbol.Point) read_second_name self.old) self.new) }
    {
        if self.is(Symbol::Point) {
            Ok(Some(self.second_name()?))
        } else {
            Ok(None)
        }
    }

    #[tactic(auto, unfolding(query_grammar::specs::Reading::read_path))]
    pub fn path(&mut self) -> Result<Path, Stop>
        ensures ok { IfOk result (λ path. read_path self.old ≡ Ok (path, self.new)) }
        ensures err { IfErr result (IsStop (read_path self.old) self.new) }
    {
        let first = self.name()?;
        let second = self.perhaps_second_name()?;
        Ok(Path {
            place: first.place,
            first,
            second,
        })
    }

    /// `{"," path}`
    pub fn more_paths(&mut self) -> Result<Seq<Path>, Stop>
        ensures ok { IfOk result (λ more. read_others read_path self.old ≡ Ok (more, self.new)) }
        ensures err { IfErr result (IsStop (read_others read_path self.old) self.new) }
    {
        let mut more = Seq::empty(self.alloc());
        'paths: while self.is(Symbol::Comma) {
            more.push(self.next_path()?)?;
        }
        Ok(more)
    }

    fn next_path(&mut self) -> Result<Path, Stop>
        ensures ok { IfOk result (λ path. read_next read_path self.old ≡ Ok (path, self.new)) }
        ensures err { IfErr result (IsStop (read_next read_path self.old) self.new) }
    {
        self.expect(Symbol::Comma)?;
        self.path()
    }

    /// `"(" word ")"`
    #[tactic(auto, unfolding(query_grammar::specs::Reading::read_type_size))]
    fn type_size(&mut self, left: u32) -> Result<Name, Stop>
        ensures ok { IfOk result (λ size. read_type_size left self.old ≡ Ok (size, self.new)) }
        ensures err { IfErr result (IsStop (read_type_size left self.old) self.new) }
    {
        self.open(Symbol::Open, left)?;
        let word = self.expect(Symbol::Word)?;
        self.expect(Symbol::Close)?;
        Ok(name_of(self.alloc(), word)?)
    }

    fn perhaps_type_size(&mut self, left: u32) -> Result<Option<Name>, Stop>
        ensures ok { IfOk result (λ size. read_perhaps (one symbol.Open) (read_type_size left) self.old ≡ Ok (size, self.new)) }
        ensures err { IfErr result (IsStop (read_perhaps (one symbol.Open) (read_type_size left) self.old) self.new) }
    {
        if self.is(Symbol::Open) {
            Ok(Some(self.type_size(left)?))
        } else {
            Ok(None)
        }
    }

    /// `word ["(" word ")"]`
    #[tactic(auto, unfolding(query_grammar::specs::Reading::read_type_name))]
    fn type_name(&mut self, left: u32) -> Result<TypeName, Stop>
        ensures ok { IfOk result (λ kind. read_type_name left self.old ≡ Ok (kind, self.new)) }
        ensures err { IfErr result (IsStop (read_type_name left self.old) self.new) }
    {
        let lexeme = self.expect(Symbol::Word)?;
        let word = name_of(self.alloc(), lexeme)?;
        let size = self.perhaps_type_size(left)?;
        Ok(TypeName {
            place: word.place,
            word,
            size,
        })
    }

    /// `AS type ")"`
    #[tactic(auto, unfolding(query_grammar::specs::Reading::read_cast_type))]
    pub fn cast_type(&mut self, left: u32) -> Result<TypeName, Stop>
        ensures ok { IfOk result (λ kind. read_cast_type left self.old ≡ Ok (kind, self.new)) }
        ensures err { IfErr result (IsStop (read_cast_type left self.old) self.new) }
    {
        self.expect(Symbol::As)?;
        let kind = self.type_name(left)?;
        self.expect(Symbol::Close)?;
        Ok(kind)
    }
}
