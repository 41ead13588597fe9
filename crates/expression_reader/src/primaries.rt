//! Numbers, texts, columns, calls and parentheses, a method for each line of the grammar.

ghost use Rattle.std.specs.Prelude.{◌≡◌, ◌<◌, Ok, IfOk, IfErr};
ghost use Rattle.grammar_rules.specs.Readers.{IsStop, read_perhaps};
ghost use Rattle.query_tokens.specs.declared.symbol.Symbol.TheVariants as symbol;
ghost use Rattle.query_grammar.specs.Lists.{one};
ghost use Rattle.query_grammar.specs.Reading.{readers, args_symbols, read_next, read_others, read_primary, read_number, read_text, read_null, read_column_or_call, read_call_args, read_arguments, read_nested};

use crate::cases::{case, cast};
use crate::expressions::{expr, inner_expr};
use grammar_rules::{Stop, read_or_stop};
use query_cursor::{Parser, number_of, text_content};
use query_tokens::Symbol;
use query_tree::{Args, Call, Expr, Primary};
use sqlite_items::Items;

/// `number | text | NULL | column | call | case | "(" expr ")"`
#[cycle(reading)]
#[tactic(auto, unfolding(query_grammar::specs::Reading::read_primary))]
pub fn primary(parser: &mut Parser<'_, '_>, left: u32) -> Result<Primary, Stop>
    ensures ok { IfOk result
        (λ primary. read_primary (readers left) parser.old ≡ Ok (primary, parser.new)) }
    ensures err { IfErr result (IsStop (read_primary (readers left) parser.old) parser.new) }
{
    if parser.is(Symbol::Number) {
        number(parser)
    } else if parser.is(Symbol::Text) {
        text(parser)
    } else if parser.is(Symbol::Null) {
        null(parser)
    } else if parser.begins_name() {
        column_or_call(parser, left)
    } else if parser.begins_cast() {
        cast(parser, left)
    } else if parser.is(Symbol::Case) {
        case(parser, left)
    } else {
        nested(parser, left)
    }
}

#[tactic(auto, unfolding(query_grammar::specs::Reading::read_number))]
pub fn number(parser: &mut Parser<'_, '_>) -> Result<Primary, Stop>
    ensures ok { IfOk result (λ primary. read_number parser.old ≡ Ok (primary, parser.new)) }
    ensures err { IfErr result (IsStop (read_number parser.old) parser.new) }
{
    let lexeme = read_or_stop!(parser.expect(Symbol::Number));
    Ok(Primary::Number(lexeme.place(), number_of(lexeme.bytes())))
}

#[tactic(auto, unfolding(query_grammar::specs::Reading::read_text))]
pub fn text(parser: &mut Parser<'_, '_>) -> Result<Primary, Stop>
    ensures ok { IfOk result (λ primary. read_text parser.old ≡ Ok (primary, parser.new)) }
    ensures err { IfErr result (IsStop (read_text parser.old) parser.new) }
{
    let lexeme = read_or_stop!(parser.expect(Symbol::Text));
    match text_content(parser.alloc(), lexeme.bytes()) {
        Ok(text) => Ok(Primary::Text(lexeme.place(), text)),
        Err(_) => Err(Stop::Memory),
    }
}

#[tactic(auto, unfolding(query_grammar::specs::Reading::read_null))]
pub fn null(parser: &mut Parser<'_, '_>) -> Result<Primary, Stop>
    ensures ok { IfOk result (λ primary. read_null parser.old ≡ Ok (primary, parser.new)) }
    ensures err { IfErr result (IsStop (read_null parser.old) parser.new) }
{
    let lexeme = read_or_stop!(parser.expect(Symbol::Null));
    Ok(Primary::Null(lexeme.place()))
}

/// `column | path "(" [args] ")"`
#[cycle(reading)]
#[tactic(auto, unfolding(query_grammar::specs::Reading::read_column_or_call))]
pub fn column_or_call(parser: &mut Parser<'_, '_>, left: u32) -> Result<Primary, Stop>
    ensures ok { IfOk result
        (λ primary. read_column_or_call (readers left) parser.old ≡ Ok (primary, parser.new)) }
    ensures err { IfErr result (IsStop (read_column_or_call (readers left) parser.old) parser.new) }
{
    let path = read_or_stop!(parser.path());
    if parser.is(Symbol::Open) {
        let args = read_or_stop!(call_args(parser, left), path);
        Ok(Primary::Call(Call::Function(path.place, path, args)))
    } else {
        Ok(Primary::Column(path))
    }
}

#[cycle(reading)]
#[tactic(auto, unfolding(query_grammar::specs::Reading::read_call_args))]
pub fn call_args(parser: &mut Parser<'_, '_>, left: u32) -> Result<Option<Args>, Stop>
    ensures ok { IfOk result
        (λ args. read_call_args (readers left) parser.old ≡ Ok (args, parser.new)) }
    ensures err { IfErr result (IsStop (read_call_args (readers left) parser.old) parser.new) }
{
    parser.open(Symbol::Open, left)?;
    let args = perhaps_arguments(parser, left)?;
    parser.expect(Symbol::Close)?;
    Ok(args)
}

#[cycle(reading)]
pub fn perhaps_arguments(parser: &mut Parser<'_, '_>, left: u32) -> Result<Option<Args>, Stop>
    requires { 0 < left }
    ensures ok { IfOk result
        (λ args. read_perhaps args_symbols (read_arguments (readers left)) parser.old
        ≡ Ok (args, parser.new)) }
    ensures err { IfErr result
        (IsStop (read_perhaps args_symbols (read_arguments (readers left)) parser.old) parser.new) }
{
    if parser.begins_arguments() {
        Ok(Some(arguments(parser, left)?))
    } else {
        Ok(None)
    }
}

/// `"*" | [DISTINCT] expr {"," expr}`
#[cycle(reading)]
#[tactic(auto, unfolding(query_grammar::specs::Reading::read_arguments, query_grammar::specs::Reading::read_exprs))]
pub fn arguments(parser: &mut Parser<'_, '_>, left: u32) -> Result<Args, Stop>
    requires { 0 < left }
    ensures ok { IfOk result
        (λ args. read_arguments (readers left) parser.old ≡ Ok (args, parser.new)) }
    ensures err { IfErr result (IsStop (read_arguments (readers left) parser.old) parser.new) }
{
    let place = parser.place();
    if parser.is(Symbol::Star) {
        parser.expect(Symbol::Star)?;
        return Ok(Args::Star(place));
    }
    let distinct = parser.flag(Symbol::Distinct);
    let first = inner_expr(parser, left)?;
    let more = more_exprs(parser, left)?;
    Ok(Args::Listed(place, distinct, first, more))
}

/// `{"," expr}`
#[cycle(reading)]
pub fn more_exprs(parser: &mut Parser<'_, '_>, left: u32) -> Result<Items<Expr>, Stop>
    requires { 0 < left }
    ensures ok { IfOk result
        (λ more. read_others (readers left).expr parser.old ≡ Ok (more, parser.new)) }
    ensures err { IfErr result (IsStop (read_others (readers left).expr parser.old) parser.new) }
{
    let mut more = Items::new(parser.alloc());
    'exprs: while parser.is(Symbol::Comma) {
        more.push(next_expr(parser, left)?)?;
    }
    Ok(more)
}

#[cycle(reading)]
#[tactic(auto, using(query_grammar::proofs::InnerReaders::inner_expr))]
pub fn next_expr(parser: &mut Parser<'_, '_>, left: u32) -> Result<Expr, Stop>
    requires { 0 < left }
    ensures ok { IfOk result
        (λ part. read_next (readers left).expr parser.old ≡ Ok (part, parser.new)) }
    ensures err { IfErr result (IsStop (read_next (readers left).expr parser.old) parser.new) }
{
    read_or_stop!(parser.expect(Symbol::Comma));
    expr(parser, left - 1)
}

/// `"(" expr ")"`
#[cycle(reading)]
#[tactic(auto, unfolding(query_grammar::specs::Reading::read_nested))]
pub fn nested(parser: &mut Parser<'_, '_>, left: u32) -> Result<Primary, Stop>
    ensures ok { IfOk result
        (λ primary. read_nested (readers left) parser.old ≡ Ok (primary, parser.new)) }
    ensures err { IfErr result (IsStop (read_nested (readers left) parser.old) parser.new) }
{
    let sign = read_or_stop!(parser.open(Symbol::Open, left));
    let inner = read_or_stop!(inner_expr(parser, left));
    read_or_stop!(parser.expect(Symbol::Close));
    Ok(Primary::Nested(sign.place(), inner))
}
