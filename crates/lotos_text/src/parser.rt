//! The parser of specifications and process definitions.
ghost use Rattle.std.specs.Prelude.{◌≡◌, ◌<◌, ◌≤◌, [], Some, length, IfOk, IfErr};
ghost use Rattle.lotos_text.specs.AstView.{DefinitionView};
ghost use Rattle.lotos_text.specs.AstOf.{definition_kind_view, definition_view, definitions_view, specifications_view};
ghost use Rattle.lotos_text.specs.Grammar.{a_specification, closing_word, defining_sign};
ghost use Rattle.lotos_text.specs.Lexing.{AreTokensIn};
ghost use Rattle.lotos_text.specs.Limits.{max_nesting};
ghost use Rattle.lotos_text.specs.Spelled.{Spelled, SpelledPair};
ghost use Rattle.lotos_text.specs.TextFaults.{IsFaultOfPair, IsFaultOfText, SpellsNoPair, SpellsNoSpecification};
ghost use Rattle.lotos_text.specs.OffsetsInside.{IsFaultInside, IsInside};
ghost use Rattle.lotos_text.specs.ParserContracts.{Parses, FailsAtAnyNesting, FailsWithin, FailsAtToken};
ghost use Rattle.lotos_text.specs.Phrases.{CompleteDefinition, DefinitionList, DefinitionRest, EndOfInput, HeaderPhrase};
ghost use Rattle.lotos_text.specs.Phrases.{PairPhrase, SpecificationPhrase, WherePhrase};

use crate::ast::{Definition, Functionality, Placed, Specification};
use crate::behaviour_parser::parse_behaviour;
use crate::fault::TextFault;
use crate::lexer::tokens;
use crate::operators::Level;
use crate::parse_fault::fault_of_error;
use crate::parse_primitives::{
    ParseError, eat, expect, locate_name, parse_functionality, parse_gate_list,
};
use crate::token::{Sign, Token, TokenKind, Word};
use std::alloc::Global;

/// The most constructs that may be open at once in a text (this project's profile): parentheses, prefixes, hide forms,
/// binary operators up to the end of their right operand, and process definitions.
pub const NESTING_LIMIT: usize = 200;

/// The AST of the specification that a text spells.
///
/// # Errors
///
/// Those of [`crate::tokens`]. Otherwise whichever of these comes first: E05 at a token that opens a construct inside
/// [`NESTING_LIMIT`] open ones; at a token up to and including which the tokens begin no specification, E07 if it is a
/// keyword of full LOTOS that the profile does not use, else E04; E06 at the text's length if its tokens only begin a
/// specification. E99 if an allocation fails.
pub fn parse(alloc: Global, text: &[u8]) -> Result<Specification, TextFault>
    ensures spelled { IfOk result (λ found. Spelled text.now (definition_view found.whole)) }
    ensures only { IfOk result (λ found. (other : DefinitionView) → Spelled text.now other →
        other ≡ definition_view found.whole) }
    ensures fault { IfErr result (IsFaultOfText text.now) }
    ensures nothing { IfErr result (SpellsNoSpecification text.now) }
    ensures fault_inside { IfErr result (IsFaultInside (length text.now)) }
    ensures ast_inside { IfOk result
        (λ found. IsInside (length text.now) (definition_view found.whole)) }
{
    let tokens = tokens(alloc, text)?;
    match parse_specification(alloc, text, tokens.as_slice()) {
        Ok(whole) => Ok(Specification { whole }),
        Err(error) => Err(fault_of_error(error, text.len())),
    }
}

/// The ASTs of the two specifications that a text spells, one after the other.
///
/// # Errors
///
/// As those of [`parse`], of a text that is to spell two specifications: E06 if its tokens only begin them.
pub fn parse_pair(alloc: Global, text: &[u8]) -> Result<(Specification, Specification), TextFault>
    ensures spelled { IfOk result (λ found. SpelledPair text.now (specifications_view found)) }
    ensures only { IfOk result (λ found. (other : DefinitionView × DefinitionView) →
        SpelledPair text.now other → other ≡ specifications_view found) }
    ensures fault { IfErr result (IsFaultOfPair text.now) }
    ensures nothing { IfErr result (SpellsNoPair text.now) }
    ensures fault_inside { IfErr result (IsFaultInside (length text.now)) }
    ensures asts_inside { IfOk result (λ found. IsInside (length text.now) (definition_view found.0.whole) ×
        IsInside (length text.now) (definition_view found.1.whole)) }
{
    let tokens = tokens(alloc, text)?;
    match parse_two(alloc, text, tokens.as_slice()) {
        Ok((first, second)) => Ok((
            Specification { whole: first },
            Specification { whole: second },
        )),
        Err(error) => Err(fault_of_error(error, text.len())),
    }
}

/// Two complete specifications, after which no token follows.
fn parse_two<'a>(
    alloc: Global,
    text: &[u8],
    tokens: &'a [Token],
) -> Result<(Definition, Definition), ParseError<'a>>
    requires { AreTokensIn text.now tokens.now }
    ensures parses { IfOk result
        (λ p. Parses (PairPhrase text.now (Some max_nesting))
        tokens.now (definition_view p.0, definition_view p.1) []) }
    ensures fails { IfErr result (FailsWithin (PairPhrase text.now) max_nesting tokens.now) }
{
    let (first, rest) = parse_complete(alloc, text, tokens)?;
    let second = parse_specification(alloc, text, rest)?;
    Ok((first, second))
}

/// A complete specification, after which no token follows.
fn parse_specification<'a>(
    alloc: Global,
    text: &[u8],
    tokens: &'a [Token],
) -> Result<Definition, ParseError<'a>>
    requires { AreTokensIn text.now tokens.now }
    ensures parses { IfOk result
        (λ whole. Parses (SpecificationPhrase text.now (Some max_nesting))
        tokens.now (definition_view whole) []) }
    ensures fails { IfErr result (FailsWithin (SpecificationPhrase text.now) max_nesting tokens.now) }
{
    let (whole, rest) = parse_complete(alloc, text, tokens)?;
    expect_end(rest)?;
    Ok(whole)
}

/// A complete specification, and the tokens after it.
fn parse_complete<'a>(
    alloc: Global,
    text: &[u8],
    tokens: &'a [Token],
) -> Result<(Definition, &'a [Token]), ParseError<'a>>
    requires { AreTokensIn text.now tokens.now }
    ensures parses { IfOk result
        (λ p. Parses (CompleteDefinition text.now a_specification (Some max_nesting))
        tokens.now (definition_view p.0) p.1.now) }
    ensures rest { IfOk result (λ p. AreTokensIn text.now p.1.now) }
    ensures fails { IfErr result
        (FailsWithin (CompleteDefinition text.now a_specification) max_nesting tokens.now) }
{
    let (_, rest) = expect(tokens, TokenKind::Reserved(Word::SpecificationWord))?;
    let (whole, rest) = parse_definition_rest(
        alloc,
        text,
        NESTING_LIMIT,
        DefinitionKind::Specification,
        rest,
    )?;
    Ok((whole, rest))
}

/// Succeeds if no tokens are left.
fn expect_end<'a>(tokens: &'a [Token]) -> Result<(), ParseError<'a>>
    ensures parses { IfOk result (λ _. tokens.now ≡ []) }
    ensures fails { IfErr result (FailsAtToken EndOfInput tokens.now) }
{
    if tokens.is_empty() {
        Ok(())
    } else {
        Err(ParseError::Unexpected(tokens))
    }
}

/// Whether a definition is the specification or a process.
#[derive(Clone, Copy)]
enum DefinitionKind {
    Specification,
    Process,
}

/// What introduces the body of a definition.
fn defining_sign(kind: DefinitionKind) -> TokenKind
    ensures { result ≡ defining_sign (definition_kind_view kind) }
{
    match kind {
        DefinitionKind::Specification => TokenKind::Reserved(Word::BehaviourWord),
        DefinitionKind::Process => TokenKind::Sign(Sign::Define),
    }
}

/// The keyword that ends a definition.
fn closing_word(kind: DefinitionKind) -> TokenKind
    ensures { result ≡ closing_word (definition_kind_view kind) }
{
    match kind {
        DefinitionKind::Specification => TokenKind::Reserved(Word::EndspecWord),
        DefinitionKind::Process => TokenKind::Reserved(Word::EndprocWord),
    }
}

/// A definition after its first keyword, up to and including its last one.
#[cycle(definitions)]
fn parse_definition_rest<'a>(
    alloc: Global,
    text: &[u8],
    nesting_left: usize,
    kind: DefinitionKind,
    tokens: &'a [Token],
) -> Result<(Definition, &'a [Token]), ParseError<'a>>
    requires { AreTokensIn text.now tokens.now }
    ensures parses { IfOk result
        (λ p. Parses (DefinitionRest text.now (definition_kind_view kind) (Some nesting_left))
        tokens.now (definition_view p.0) p.1.now) }
    ensures rest { IfOk result (λ p. AreTokensIn text.now p.1.now) }
    ensures shorter { IfOk result (λ p. length p.1.now < length tokens.now) }
    ensures fails { IfErr result
        (FailsWithin (DefinitionRest text.now (definition_kind_view kind)) nesting_left tokens.now) }
{
    let (heading, rest) = parse_header(alloc, text, tokens)?;
    let (_, rest) = expect(rest, defining_sign(kind))?;
    let (body, rest) = parse_behaviour(alloc, text, nesting_left, Level::Enabling, rest)?;
    let (inner, rest) = parse_where(alloc, text, nesting_left, rest)?;
    let (_, rest) = expect(rest, closing_word(kind))?;
    let whole = Definition {
        name: heading.name,
        formals: heading.formals,
        functionality: heading.functionality,
        body: Box::into_inner(body),
        inner,
    };
    Ok((whole, rest))
}

/// What the header of a definition declares.
#[derive(Drop)]
struct Header {
    name: Placed,
    formals: Vec<Placed>,
    functionality: Functionality,
}

/// The name, the formal gates, the colon and the functionality.
fn parse_header<'a>(
    alloc: Global,
    text: &[u8],
    tokens: &'a [Token],
) -> Result<(Header, &'a [Token]), ParseError<'a>>
    requires { AreTokensIn text.now tokens.now }
    ensures parses { IfOk result
        (λ p. Parses (HeaderPhrase text.now)
        tokens.now (p.0.name, p.0.formals.items, p.0.functionality) p.1.now) }
    ensures rest { IfOk result (λ p. AreTokensIn text.now p.1.now) }
    ensures shorter { IfOk result (λ p. length p.1.now < length tokens.now) }
    ensures fails { IfErr result (FailsAtAnyNesting (HeaderPhrase text.now) tokens.now) }
{
    let (token, rest) = expect(tokens, TokenKind::Identifier)?;
    let name = locate_name(alloc, text, token)?;
    let (formals, rest) = parse_gate_list(alloc, text, rest)?;
    let (functionality, rest) = parse_functionality(rest)?;
    let heading = Header {
        name,
        formals,
        functionality,
    };
    Ok((heading, rest))
}

/// The inner definitions after the keyword `where`, or none if that keyword does not follow.
#[cycle(definitions)]
fn parse_where<'a>(
    alloc: Global,
    text: &[u8],
    nesting_left: usize,
    tokens: &'a [Token],
) -> Result<(Vec<Definition>, &'a [Token]), ParseError<'a>>
    requires { AreTokensIn text.now tokens.now }
    ensures parses { IfOk result
        (λ p. Parses (WherePhrase text.now (Some nesting_left))
        tokens.now (definitions_view p.0.items) p.1.now) }
    ensures rest { IfOk result (λ p. AreTokensIn text.now p.1.now) }
    ensures shorter { IfOk result (λ p. length p.1.now ≤ length tokens.now) }
    ensures fails { IfErr result (FailsWithin (WherePhrase text.now) nesting_left tokens.now) }
{
    match eat(tokens, TokenKind::Reserved(Word::WhereWord)) {
        Some((_, rest)) => parse_definitions(alloc, text, nesting_left, rest),
        None => Ok((Vec::new(alloc), tokens)),
    }
}

/// One or more process definitions.
#[cycle(definitions)]
fn parse_definitions<'a>(
    alloc: Global,
    text: &[u8],
    nesting_left: usize,
    tokens: &'a [Token],
) -> Result<(Vec<Definition>, &'a [Token]), ParseError<'a>>
    requires { AreTokensIn text.now tokens.now }
    ensures parses { IfOk result
        (λ p. Parses (DefinitionList text.now (Some nesting_left))
        tokens.now (definitions_view p.0.items) p.1.now) }
    ensures rest { IfOk result (λ p. AreTokensIn text.now p.1.now) }
    ensures shorter { IfOk result (λ p. length p.1.now < length tokens.now) }
    ensures fails { IfErr result (FailsWithin (DefinitionList text.now) nesting_left tokens.now) }
{
    let mut found = Vec::new(alloc);
    let mut rest = tokens;
    loop {
        let (word, after) = expect(rest, TokenKind::Reserved(Word::ProcessWord))?;
        if nesting_left == 0 {
            return Err(ParseError::TooDeep(word));
        }
        let (one, remainder) = parse_definition_rest(
            alloc,
            text,
            nesting_left - 1,
            DefinitionKind::Process,
            after,
        )?;
        found.push(one)?;
        let Some(_) = eat(remainder, TokenKind::Reserved(Word::ProcessWord)) else {
            return Ok((found, remainder));
        };
        rest = remainder;
    }
}
