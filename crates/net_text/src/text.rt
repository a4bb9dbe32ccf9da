//! Reading a whole text.

ghost use Rattle.std.specs.Prelude.{◌≡◌, ◌≤◌, List, length, IfOk, IfErr};
ghost use Rattle.net_text.specs.Trees.{DeclarationTree, net_tree};
ghost use Rattle.net_text.specs.Tokens.{Lexeme, lexemes, AreTokens, IsTokensFault};
ghost use Rattle.net_text.specs.Grammar.{IsTextOf};
ghost use Rattle.net_text.specs.Reading.{fault_at};
ghost use Rattle.net_text.specs.Texts.{Answers, IsParseFault, IsRefusedBy};
ghost use Rattle.net_text.specs.declared.fault.TextFault.{TextFault as FaultValue};

use crate::fault::TextFault;
use crate::lexer::{End, read};
use crate::limits::MAX_TEXT_BYTES;
use crate::parser::{ParseError, Parser, Stuck};
use crate::token::Token;
use crate::tree::NetText;
use std::alloc::Global;

/// The tokens of a text, in order. Each is the longest that can stand at its place, past white space and
/// comments. Refuses the first bad token: 2 for a character that begins none, 4 for a number past the signed
/// 64 bits, 5 for a name of more than 64 bytes; and an over-long text by 5 on line 1 before all else.
pub fn tokens(alloc: Global, text: &str) -> Result<Vec<Token<'_>>, TextFault>
    ensures ok { IfOk result (λ ts. (length text.now ≤ MAX_TEXT_BYTES)
        × AreTokens text.now (lexemes ts.items)) }
    ensures err { IfErr result (IsTokensFault text.now) }
    // What can be cut into tokens is, unless memory runs out.
    ensures only { (ts : List Lexeme) → length text.now ≤ MAX_TEXT_BYTES → AreTokens text.now ts
        → Answers (λ v. lexemes v.items) result ts }
{
    if text.len() > MAX_TEXT_BYTES {
        return Err(TextFault::TooLong { line: 1 });
    }
    let reading = read(alloc, text)?;
    match reading.end {
        End::Text { .. } => Ok(reading.tokens),
        End::Bad(fault) => Err(fault),
    }
}

/// The tree of a network's text, of either edition. Refuses at the first token at which the text can't go on: by
/// the bad token's own number, by 5 where it opens one more than may be open, by 4 where it is a repetition's
/// number and not from 1 to 1000, or else by 3.
pub fn parse(alloc: Global, text: &str) -> Result<NetText, TextFault>
    ensures ok { IfOk result (λ net. IsTextOf (net_tree net) text.now) }
    // The refusal's cause is in the text, and a text has no other.
    ensures err { IfErr result (IsParseFault text.now) }
    ensures each { (fault : FaultValue) → IsParseFault text.now fault
        → IsRefusedBy fault result }
    // A text in the grammar is read, unless memory runs out.
    ensures only { (tree : List DeclarationTree) → IsTextOf tree text.now
        → Answers net_tree result tree }
{
    if text.len() > MAX_TEXT_BYTES {
        return Err(TextFault::TooLong { line: 1 });
    }
    let reading = read(alloc, text)?;
    match Parser::new(alloc, &reading.tokens).whole() {
        Ok(net) => match reading.end {
            End::Text { .. } => Ok(net),
            End::Bad(fault) => Err(fault),
        },
        Err(ParseError::NoMemory) => Err(TextFault::NoMemory),
        Err(ParseError::Stuck(stuck)) => Err(fault_at(stuck, reading.end)),
    }
}

// The fault of a text whose tokens, which end so, are stuck there.
fn fault_at(stuck: Stuck, end: End) -> TextFault
    ensures { result ≡ fault_at stuck end }
{
    match stuck {
        Stuck::At { line } => TextFault::Unexpected { line },
        Stuck::TooDeep { line } => TextFault::TooLong { line },
        Stuck::OutOfRange { line } => TextFault::NumberRange { line },
        Stuck::AtEnd => match end {
            End::Text { line } => TextFault::Unexpected { line },
            End::Bad(fault) => fault,
        },
    }
}
