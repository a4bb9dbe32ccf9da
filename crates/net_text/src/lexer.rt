//! Cutting a text into tokens.

ghost use Rattle.std.specs.Prelude.{◌≡◌, ◌≢◌, ℕ, ◌+◌, ◌<◌, ◌≤◌, ◌==◌, [], ◌∷◌, true, false, length, take, drop, count_by, slice_index, IsTrue, MatchOption, IfOk, IfErr, IfSome, IfNone};
ghost use Rattle.std.specs.List.{list_all};
ghost use Rattle.std.specs.Char.{is_ascii_digit};
ghost use Rattle.net_text.specs.Numbers.{is_numeral};
ghost use Rattle.net_text.specs.Spellings.{keyword_spelling, symbol_spelling, starts_word, continues_word, IsLongest, IsLexeme, IsLongestSymbol, IsShape, Spells, is_kept, is_word, IsPastLimit};
ghost use Rattle.net_text.specs.Tokens.{is_white, after_gap, line_at, lexeme_of, lexemes, IsAfterGap, IsTokenFrom, StopsAt, IsReading};
ghost use Rattle.net_text.specs.declared.fault.TextFault.{TextFault};
ghost use Rattle.net_text.specs.declared.token.Keyword.{Keyword};
ghost use Rattle.net_text.specs.declared.token.Symbol.{Symbol};

use crate::fault::TextFault;
use crate::limits::{MAX_NAME_BYTES, MAX_TEXT_BYTES};
use crate::token::{Keyword, Symbol, Token, TokenKind};
use std::alloc::{AllocError, Global};

/// How the reading of a text's tokens ends.
#[derive(Clone, Copy)]
pub(crate) enum End {
    /// At the end of the text, which stands on this line.
    Text { line: usize },
    /// At the first bad token.
    Bad(TextFault),
}

/// The tokens of a text up to its end, or up to the first that is bad.
#[derive(Drop)]
pub(crate) struct Reading<'a> {
    pub tokens: Vec<Token<'a>>,
    pub end: End,
}

// The longest token at a place may be one of these, with names and numbers past their limits among them.
#[derive(Clone, Copy)]
enum Shape {
    Word,
    Numeral,
    Symbol(Symbol),
}

fn is_white(b: u8) -> bool
    ensures { result ≡ is_white b }
{
    b == b' ' || b == b'\t' || b == b'\r' || b == b'\n'
}

pub(crate) fn starts_word(b: u8) -> bool
    ensures { result ≡ starts_word b }
{
    b.is_ascii_alphabetic() || b == b'_'
}

fn continues_word(b: u8) -> bool
    ensures { result ≡ continues_word b }
{
    starts_word(b) || b.is_ascii_digit()
}

// How many bytes of white space and comments stand at the front.
fn gap_len(bytes: &[u8]) -> usize
    ensures within { result ≤ length bytes.now }
    ensures rest { drop result bytes.now ≡ after_gap bytes.now }
{
    let mut in_comment = false;
    for (i, b) in bytes.iter().enumerate() {
        if in_comment {
            in_comment = *b != b'\n';
        } else if *b == b'#' {
            in_comment = true;
        } else if !is_white(*b) {
            return i;
        }
    }
    bytes.len()
}

fn line_feeds(bytes: &[u8]) -> usize
    ensures { result ≡ count_by (λ b. b == 10) bytes.now }
{
    bytes.iter().filter(|b| **b == b'\n').count()
}

// How many bytes at the front can be part of a word.
pub(crate) fn word_len(bytes: &[u8]) -> usize
    ensures within { result ≤ length bytes.now }
    ensures all { list_all continues_word (take result bytes.now) ≡ true }
    ensures stops { result < length bytes.now
        → continues_word (slice_index bytes.now result) ≡ false }
{
    for (i, b) in bytes.iter().enumerate() {
        if !continues_word(*b) {
            return i;
        }
    }
    bytes.len()
}

// How many digits stand at the front.
pub(crate) fn numeral_len(bytes: &[u8]) -> usize
    ensures within { result ≤ length bytes.now }
    ensures all { list_all is_ascii_digit (take result bytes.now) ≡ true }
    ensures stops { result < length bytes.now
        → is_ascii_digit (slice_index bytes.now result) ≡ false }
{
    for (i, b) in bytes.iter().enumerate() {
        if !b.is_ascii_digit() {
            return i;
        }
    }
    bytes.len()
}

// The keyword that a word is, if it is one.
fn keyword_of(word: &str) -> Option<Keyword>
    ensures { MatchOption result ((w : Keyword) → word.now ≢ keyword_spelling w)
        (λ w. word.now ≡ keyword_spelling w) }
{
    match word {
        "kahn" => Some(Keyword::Kahn),
        "input" => Some(Keyword::Input),
        "chan" => Some(Keyword::Chan),
        "output" => Some(Keyword::Output),
        "process" => Some(Keyword::Process),
        "on" => Some(Keyword::On),
        "var" => Some(Keyword::Var),
        "loop" => Some(Keyword::Loop),
        "get" => Some(Keyword::Get),
        "put" => Some(Keyword::Put),
        "to" => Some(Keyword::To),
        "if" => Some(Keyword::If),
        "else" => Some(Keyword::Else),
        "stop" => Some(Keyword::Stop),
        "repeat" => Some(Keyword::Repeat),
        "div" => Some(Keyword::Div),
        "mod" => Some(Keyword::Mod),
        _ => None,
    }
}

// The symbol that this byte is by itself.
fn single_symbol(b: u8) -> Option<Symbol>
    ensures { MatchOption result ((s : Symbol) → symbol_spelling s ≢ b ∷ [])
        (λ s. symbol_spelling s ≡ b ∷ []) }
{
    match b {
        b';' => Some(Symbol::Semicolon),
        b'{' => Some(Symbol::LeftBrace),
        b'}' => Some(Symbol::RightBrace),
        b'(' => Some(Symbol::LeftParenthesis),
        b')' => Some(Symbol::RightParenthesis),
        b'=' => Some(Symbol::Assign),
        b'<' => Some(Symbol::Less),
        b'>' => Some(Symbol::Greater),
        b'+' => Some(Symbol::Plus),
        b'-' => Some(Symbol::Minus),
        b'*' => Some(Symbol::Star),
        _ => None,
    }
}

// The symbol that the first two bytes are.
fn double_symbol(rest: &[u8]) -> Option<Symbol>
    ensures { MatchOption result
        ((s : Symbol) → 2 ≤ length rest.now → take 2 rest.now ≢ symbol_spelling s)
        (λ s. (2 ≤ length rest.now) × (take 2 rest.now ≡ symbol_spelling s)) }
{
    match rest {
        [b'=', b'=', ..] => Some(Symbol::Equal),
        [b'!', b'=', ..] => Some(Symbol::NotEqual),
        [b'<', b'=', ..] => Some(Symbol::LessOrEqual),
        [b'>', b'=', ..] => Some(Symbol::GreaterOrEqual),
        _ => None,
    }
}

// The longest symbol at the front, and its length.
fn symbol_at(rest: &[u8]) -> Option<(Symbol, usize)>
    ensures { MatchOption result
        ((s : Symbol) (n : ℕ) → n ≤ length rest.now → take n rest.now ≢ symbol_spelling s)
        (λ found. IsLongestSymbol found.0 found.1 rest.now) }
{
    if let Some(symbol) = double_symbol(rest) {
        return Some((symbol, 2));
    }
    if rest.is_empty() {
        return None;
    }
    let first = rest[0];
    match single_symbol(first) {
        Some(symbol) => Some((symbol, 1)),
        None => None,
    }
}

// The longest front that a token may look like: its shape and its length.
fn lexeme_at(rest: &[u8]) -> Option<(Shape, usize)>
    ensures none { IfNone result ((n : ℕ) → n ≤ length rest.now → IsLexeme (take n rest.now) → ⊥) }
    ensures some { IfSome result
        (λ found. (found.1 ≤ length rest.now) × IsLongest (take found.1 rest.now) rest.now
        × IsShape found.0 (take found.1 rest.now)) }
{
    if rest.is_empty() {
        return None;
    }
    let first = rest[0];
    if starts_word(first) {
        return Some((Shape::Word, word_len(rest)));
    }
    if first.is_ascii_digit() {
        return Some((Shape::Numeral, numeral_len(rest)));
    }
    match symbol_at(rest) {
        Some((symbol, len)) => Some((Shape::Symbol(symbol), len)),
        None => None,
    }
}

// A word that is no keyword is a name.
fn word_kind(word: &str, line: usize) -> Result<TokenKind, TextFault>
    requires { IsTrue (is_word word.now) }
    ensures ok { IfOk result (λ kind. Spells kind word.now × IsTrue (is_kept kind)) }
    ensures err { IfErr result (IsPastLimit word.now line) }
{
    if let Some(keyword) = keyword_of(word) {
        return Ok(TokenKind::Word(keyword));
    }
    if word.len() > MAX_NAME_BYTES {
        return Err(TextFault::TooLong { line });
    }
    Ok(TokenKind::Name)
}

// A numeral is the number that it writes, where the signed 64 bits hold it.
fn numeral_kind(numeral: &str, line: usize) -> Result<TokenKind, TextFault>
    requires { IsTrue (is_numeral numeral.now) }
    ensures ok { IfOk result (λ kind. Spells kind numeral.now × IsTrue (is_kept kind)) }
    ensures err { IfErr result (IsPastLimit numeral.now line) }
{
    let Ok(number) = numeral.parse::<u64>() else {
        return Err(TextFault::NumberRange { line });
    };
    if number > i64::MAX as u64 {
        return Err(TextFault::NumberRange { line });
    }
    Ok(TokenKind::Number(number))
}

// The kind of the token that a lexeme is, unless it passes a limit.
fn kind_of(shape: Shape, text: &str, line: usize) -> Result<TokenKind, TextFault>
    requires { IsShape shape text.now }
    ensures ok { IfOk result (λ kind. Spells kind text.now × IsTrue (is_kept kind)) }
    ensures err { IfErr result (IsPastLimit text.now line) }
{
    match shape {
        Shape::Word => word_kind(text, line),
        Shape::Numeral => numeral_kind(text, line),
        Shape::Symbol(symbol) => Ok(TokenKind::Symbol(symbol)),
    }
}

// Where the next token may begin after a place on this line, past white space and comments, and on which line.
fn after_gap(bytes: &[u8], place: usize, line: usize) -> (usize, usize)
    requires small { length bytes.now ≤ MAX_TEXT_BYTES }
    requires within { place ≤ length bytes.now }
    requires line { line ≡ line_at bytes.now place }
    ensures { IsAfterGap bytes.now place result.0 result.1 }
{
    let (_, ahead) = bytes.split_at(place);
    let gap = gap_len(ahead);
    let (skipped, _) = ahead.split_at(gap);
    (place + gap, line + line_feeds(skipped))
}

// The first token from a place on, where that place stands on this line; or why there is none.
fn next_token(source: &str, place: usize, line: usize) -> Result<Token<'_>, End>
    requires small { length source.now ≤ MAX_TEXT_BYTES }
    requires within { place ≤ length source.now }
    requires line { line ≡ line_at source.now place }
    ensures ok { IfOk result (λ token. IsTokenFrom source.now place (lexeme_of token)) }
    ensures err { IfErr result (StopsAt source.now place) }
{
    let bytes = source.as_bytes();
    let (start, line) = after_gap(bytes, place, line);
    let (_, rest) = bytes.split_at(start);
    if rest.is_empty() {
        return Err(End::Text { line });
    }
    let Some((shape, len)) = lexeme_at(rest) else {
        return Err(End::Bad(TextFault::BadToken { line }));
    };
    let text = &source[start..start + len];
    match kind_of(shape, text, line) {
        Ok(kind) => Ok(Token {
            kind,
            text,
            start,
            line,
        }),
        Err(fault) => Err(End::Bad(fault)),
    }
}

/// The tokens of a text that isn't over-long, up to its end or to the first that is bad.
pub(crate) fn read<'a>(alloc: Global, source: &'a str) -> Result<Reading<'a>, AllocError>
    requires { length source.now ≤ MAX_TEXT_BYTES }
    ensures { IfOk result (λ reading. IsReading source.now
        (lexemes reading.tokens.items) reading.end) }
{
    let mut tokens = Vec::new(alloc);
    let mut place = 0;
    let mut line = 1;
    'tokens: loop {
        match next_token(source, place, line) {
            Ok(token) => {
                place = token.start + token.text.len();
                line = token.line;
                tokens.push(token)?;
            }
            Err(end) => return Ok(Reading { tokens, end }),
        }
    }
}
