//! Reading a network's text: functions from a slice of tokens to what they say and the tokens after it.
//! Each gives what its reader in specs/ gives; that the readers are those of the grammar stands in proofs/.
//! What may nest takes how many more blocks, parentheses and minus signs may be opened.

ghost use Rattle.std.specs.Prelude.{◌≡◌, ◌<◌, IfOk, map, List, Option};
ghost use Rattle.net_text.specs.Trees.{expr_tree, link_tree, then_tree, block_tree, repeated_tree, process_tree, declaration_tree, net_tree, NothingTree};
ghost use Rattle.net_text.specs.Numbers.{IsInRange};
ghost use Rattle.net_text.specs.Grammar.{chain_of, first_word, level_of};
ghost use Rattle.net_text.specs.Tokens.{lexemes};
ghost use Rattle.net_text.specs.Editions.{Ranged, edition_number};
ghost use Rattle.net_text.specs.Reading.{Gives, has_word, has_symbol, is_name, is_level, operator_of, word_operator, any_operator, operator_in, has_operator, has_number, begins, starts_nested, starts_statement, starts_declaration, word_on_at, word_at, symbol_at, name_at, number_at, operator_at, count_at, opening_at, atom_at, parenthesised_at, minus_at, factor_at, operand_at, link_at, links_at, chain_at, expr_at, got_at, assigned_at, named_at, put_at, stop_at, else_at, if_at, repeat_at, nested_at, statement_at, statements_at, block_at, value_at, initial_at, variable_at, variables_at, loop_at, head_at, head_tree, process_at, channel_at, declaration_at, declarations_at, edition_number_at, edition_at, text_at, whole_text};
ghost use Rattle.net_text.specs.declared.parser.ParseError.TheVariants.{NoMemory};

use crate::edition::Edition;
use crate::limits::MAX_NESTING;
use crate::name::Name;
use crate::token::{Keyword, Symbol, Token, TokenKind};
use crate::tree::{
    ChannelText, Declaration, ExprText, LinkText, LoopText, NetText, NodeText, ProcessText, Role,
    StatementText, VariableText,
};
use kahn_net::{MAX_TIMES, Operator};
use std::alloc::{AllocError, AllocFailed, Global};
use std::marker::Model;

/// Where the tokens can't go on.
#[derive(Clone, Copy)]
pub(crate) enum Stuck {
    /// At a token on this line.
    At { line: usize },
    /// At a token on this line that opens one more than may be open.
    TooDeep { line: usize },
    /// At a number on this line, as often as which no repetition may be made.
    OutOfRange { line: usize },
    /// At their end.
    AtEnd,
}

/// Why nothing is read.
#[derive(Clone, Copy)]
pub(crate) enum ParseError {
    NoMemory,
    Stuck(Stuck),
}

/// How tightly an operator binds.
#[derive(Clone, Copy)]
pub(crate) enum Level {
    Product,
    Sum,
    /// No comparison is compared: there is at most one.
    Comparison,
}

impl From<AllocError> for ParseError {
    ghost from_gives = { λ _ e. e ≡ NoMemory };

    fn from(_: AllocError) -> Self {
        ParseError::NoMemory
    }
}

impl<T: Drop> From<AllocFailed<T>> for ParseError {
    ghost from_gives = { λ _ e. e ≡ NoMemory };

    fn from(_: AllocFailed<T>) -> Self {
        ParseError::NoMemory
    }
}

fn stuck_at(token: &Token) -> ParseError
    ensures { result ≡ ParseError.Stuck (Stuck.At token.now.line) }
{
    ParseError::Stuck(Stuck::At { line: token.line })
}

fn is_word(found: TokenKind, word: Keyword) -> bool
    ensures { result ≡ has_word word found }
{
    found == TokenKind::Word(word)
}

fn is_symbol(found: TokenKind, symbol: Symbol) -> bool
    ensures { result ≡ has_symbol symbol found }
{
    found == TokenKind::Symbol(symbol)
}

fn is_number(found: TokenKind, number: u64) -> bool
    ensures { result ≡ has_number number found }
{
    match found {
        TokenKind::Number(value) => value == number,
        _ => false,
    }
}

// The number by which a text names its edition.
fn number_of(edition: Edition) -> u64
    ensures { result ≡ edition_number edition }
{
    match edition {
        Edition::First => 1,
        Edition::Second => 2,
    }
}

fn level_of(operator: Operator) -> Level
    ensures { result ≡ level_of operator }
{
    match operator {
        Operator::Multiply | Operator::Divide | Operator::Remainder => Level::Product,
        Operator::Add | Operator::Subtract => Level::Sum,
        Operator::Equal
        | Operator::NotEqual
        | Operator::Less
        | Operator::LessOrEqual
        | Operator::Greater
        | Operator::GreaterOrEqual => Level::Comparison,
    }
}

fn is_level(found: Level, level: Level) -> bool
    ensures { result ≡ is_level found level }
{
    found == level
}

// The operator that a symbol is.
fn operator_of(symbol: Symbol) -> Option<Operator>
    ensures { result ≡ operator_of symbol }
{
    match symbol {
        Symbol::Plus => Some(Operator::Add),
        Symbol::Minus => Some(Operator::Subtract),
        Symbol::Star => Some(Operator::Multiply),
        Symbol::Equal => Some(Operator::Equal),
        Symbol::NotEqual => Some(Operator::NotEqual),
        Symbol::Less => Some(Operator::Less),
        Symbol::LessOrEqual => Some(Operator::LessOrEqual),
        Symbol::Greater => Some(Operator::Greater),
        Symbol::GreaterOrEqual => Some(Operator::GreaterOrEqual),
        Symbol::Semicolon
        | Symbol::LeftBrace
        | Symbol::RightBrace
        | Symbol::LeftParenthesis
        | Symbol::RightParenthesis
        | Symbol::Assign => None,
    }
}

// The operator that a word is, if the edition has it.
fn word_operator(word: Keyword, edition: Edition) -> Option<Operator>
    ensures { result ≡ word_operator word edition }
{
    match edition {
        Edition::First => None,
        Edition::Second => match word {
            Keyword::Div => Some(Operator::Divide),
            Keyword::Mod => Some(Operator::Remainder),
            _ => None,
        },
    }
}

// The operator that a token is.
fn any_operator(edition: Edition, found: TokenKind) -> Option<Operator>
    ensures { result ≡ any_operator edition found }
{
    match found {
        TokenKind::Symbol(symbol) => operator_of(symbol),
        TokenKind::Word(word) => word_operator(word, edition),
        _ => None,
    }
}

// The operator of this level that a token is.
fn operator_in(edition: Edition, level: Level, found: TokenKind) -> Option<Operator>
    ensures { result ≡ operator_in edition level found }
{
    match any_operator(edition, found) {
        Some(operator) if is_level(level_of(operator), level) => Some(operator),
        _ => None,
    }
}

fn name_of(alloc: Global, token: &Token) -> Result<Name, AllocError>
    ensures { IfOk result (λ name. name
        ≡ record { text = token.now.text.now; line = token.now.line }) }
{
    Ok(Name::new(String::from_str(alloc, token.text)?, token.line))
}

// A value with its links, which is the value itself where there are none.
#[tactic(auto, using(crate::specs::TreeLaws::chain_tree))]
fn chain(alloc: Global, first: ExprText, links: Vec<LinkText>) -> Result<ExprText, AllocError>
    ensures { IfOk result (λ e. expr_tree e
        ≡ chain_of (expr_tree first) (map link_tree links.items)) }
{
    if links.is_empty() {
        return Ok(first);
    }
    Ok(ExprText::Chain {
        first: Box::new(alloc, first)?,
        links,
    })
}

// The word with which a channel's declaration begins.
fn first_word(role: Role) -> Keyword
    ensures { result ≡ first_word role }
{
    match role {
        Role::Input => Keyword::Input,
        Role::Inner => Keyword::Chan,
        Role::Output => Keyword::Output,
    }
}

// A process's head: `process NAME on NUMBER {`.
#[derive(Drop)]
struct Head {
    line: usize,
    name: Name,
    node: NodeText,
}

/// The tokens that are left to read.
#[derive(Drop)]
pub(crate) struct Parser<'a> {
    alloc: Global,
    rest: &'a [Token<'a>],
}

impl<'a> Model for Parser<'a> {
    ghost use Rattle.std.specs.Prelude.{List};
    ghost use Rattle.net_text.specs.Tokens.{Lexeme, lexemes};

    ghost Value = { List Lexeme };

    ghost view = { λ p. lexemes p.rest.now };
}

impl<'a> Parser<'a> {
    pub(crate) fn new(alloc: Global, tokens: &'a [Token<'a>]) -> Self
        ensures { result ≡ lexemes tokens.now }
    {
        Parser {
            alloc,
            rest: tokens,
        }
    }

    fn begins_with_word(&self, word: Keyword) -> bool
        ensures { result ≡ begins (has_word word) self.now }
    {
        match self.rest {
            [] => false,
            [token, ..] => is_word(token.kind, word),
        }
    }

    fn begins_with_symbol(&self, symbol: Symbol) -> bool
        ensures { result ≡ begins (has_symbol symbol) self.now }
    {
        match self.rest {
            [] => false,
            [token, ..] => is_symbol(token.kind, symbol),
        }
    }

    fn begins_with_operator(&self, edition: Edition, level: Level) -> bool
        ensures { result ≡ begins (has_operator edition level) self.now }
    {
        match self.rest {
            [] => false,
            [token, ..] => operator_in(edition, level, token.kind).is_some(),
        }
    }

    fn begins_with_number(&self, number: u64) -> bool
        ensures { result ≡ begins (has_number number) self.now }
    {
        match self.rest {
            [] => false,
            [token, ..] => is_number(token.kind, number),
        }
    }

    fn begins_with_name(&self) -> bool
        ensures { result ≡ begins is_name self.now }
    {
        match self.rest {
            [] => false,
            [token, ..] => token.kind == TokenKind::Name,
        }
    }

    // A word, by the line on which it stands.
    #[tactic(auto, unfolding(crate::specs::Reading::word_on_at))]
    fn word_on(&mut self, word: Keyword) -> Result<usize, ParseError>
        ensures { Gives (λ line. (line, self.new)) result (word_on_at word self.old) }
    {
        match self.rest {
            [token, rest @ ..] if is_word(token.kind, word) => {
                self.rest = rest;
                Ok(token.line)
            }
            [token, ..] => Err(stuck_at(token)),
            [] => Err(ParseError::Stuck(Stuck::AtEnd)),
        }
    }

    #[tactic(auto, unfolding(crate::specs::Reading::word_at))]
    fn word(&mut self, word: Keyword) -> Result<(), ParseError>
        ensures { Gives (λ _. (tt, self.new)) result (word_at word self.old) }
    {
        match self.rest {
            [token, rest @ ..] if is_word(token.kind, word) => {
                self.rest = rest;
                Ok(())
            }
            [token, ..] => Err(stuck_at(token)),
            [] => Err(ParseError::Stuck(Stuck::AtEnd)),
        }
    }

    #[tactic(auto, unfolding(crate::specs::Reading::symbol_at))]
    fn symbol(&mut self, symbol: Symbol) -> Result<(), ParseError>
        ensures { Gives (λ _. (tt, self.new)) result (symbol_at symbol self.old) }
    {
        match self.rest {
            [token, rest @ ..] if is_symbol(token.kind, symbol) => {
                self.rest = rest;
                Ok(())
            }
            [token, ..] => Err(stuck_at(token)),
            [] => Err(ParseError::Stuck(Stuck::AtEnd)),
        }
    }

    // A symbol that opens what may nest, if one more may be opened.
    #[tactic(auto, unfolding(crate::specs::Reading::unopened_at))]
    fn opening(&mut self, symbol: Symbol, left: usize) -> Result<(), ParseError>
        ensures gives { Gives (λ _. (tt, self.new)) result (opening_at symbol left self.old) }
        ensures some { IfOk result (λ _. 0 < left) }
    {
        if left > 0 {
            return self.symbol(symbol);
        }
        match self.rest {
            [] => Err(ParseError::Stuck(Stuck::AtEnd)),
            [token, ..] if is_symbol(token.kind, symbol) => {
                Err(ParseError::Stuck(Stuck::TooDeep { line: token.line }))
            }
            [token, ..] => Err(stuck_at(token)),
        }
    }

    #[tactic(auto, unfolding(crate::specs::Reading::name_at))]
    fn name(&mut self) -> Result<Name, ParseError>
        ensures { Gives (λ name. (name, self.new)) result (name_at self.old) }
    {
        match self.rest {
            [] => Err(ParseError::Stuck(Stuck::AtEnd)),
            [token, rest @ ..] => match token.kind {
                TokenKind::Name => {
                    self.rest = rest;
                    Ok(name_of(self.alloc, token)?)
                }
                _ => Err(stuck_at(token)),
            },
        }
    }

    #[tactic(auto, unfolding(crate::specs::Reading::number_at))]
    fn number(&mut self) -> Result<NodeText, ParseError>
        ensures gives { Gives (λ number. (number, self.new)) result (number_at self.old) }
        ensures range { IfOk result (λ number. IsInRange number.number) }
    {
        match self.rest {
            [] => Err(ParseError::Stuck(Stuck::AtEnd)),
            [token, rest @ ..] => match token.kind {
                TokenKind::Number(number) => {
                    self.rest = rest;
                    Ok(NodeText {
                        number,
                        line: token.line,
                    })
                }
                _ => Err(stuck_at(token)),
            },
        }
    }

    // The number of a repetition.
    #[tactic(auto, unfolding(crate::specs::Reading::count_at))]
    fn count(&mut self) -> Result<u16, ParseError>
        ensures { Gives (λ times. (times, self.new)) result (count_at Ranged self.old) }
    {
        match self.rest {
            [] => Err(ParseError::Stuck(Stuck::AtEnd)),
            [token, rest @ ..] => match token.kind {
                TokenKind::Number(number) => {
                    if number < 1 || number > MAX_TIMES as u64 {
                        return Err(ParseError::Stuck(Stuck::OutOfRange { line: token.line }));
                    }
                    self.rest = rest;
                    Ok(number as u16)
                }
                _ => Err(stuck_at(token)),
            },
        }
    }

    // An operator of this level.
    #[tactic(auto, unfolding(crate::specs::Reading::operator_at))]
    fn operator(&mut self, edition: Edition, level: Level) -> Result<Operator, ParseError>
        ensures { Gives (λ operator. (operator, self.new)) result
            (operator_at edition level self.old) }
    {
        match self.rest {
            [] => Err(ParseError::Stuck(Stuck::AtEnd)),
            [token, rest @ ..] => match operator_in(edition, level, token.kind) {
                Some(operator) => {
                    self.rest = rest;
                    Ok(operator)
                }
                None => Err(stuck_at(token)),
            },
        }
    }

    // A number or a name.
    #[tactic(auto, unfolding(crate::specs::Reading::atom_at))]
    fn atom(&mut self) -> Result<ExprText, ParseError>
        ensures { Gives (λ e. (expr_tree e, self.new)) result (atom_at self.old) }
    {
        match self.rest {
            [] => Err(ParseError::Stuck(Stuck::AtEnd)),
            [token, rest @ ..] => match token.kind {
                TokenKind::Number(number) => {
                    self.rest = rest;
                    Ok(ExprText::Literal(number as i64))
                }
                TokenKind::Name => {
                    self.rest = rest;
                    Ok(ExprText::Variable(name_of(self.alloc, token)?))
                }
                _ => Err(stuck_at(token)),
            },
        }
    }

    #[cycle(expression)]
    fn parenthesised(&mut self, edition: Edition, left: usize) -> Result<ExprText, ParseError>
        ensures { Gives (λ e. (expr_tree e, self.new)) result (parenthesised_at edition left self.old) }
    {
        self.opening(Symbol::LeftParenthesis, left)?;
        let value = self.expr(edition, left - 1)?;
        self.symbol(Symbol::RightParenthesis)?;
        Ok(value)
    }

    #[cycle(expression)]
    fn minus(&mut self, edition: Edition, left: usize) -> Result<ExprText, ParseError>
        ensures { Gives (λ e. (expr_tree e, self.new)) result (minus_at edition left self.old) }
    {
        self.opening(Symbol::Minus, left)?;
        let value = self.factor(edition, left - 1)?;
        Ok(ExprText::Negate(Box::new(self.alloc, value)?))
    }

    #[cycle(expression)]
    fn factor(&mut self, edition: Edition, left: usize) -> Result<ExprText, ParseError>
        ensures { Gives (λ e. (expr_tree e, self.new)) result (factor_at edition left self.old) }
    {
        if self.begins_with_symbol(Symbol::LeftParenthesis) {
            return self.parenthesised(edition, left);
        }
        if self.begins_with_symbol(Symbol::Minus) {
            return self.minus(edition, left);
        }
        self.atom()
    }

    // What the operators of a level join: factors, terms or sums.
    #[cycle(expression)]
    #[tactic(auto, unfolding(crate::specs::Reading::operand_at))]
    fn operand(
        &mut self,
        edition: Edition,
        level: Level,
        left: usize,
    ) -> Result<ExprText, ParseError>
        ensures { Gives (λ e. (expr_tree e, self.new)) result (operand_at edition level left self.old) }
    {
        match level {
            Level::Product => self.factor(edition, left),
            Level::Sum => self.chain(edition, Level::Product, left),
            Level::Comparison => self.chain(edition, Level::Sum, left),
        }
    }

    // An operator of this level, and the value to its right.
    #[cycle(expression)]
    #[tactic(auto, unfolding(crate::specs::Reading::link_at, crate::specs::Reading::operand_at))]
    fn link(&mut self, edition: Edition, level: Level, left: usize) -> Result<LinkText, ParseError>
        ensures { Gives (λ l. (link_tree l, self.new)) result (link_at edition level left self.old) }
    {
        let operator = self.operator(edition, level)?;
        let value = self.operand(edition, level, left)?;
        Ok(LinkText { operator, value })
    }

    #[cycle(expression)]
    #[tactic(auto, unfolding(crate::specs::Reading::links_at))]
    fn links(
        &mut self,
        edition: Edition,
        level: Level,
        left: usize,
    ) -> Result<Vec<LinkText>, ParseError>
        ensures { Gives (λ v. (map link_tree v.items, self.new)) result
            (links_at edition level left self.old) }
    {
        let mut links = Vec::new(self.alloc);
        while self.begins_with_operator(edition, level) {
            let link = self.link(edition, level, left)?;
            links.push(link)?;
        }
        Ok(links)
    }

    // Values with operators of one level between them: a term, or a sum.
    #[cycle(expression)]
    #[tactic(auto, unfolding(crate::specs::Reading::links_at, crate::specs::Reading::link_at, crate::specs::Reading::operand_at))]
    fn chain(&mut self, edition: Edition, level: Level, left: usize) -> Result<ExprText, ParseError>
        ensures { Gives (λ e. (expr_tree e, self.new)) result
            (chain_at edition level (operand_at edition level left) self.old) }
    {
        let first = self.operand(edition, level, left)?;
        let links = self.links(edition, level, left)?;
        Ok(chain(self.alloc, first, links)?)
    }

    // A sum, or two with a comparison between them.
    #[cycle(expression)]
    #[tactic(auto, unfolding(crate::specs::Reading::expr_at, crate::specs::Reading::link_at, crate::specs::Reading::operand_at))]
    fn expr(&mut self, edition: Edition, left: usize) -> Result<ExprText, ParseError>
        ensures { Gives (λ e. (expr_tree e, self.new)) result (expr_at edition left self.old) }
    {
        let first = self.operand(edition, Level::Comparison, left)?;
        let mut links = Vec::new(self.alloc);
        if self.begins_with_operator(edition, Level::Comparison) {
            let link = self.link(edition, Level::Comparison, left)?;
            links.push(link)?;
        }
        Ok(chain(self.alloc, first, links)?)
    }

    // The channel of a get, past the `=`.
    #[tactic(auto, unfolding(crate::specs::Reading::got_at))]
    fn got(&mut self) -> Result<Name, ParseError>
        ensures { Gives (λ channel. (channel, self.new)) result (got_at self.old) }
    {
        self.word(Keyword::Get)?;
        let channel = self.name()?;
        self.symbol(Symbol::Semicolon)?;
        Ok(channel)
    }

    // The value of an assignment, past the `=`.
    #[tactic(auto, unfolding(crate::specs::Reading::assigned_at))]
    fn assigned(&mut self, edition: Edition, left: usize) -> Result<ExprText, ParseError>
        ensures { Gives (λ e. (expr_tree e, self.new)) result (assigned_at edition left self.old) }
    {
        let value = self.expr(edition, left)?;
        self.symbol(Symbol::Semicolon)?;
        Ok(value)
    }

    // A statement that begins with a name.
    #[tactic(auto, unfolding(crate::specs::Reading::named_at))]
    fn named(&mut self, edition: Edition, left: usize) -> Result<StatementText, ParseError>
        ensures { Gives (λ s. (then_tree s NothingTree, self.new)) result (named_at edition left self.old) }
    {
        let variable = self.name()?;
        self.symbol(Symbol::Assign)?;
        if self.begins_with_word(Keyword::Get) {
            let channel = self.got()?;
            return Ok(StatementText::Get { variable, channel });
        }
        let value = self.assigned(edition, left)?;
        Ok(StatementText::Assign { variable, value })
    }

    #[tactic(auto, unfolding(crate::specs::Reading::put_at))]
    fn put(&mut self, edition: Edition, left: usize) -> Result<StatementText, ParseError>
        ensures { Gives (λ s. (then_tree s NothingTree, self.new)) result (put_at edition left self.old) }
    {
        self.word(Keyword::Put)?;
        let value = self.expr(edition, left)?;
        self.word(Keyword::To)?;
        let channel = self.name()?;
        self.symbol(Symbol::Semicolon)?;
        Ok(StatementText::Put { value, channel })
    }

    #[tactic(auto, unfolding(crate::specs::Reading::stop_at))]
    fn stop(&mut self) -> Result<StatementText, ParseError>
        ensures { Gives (λ s. (then_tree s NothingTree, self.new)) result (stop_at self.old) }
    {
        self.word(Keyword::Stop)?;
        self.symbol(Symbol::Semicolon)?;
        Ok(StatementText::Stop)
    }

    // The statements behind `else`, which are none where there is none.
    #[cycle(statement)]
    #[tactic(auto, unfolding(crate::specs::Reading::else_at))]
    fn otherwise(&mut self, edition: Edition, left: usize) -> Result<Vec<StatementText>, ParseError>
        ensures { Gives (λ v. (block_tree v.items, self.new)) result (else_at edition Ranged left self.old) }
    {
        if !self.begins_with_word(Keyword::Else) {
            return Ok(Vec::new(self.alloc));
        }
        self.word(Keyword::Else)?;
        self.block(edition, left)
    }

    #[cycle(statement)]
    #[tactic(auto, unfolding(crate::specs::Reading::if_at, crate::specs::Reading::else_at))]
    fn conditional(&mut self, edition: Edition, left: usize) -> Result<StatementText, ParseError>
        ensures { Gives (λ s. (then_tree s NothingTree, self.new)) result (if_at edition Ranged left self.old) }
    {
        self.word(Keyword::If)?;
        let test = self.expr(edition, left)?;
        let first = self.block(edition, left)?;
        let second = self.otherwise(edition, left)?;
        Ok(StatementText::If {
            test,
            first,
            second,
        })
    }

    #[cycle(statement)]
    #[tactic(auto, unfolding(crate::specs::Reading::repeat_at))]
    fn repeat(&mut self, edition: Edition, left: usize) -> Result<StatementText, ParseError>
        ensures { Gives (λ s. (then_tree s NothingTree, self.new)) result
            (repeat_at edition Ranged left self.old) }
    {
        let line = self.word_on(Keyword::Repeat)?;
        let times = self.count()?;
        let body = self.block(edition, left)?;
        Ok(StatementText::Repeat { times, line, body })
    }

    // A statement with blocks. The first edition knows no word `repeat`.
    #[cycle(statement)]
    #[tactic(auto, unfolding(crate::specs::Reading::nested_at, crate::specs::Reading::repeat_at, crate::specs::Reading::if_at))]
    fn nested(&mut self, edition: Edition, left: usize) -> Result<StatementText, ParseError>
        ensures { Gives (λ s. (then_tree s NothingTree, self.new)) result
            (nested_at edition Ranged left self.old) }
    {
        match edition {
            Edition::First => self.conditional(edition, left),
            Edition::Second => {
                if self.begins_with_word(Keyword::Repeat) {
                    self.repeat(edition, left)
                } else {
                    self.conditional(edition, left)
                }
            }
        }
    }

    #[cycle(statement)]
    #[tactic(auto, unfolding(crate::specs::Reading::statement_at, crate::specs::Reading::nested_at, crate::specs::Reading::repeat_at, crate::specs::Reading::if_at))]
    fn statement(&mut self, edition: Edition, left: usize) -> Result<StatementText, ParseError>
        ensures { Gives (λ s. (then_tree s NothingTree, self.new)) result
            (statement_at edition Ranged left self.old) }
    {
        if self.begins_with_name() {
            self.named(edition, left)
        } else if self.begins_with_word(Keyword::Put) {
            self.put(edition, left)
        } else if self.begins_with_word(Keyword::Stop) {
            self.stop()
        } else {
            self.nested(edition, left)
        }
    }

    fn begins_with_nested(&self, edition: Edition) -> bool
        ensures { result ≡ begins (starts_nested edition) self.now }
    {
        match edition {
            Edition::First => self.begins_with_word(Keyword::If),
            Edition::Second => {
                self.begins_with_word(Keyword::Repeat) || self.begins_with_word(Keyword::If)
            }
        }
    }

    fn begins_with_statement(&self, edition: Edition) -> bool
        ensures { result ≡ begins (starts_statement edition) self.now }
    {
        self.begins_with_name()
            || self.begins_with_word(Keyword::Put)
            || self.begins_with_word(Keyword::Stop)
            || self.begins_with_nested(edition)
    }

    #[cycle(statement)]
    #[tactic(auto, unfolding(crate::specs::Reading::statements_at))]
    fn statements(
        &mut self,
        edition: Edition,
        left: usize,
    ) -> Result<Vec<StatementText>, ParseError>
        ensures { Gives (λ v. (block_tree v.items, self.new)) result
            (statements_at edition Ranged left self.old) }
    {
        let mut statements = Vec::new(self.alloc);
        while self.begins_with_statement(edition) {
            let statement = self.statement(edition, left)?;
            statements.push(statement)?;
        }
        Ok(statements)
    }

    #[cycle(statement)]
    fn block(&mut self, edition: Edition, left: usize) -> Result<Vec<StatementText>, ParseError>
        ensures { Gives (λ v. (block_tree v.items, self.new)) result (block_at edition Ranged left self.old) }
    {
        self.opening(Symbol::LeftBrace, left)?;
        let statements = self.statements(edition, left - 1)?;
        self.symbol(Symbol::RightBrace)?;
        Ok(statements)
    }

    // What follows the `=` of a variable's first value.
    #[tactic(auto, unfolding(crate::specs::Reading::value_at))]
    fn value(&mut self) -> Result<i64, ParseError>
        ensures { Gives (λ v. (v, self.new)) result (value_at self.old) }
    {
        if self.begins_with_symbol(Symbol::Minus) {
            self.symbol(Symbol::Minus)?;
            let number = self.number()?;
            return Ok(-(number.number as i64));
        }
        let number = self.number()?;
        Ok(number.number as i64)
    }

    #[tactic(auto, unfolding(crate::specs::Reading::initial_at))]
    fn initial(&mut self) -> Result<i64, ParseError>
        ensures { Gives (λ v. (v, self.new)) result (initial_at self.old) }
    {
        if !self.begins_with_symbol(Symbol::Assign) {
            return Ok(0);
        }
        self.symbol(Symbol::Assign)?;
        self.value()
    }

    #[tactic(auto, unfolding(crate::specs::Reading::variable_at))]
    fn variable(&mut self) -> Result<VariableText, ParseError>
        ensures { Gives (λ v. (v, self.new)) result (variable_at self.old) }
    {
        let line = self.word_on(Keyword::Var)?;
        let name = self.name()?;
        let initial = self.initial()?;
        self.symbol(Symbol::Semicolon)?;
        Ok(VariableText {
            name,
            initial,
            line,
        })
    }

    #[tactic(auto, unfolding(crate::specs::Reading::variables_at))]
    fn variables(&mut self) -> Result<Vec<VariableText>, ParseError>
        ensures { Gives (λ v. (v.items, self.new)) result (variables_at self.old) }
    {
        let mut variables = Vec::new(self.alloc);
        while self.begins_with_word(Keyword::Var) {
            let variable = self.variable()?;
            variables.push(variable)?;
        }
        Ok(variables)
    }

    // The loop, if there is one.
    #[tactic(auto, unfolding(crate::specs::Reading::loop_at))]
    fn repeated(&mut self, edition: Edition, left: usize) -> Result<Option<LoopText>, ParseError>
        ensures { Gives (λ l. (repeated_tree l, self.new)) result (loop_at edition Ranged left self.old) }
    {
        if !self.begins_with_word(Keyword::Loop) {
            return Ok(None);
        }
        let line = self.word_on(Keyword::Loop)?;
        let body = self.block(edition, left)?;
        Ok(Some(LoopText { body, line }))
    }

    // The head of a process, up to its brace.
    #[tactic(auto, unfolding(crate::specs::Reading::head_at))]
    fn head(&mut self) -> Result<Head, ParseError>
        ensures { Gives (λ h. (head_tree h, self.new)) result (head_at self.old) }
    {
        let line = self.word_on(Keyword::Process)?;
        let name = self.name()?;
        self.word(Keyword::On)?;
        let node = self.number()?;
        self.symbol(Symbol::LeftBrace)?;
        Ok(Head { line, name, node })
    }

    #[tactic(auto, unfolding(crate::specs::Reading::process_at))]
    fn process(&mut self, edition: Edition, left: usize) -> Result<ProcessText, ParseError>
        ensures { Gives (λ p. (process_tree p, self.new)) result (process_at edition Ranged left self.old) }
    {
        let head = self.head()?;
        let variables = self.variables()?;
        let prelude = self.statements(edition, left)?;
        let repeated = self.repeated(edition, left)?;
        self.symbol(Symbol::RightBrace)?;
        Ok(ProcessText {
            name: head.name,
            node: head.node,
            variables,
            prelude,
            repeated,
            line: head.line,
        })
    }

    #[tactic(auto, unfolding(crate::specs::Reading::channel_at))]
    fn channel(&mut self, role: Role) -> Result<ChannelText, ParseError>
        ensures { Gives (λ c. (c, self.new)) result (channel_at role self.old) }
    {
        let line = self.word_on(first_word(role))?;
        let name = self.name()?;
        self.symbol(Symbol::Semicolon)?;
        Ok(ChannelText { role, name, line })
    }

    #[tactic(auto, unfolding(crate::specs::Reading::declaration_at))]
    fn declaration(&mut self, edition: Edition, left: usize) -> Result<Declaration, ParseError>
        ensures { Gives (λ d. (declaration_tree d, self.new)) result
            (declaration_at edition Ranged left self.old) }
    {
        if self.begins_with_word(Keyword::Process) {
            return Ok(Declaration::Process(self.process(edition, left)?));
        }
        if self.begins_with_word(Keyword::Input) {
            return Ok(Declaration::Channel(self.channel(Role::Input)?));
        }
        if self.begins_with_word(Keyword::Output) {
            return Ok(Declaration::Channel(self.channel(Role::Output)?));
        }
        Ok(Declaration::Channel(self.channel(Role::Inner)?))
    }

    fn begins_with_declaration(&self) -> bool
        ensures { result ≡ begins starts_declaration self.now }
    {
        self.begins_with_word(Keyword::Process)
            || self.begins_with_word(Keyword::Input)
            || self.begins_with_word(Keyword::Output)
            || self.begins_with_word(Keyword::Chan)
    }

    #[tactic(auto, unfolding(crate::specs::Reading::declarations_at))]
    fn declarations(
        &mut self,
        edition: Edition,
        left: usize,
    ) -> Result<Vec<Declaration>, ParseError>
        ensures { Gives (λ v. (map declaration_tree v.items, self.new)) result
            (declarations_at edition Ranged left self.old) }
    {
        let mut declarations = Vec::new(self.alloc);
        while self.begins_with_declaration() {
            let declaration = self.declaration(edition, left)?;
            declarations.push(declaration)?;
        }
        Ok(declarations)
    }

    // The number of this edition.
    #[tactic(auto, unfolding(crate::specs::Reading::edition_number_at))]
    fn edition_number(&mut self, edition: u64) -> Result<(), ParseError>
        ensures { Gives (λ _. (tt, self.new)) result (edition_number_at edition self.old) }
    {
        let number = self.number()?;
        if number.number != edition {
            return Err(ParseError::Stuck(Stuck::At { line: number.line }));
        }
        Ok(())
    }

    // What stands behind the first word of a text of this edition.
    #[tactic(auto, unfolding(crate::specs::Reading::edition_at))]
    fn edition(&mut self, edition: Edition) -> Result<NetText, ParseError>
        ensures { Gives (λ n. (net_tree n, self.new)) result
            (edition_at edition Ranged MAX_NESTING self.old) }
    {
        self.edition_number(number_of(edition))?;
        self.symbol(Symbol::Semicolon)?;
        let declarations = self.declarations(edition, MAX_NESTING)?;
        Ok(NetText { declarations })
    }

    #[tactic(auto, unfolding(crate::specs::Reading::text_at))]
    fn text(&mut self) -> Result<NetText, ParseError>
        ensures { Gives (λ n. (net_tree n, self.new)) result
            (text_at Ranged MAX_NESTING self.old) }
    {
        self.word(Keyword::Kahn)?;
        if self.begins_with_number(number_of(Edition::First)) {
            return self.edition(Edition::First);
        }
        self.edition(Edition::Second)
    }

    /// The text that the tokens are, all of them.
    #[tactic(auto, unfolding(crate::specs::Reading::whole_text))]
    pub(crate) fn whole(&mut self) -> Result<NetText, ParseError>
        ensures { Gives net_tree result (whole_text Ranged MAX_NESTING self.old) }
    {
        let text = self.text()?;
        match self.rest {
            [] => Ok(text),
            [token, ..] => Err(stuck_at(token)),
        }
    }
}
