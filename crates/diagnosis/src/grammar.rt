//! Which pieces of a network's text may follow one another, and what is expected where one can't.

use crate::pieces::{Piece, is_arithmetic, is_comparison};
use kahn_net::MAX_TIMES;
use net_text::{Keyword, MAX_NESTING, Symbol};

/// What is expected next.
#[derive(Clone, Copy, PartialEq, Eq)]
pub(crate) enum Next {
    Kahn,
    Edition,
    EditionEnd,
    Declaration,
    ChannelName,
    ChannelEnd,
    ProcessName,
    On,
    Node,
    ProcessOpen,
    Body,
    VariableName,
    VariableEnd,
    Initial,
    InitialNumber,
    InitialEnd,
    Statement,
    Assign,
    Value,
    Factor,
    Operator,
    ChannelUsed,
    StatementEnd,
    Times,
    BlockOpen,
    Else,
    ProcessClose,
}

/// What ends an expression: the semicolon of an assignment, the `to` of a put, or the brace of an `if`.
#[derive(Clone, Copy, PartialEq, Eq)]
pub(crate) enum Ending {
    Semicolon,
    To,
    Brace,
}

/// What may be open: blocks, parentheses, and minus signs.
#[derive(Clone, Copy, PartialEq, Eq)]
enum Open {
    First,
    Second,
    Again,
    Loop,
    Minus,
    // Whether the expression round it has a comparison already.
    Parenthesis { compared: bool },
}

/// Why a piece can't stand where it does.
#[derive(Clone, Copy, PartialEq, Eq)]
pub(crate) enum Stop {
    Unexpected,
    TooDeep,
    /// The number of a repetition isn't from 1 to 1000.
    Times,
}

/// What stood before a place of a text, as far as it says what may follow.
#[derive(Clone, Copy)]
pub(crate) struct Grammar {
    pub next: Next,
    pub is_second_edition: bool,
    /// What ends the expression that is open outside of all parentheses.
    pub ending: Ending,
    /// Whether the innermost expression has a comparison already.
    pub compared: bool,
    block: Open,
    open: [Open; MAX_NESTING],
    depth: usize,
}

fn is_word(piece: Piece, word: Keyword) -> bool {
    piece == Piece::Word(word)
}

fn is_symbol(piece: Piece, symbol: Symbol) -> bool {
    piece == Piece::Symbol(symbol)
}

// What is expected behind a piece that has to be there.
fn then(is_there: bool, next: Next) -> Result<Next, Stop> {
    if is_there {
        Ok(next)
    } else {
        Err(Stop::Unexpected)
    }
}

// Behind the `;` of the edition, and of each declaration.
fn behind_declaration(piece: Piece) -> Result<Next, Stop> {
    match piece {
        Piece::Word(Keyword::Input) | Piece::Word(Keyword::Chan) | Piece::Word(Keyword::Output) => {
            Ok(Next::ChannelName)
        }
        Piece::Word(Keyword::Process) => Ok(Next::ProcessName),
        _ => Err(Stop::Unexpected),
    }
}

// Behind a variable's name.
fn behind_variable(piece: Piece) -> Result<Next, Stop> {
    match piece {
        Piece::Symbol(Symbol::Assign) => Ok(Next::Initial),
        Piece::Symbol(Symbol::Semicolon) => Ok(Next::Body),
        _ => Err(Stop::Unexpected),
    }
}

// Behind the `=` of a variable's first value.
fn behind_assign(piece: Piece) -> Result<Next, Stop> {
    match piece {
        Piece::Number(_) => Ok(Next::InitialEnd),
        Piece::Symbol(Symbol::Minus) => Ok(Next::InitialNumber),
        _ => Err(Stop::Unexpected),
    }
}

fn is_number(piece: Piece) -> bool {
    match piece {
        Piece::Number(_) => true,
        _ => false,
    }
}

impl Grammar {
    /// The beginning of a text.
    pub(crate) fn new() -> Grammar {
        Grammar {
            next: Next::Kahn,
            is_second_edition: false,
            ending: Ending::Semicolon,
            compared: false,
            block: Open::First,
            open: [Open::First; MAX_NESTING],
            depth: 0,
        }
    }

    /// Whether nothing is open but a process.
    pub(crate) fn is_outermost(&self) -> bool {
        self.depth == 0
    }

    // What was opened last.
    fn top(&self) -> Option<Open> {
        self.open.get(self.depth.checked_sub(1)?).copied()
    }

    /// Whether a parenthesis was opened last.
    pub(crate) fn is_in_parenthesis(&self) -> bool {
        match self.top() {
            Some(Open::Parenthesis { .. }) => true,
            _ => false,
        }
    }

    // Opens one more.
    fn push(&mut self, open: Open) -> Result<(), Stop> {
        if self.depth >= MAX_NESTING {
            return Err(Stop::TooDeep);
        }
        self.open[self.depth] = open;
        self.depth += 1;
        Ok(())
    }

    fn pop(&mut self) {
        self.depth = self.depth.saturating_sub(1);
    }

    // A value is whole: the minus signs in front of it end.
    fn end_value(&mut self) -> Next {
        for _ in 0..MAX_NESTING {
            if self.top() == Some(Open::Minus) {
                self.pop();
            }
        }
        Next::Operator
    }

    // The number of the edition.
    fn edition(&mut self, piece: Piece) -> Result<Next, Stop> {
        match piece {
            Piece::Number(1) => Ok(Next::EditionEnd),
            Piece::Number(2) => {
                self.is_second_edition = true;
                Ok(Next::EditionEnd)
            }
            _ => Err(Stop::Unexpected),
        }
    }

    // Begins an expression that ends so.
    fn expression(&mut self, ending: Ending) -> Next {
        self.ending = ending;
        self.compared = false;
        Next::Factor
    }

    // The end of a block, or of the process.
    fn close(&mut self) -> Next {
        let top = self.top();
        self.pop();
        match top {
            None => Next::Declaration,
            Some(Open::First) => Next::Else,
            Some(Open::Loop) => Next::ProcessClose,
            Some(_) => Next::Statement,
        }
    }

    // The beginning of a statement, or what ends a list of them.
    fn statement(&mut self, piece: Piece) -> Result<Next, Stop> {
        match piece {
            Piece::Name => Ok(Next::Assign),
            Piece::Word(Keyword::Put) => Ok(self.expression(Ending::To)),
            Piece::Word(Keyword::If) => Ok(self.expression(Ending::Brace)),
            Piece::Word(Keyword::Stop) => Ok(Next::StatementEnd),
            Piece::Word(Keyword::Repeat) if self.is_second_edition => Ok(Next::Times),
            Piece::Word(Keyword::Loop) if self.is_outermost() => {
                self.block = Open::Loop;
                Ok(Next::BlockOpen)
            }
            Piece::Symbol(Symbol::RightBrace) => Ok(self.close()),
            _ => Err(Stop::Unexpected),
        }
    }

    // What stands behind an `if`'s first block.
    fn otherwise(&mut self, piece: Piece) -> Result<Next, Stop> {
        if is_word(piece, Keyword::Else) {
            self.block = Open::Second;
            return Ok(Next::BlockOpen);
        }
        self.statement(piece)
    }

    // The number of a repetition.
    fn times(&mut self, piece: Piece) -> Result<Next, Stop> {
        match piece {
            Piece::Number(number) => {
                if number < 1 || number > MAX_TIMES as u64 {
                    return Err(Stop::Times);
                }
                self.block = Open::Again;
                Ok(Next::BlockOpen)
            }
            _ => Err(Stop::Unexpected),
        }
    }

    fn open_block(&mut self, piece: Piece, block: Open) -> Result<Next, Stop> {
        if !is_symbol(piece, Symbol::LeftBrace) {
            return Err(Stop::Unexpected);
        }
        self.push(block)?;
        Ok(Next::Statement)
    }

    // The beginning of a value.
    fn factor(&mut self, piece: Piece) -> Result<Next, Stop> {
        match piece {
            Piece::Number(_) | Piece::Name => Ok(self.end_value()),
            Piece::Symbol(Symbol::Minus) => {
                self.push(Open::Minus)?;
                Ok(Next::Factor)
            }
            Piece::Symbol(Symbol::LeftParenthesis) => {
                let compared = self.compared;
                self.push(Open::Parenthesis { compared })?;
                self.compared = false;
                Ok(Next::Factor)
            }
            _ => Err(Stop::Unexpected),
        }
    }

    // The value of an assignment, or its get.
    fn value(&mut self, piece: Piece) -> Result<Next, Stop> {
        if is_word(piece, Keyword::Get) {
            return Ok(Next::ChannelUsed);
        }
        self.compared = false;
        self.ending = Ending::Semicolon;
        self.factor(piece)
    }

    /// Whether this piece joins two values here.
    fn is_operator(&self, piece: Piece) -> bool {
        match piece {
            Piece::Word(_) => self.is_second_edition && is_arithmetic(piece),
            _ => is_arithmetic(piece) || is_comparison(piece) && !self.compared,
        }
    }

    // What ends an expression.
    fn end_expression(&mut self, piece: Piece) -> Result<Next, Stop> {
        if let Some(Open::Parenthesis { compared }) = self.top() {
            if !is_symbol(piece, Symbol::RightParenthesis) {
                return Err(Stop::Unexpected);
            }
            self.pop();
            self.compared = compared;
            return Ok(self.end_value());
        }
        match self.ending {
            Ending::Semicolon => then(is_symbol(piece, Symbol::Semicolon), Next::Statement),
            Ending::To => then(is_word(piece, Keyword::To), Next::ChannelUsed),
            Ending::Brace => self.open_block(piece, Open::First),
        }
    }

    // What stands behind a value.
    fn operator(&mut self, piece: Piece) -> Result<Next, Stop> {
        if !self.is_operator(piece) {
            return self.end_expression(piece);
        }
        if is_comparison(piece) {
            self.compared = true;
        }
        Ok(Next::Factor)
    }

    // What is expected behind this piece, within a process.
    fn within_process(&mut self, piece: Piece) -> Result<Next, Stop> {
        match self.next {
            Next::Body if is_word(piece, Keyword::Var) => Ok(Next::VariableName),
            Next::Body | Next::Statement => self.statement(piece),
            Next::Assign => then(is_symbol(piece, Symbol::Assign), Next::Value),
            Next::Value => self.value(piece),
            Next::Factor => self.factor(piece),
            Next::Operator => self.operator(piece),
            Next::ChannelUsed => then(piece == Piece::Name, Next::StatementEnd),
            Next::StatementEnd => then(is_symbol(piece, Symbol::Semicolon), Next::Statement),
            Next::Times => self.times(piece),
            Next::BlockOpen => {
                let block = self.block;
                self.open_block(piece, block)
            }
            Next::Else => self.otherwise(piece),
            Next::ProcessClose => then(is_symbol(piece, Symbol::RightBrace), Next::Declaration),
            _ => Err(Stop::Unexpected),
        }
    }

    // What is expected behind this piece.
    fn behind(&mut self, piece: Piece) -> Result<Next, Stop> {
        match self.next {
            Next::Kahn => then(is_word(piece, Keyword::Kahn), Next::Edition),
            Next::Edition => self.edition(piece),
            Next::EditionEnd | Next::ChannelEnd => {
                then(is_symbol(piece, Symbol::Semicolon), Next::Declaration)
            }
            Next::Declaration => behind_declaration(piece),
            Next::ChannelName => then(piece == Piece::Name, Next::ChannelEnd),
            Next::ProcessName => then(piece == Piece::Name, Next::On),
            Next::On => then(is_word(piece, Keyword::On), Next::Node),
            Next::Node => then(is_number(piece), Next::ProcessOpen),
            Next::ProcessOpen => then(is_symbol(piece, Symbol::LeftBrace), Next::Body),
            Next::VariableName => then(piece == Piece::Name, Next::VariableEnd),
            Next::VariableEnd => behind_variable(piece),
            Next::Initial => behind_assign(piece),
            Next::InitialNumber => then(is_number(piece), Next::InitialEnd),
            Next::InitialEnd => then(is_symbol(piece, Symbol::Semicolon), Next::Body),
            _ => self.within_process(piece),
        }
    }

    /// Goes on behind this piece, or says why it can't stand here.
    pub(crate) fn step(&mut self, piece: Piece) -> Result<(), Stop> {
        self.next = self.behind(piece)?;
        Ok(())
    }
}
