//! The texts of a network: tokens, the tree of a network's text, and the lines of an inputs text.
#![tactic(auto)]

mod edition;
mod fault;
mod inputs;
mod lexer;
mod limits;
mod name;
mod parser;
mod raw_inputs;
mod text;
mod token;
mod tree;

pub use fault::TextFault;
pub use inputs::parse_inputs;
pub use limits::{MAX_INPUTS_BYTES, MAX_NAME_BYTES, MAX_NESTING, MAX_TEXT_BYTES};
pub use name::Name;
pub use raw_inputs::{InputLine, RawInputs};
pub use text::{parse, tokens};
pub use token::{Keyword, Symbol, Token, TokenKind};
pub use tree::{
    ChannelText, Declaration, ExprText, LinkText, LoopText, NetText, NodeText, ProcessText, Role,
    StatementText, VariableText,
};
