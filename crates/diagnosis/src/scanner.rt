//! A network's text, piece by piece.

use crate::pieces::{
    Piece, Placed, digits_len, numeral_piece, starts_word, symbol_piece, word_len, word_piece,
};
use crate::places::{after, rest, word};

fn is_white(byte: u8) -> bool {
    byte == b' ' || byte == b'\t' || byte == b'\r' || byte == b'\n'
}

/// A text, and how far it was read.
#[derive(Clone, Copy)]
pub(crate) struct Scanner<'a> {
    text: &'a str,
    place: usize,
    line: usize,
}

impl<'a> Scanner<'a> {
    /// The beginning of a text.
    pub(crate) fn new(text: &'a str) -> Scanner<'a> {
        Scanner {
            text,
            place: 0,
            line: 1,
        }
    }

    // Goes on behind white space and comments. Gives the place of the comment in which the text ends, if it does.
    fn skip_gap(&mut self) -> Option<usize> {
        let bytes = self.text.as_bytes();
        let mut comment = None;
        let mut line = self.line;
        for (count, byte) in rest(bytes, self.place).iter().enumerate() {
            if *byte == b'\n' {
                line = after(line, 1);
                comment = None;
            } else if comment.is_none() && *byte == b'#' {
                comment = Some(after(self.place, count));
            } else if comment.is_none() && !is_white(*byte) {
                self.place = after(self.place, count);
                self.line = line;
                return None;
            }
        }
        self.place = bytes.len();
        self.line = line;
        comment
    }

    // What stands at the place, and how long it is.
    fn piece(&self) -> (Piece, usize) {
        let behind = rest(self.text.as_bytes(), self.place);
        let Some(first) = behind.first() else {
            return (Piece::End, 0);
        };
        if starts_word(*first) {
            let len = word_len(behind);
            return (
                word_piece(word(self.text, self.place, after(self.place, len))),
                len,
            );
        }
        if first.is_ascii_digit() {
            let len = digits_len(behind);
            return (
                numeral_piece(word(self.text, self.place, after(self.place, len))),
                len,
            );
        }
        symbol_piece(behind)
    }

    /// The next piece. The text's end stands on the line after the last line feed: behind that line, or where a comment begins on it.
    pub(crate) fn next_piece(&mut self) -> Placed {
        let comment = self.skip_gap();
        let (piece, len) = self.piece();
        let start = match comment {
            Some(comment) => comment,
            None => self.place,
        };
        let end = after(self.place, len);
        self.place = end;
        Placed {
            piece,
            start,
            end,
            line: self.line,
        }
    }
}
