//! A name as it stands in a text.

ghost use Rattle.std.specs.Prelude.{◌≡◌, ◌↔◌, IsTrue, string_bytes};

use std::marker::Model;

/// A name, and the line on which it stands.
#[derive(Debug)]
pub struct Name {
    text: String,
    line: usize,
}

// Written out, since each crate above would go through a derived one again.
impl Drop for Name {
    fn drop(self) {
        let Self { text, line } = self;
    }
}

impl Model for Name {
    ghost use Rattle.std.specs.Prelude.{string_bytes};
    ghost use Rattle.net_text.specs.Names.{NameTree};

    ghost Value = { NameTree };

    ghost view = { λ n. record { text = string_bytes n.text; line = n.line } };
}

impl Name {
    /// A name of these letters that stands on this line. Nothing is checked: `parse` makes names of tokens.
    pub fn new(text: String, line: usize) -> Self
        ensures { result ≡ record { text = string_bytes text; line = line } }
    {
        Name { text, line }
    }

    /// Its letters, digits and `_`.
    pub fn as_str(&self) -> &str
        ensures { result.now ≡ self.now.text }
    {
        self.text.as_str()
    }

    /// The line on which it stands, from 1.
    pub fn line(&self) -> usize
        ensures { result ≡ self.now.line }
    {
        self.line
    }

    /// Whether two names read alike, wherever they stand.
    pub fn is_same(&self, other: &Name) -> bool
        ensures { IsTrue result ↔ (self.now.text ≡ other.now.text) }
    {
        self.as_str() == other.as_str()
    }
}
