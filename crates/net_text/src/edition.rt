//! The editions of the language, one grammar for each.

/// An edition of the language. The second has repetitions, `div` and `mod` besides.
#[derive(Clone, Copy)]
pub(crate) enum Edition {
    First,
    Second,
}
