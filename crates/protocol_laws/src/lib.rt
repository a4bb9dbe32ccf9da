//! What follows from the definitions of `protocol`: a step of a world keeps what is true of it, what leaves is right and covered, and the
//! recovery line never falls back. There is no code.
#![tactic(auto)]
