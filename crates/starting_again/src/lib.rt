//! What holds of a world that starts again from the records and the outlets of an earlier one, and what may lie there for it to
//! start from. There is no code: the functions do nothing, and that their contracts are proved is what they are for.
#![tactic(auto)]

mod laws;

pub use laws::{leaving_law, moment_law, starting_again_law};
