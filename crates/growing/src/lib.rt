//! What holds of a world whose inputs grow: items come at the end of an input, while the world stands between two events. There is
//! no code: the functions do nothing, and that their contracts are proved is what they are for.
#![tactic(auto)]

mod laws;

pub use laws::{adding_law, feeding_law, going_on_law, growing_law, quiet_law};
