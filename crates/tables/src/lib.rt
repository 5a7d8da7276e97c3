// Tables: a table is 64 places of 32 bytes, lent, with a count beside it: C lends the bytes and keeps the count in the bench's state. What a place
// holds is not looked at here.
#![tactic(auto)]

mod change;
mod shown;

pub use change::{clear, take_out};
pub use shown::{Way, show, show_refusal};
