// Channels: a channel is a table that holds packets of one direction, and a count, lent apart as in tables.
#![tactic(auto)]

mod change;
mod check;

pub use change::add;
pub use check::{head_at, packet_at, table_ok};
