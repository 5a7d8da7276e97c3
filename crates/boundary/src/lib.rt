// The boundary to C. Every entry takes any bytes; a refusal leaves every lent buffer byte for byte. What an entry answers is the header's byte, 0 or a
// refusal's number, and kinds and ends are the header's numbers. Bytes that are no state become one that refusal 2 is for, so that the order of refusals
// is the bench's and the ends' own.
#![tactic(auto)]

pub mod benches;
pub mod console;
pub mod controller;
pub mod lists;
pub mod packets;
pub mod records;
mod state;
pub mod version;
