// The controller: what runs in its box. What it does goes by its mode and the number that is next (turns, decides); a thin layer moves its
// numbers (acts), and its fields are read into its mode and back (fields). The message of the packet in stands beside. No function here is an entry: the
// crates above call them, and docs/PROMISES.md lists why.
#![tactic(auto)]

pub mod acts;
pub mod decides;
pub mod fields;
pub mod turns;

use ends::ToConsole;
use wire::{I, J};

// The mode, with the numbers that are set in it.
#[derive(Clone, Copy)]
pub enum Mode {
    Idle,
    Accept(J, I),
    Ack(I),
}

pub type Turn = ends::Turn<Mode, ToConsole>;

pub type End = ends::End<Mode>;

pub type Acted = ends::Acted<Mode, ToConsole>;

pub type Decided = ends::Decided<Mode, ToConsole>;
