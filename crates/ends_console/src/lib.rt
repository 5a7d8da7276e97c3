// The console: what runs in its box. What it does goes by its mode and the number that is next (turns, refusals, decides); a thin layer moves its numbers
// (acts), and its fields are read into its mode and back (fields). The message that it holds stands beside, and so does its ack (ack). No function here is an entry: the crates
// above call them, and docs/PROMISES.md lists why.
#![tactic(auto)]

pub mod ack;
pub mod acts;
pub mod decides;
pub mod fields;
pub mod refusals;
pub mod turns;

use ends::ToController;
use wire::{I, J};

// The mode, with the number that is set in it.
#[derive(Clone, Copy)]
pub enum Mode {
    Idle,
    NeedI(J),
    Send(I),
}

pub type Turn = ends::Turn<Mode, ToController>;

pub type End = ends::End<Mode>;

pub type Acted = ends::Acted<Mode, ToController>;

pub type Decided = ends::Decided<Mode, ToController>;
