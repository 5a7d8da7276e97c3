// A console as document 01 has it: fields, 0 for none. They stay flat, flag and message apart: any values may be handed in, and those that contradict
// each other are refusal 2.
ghost use Rattle.std.specs.Prelude.{◌≡◌, false};
ghost use Rattle.ground.specs.Cell.{spaces};
ghost use Rattle.ends_console.specs.declared.Mode.TheVariants as in_mode;
ghost use Rattle.ends.specs.AsRules.{end_refusal};
ghost use Rattle.ends_console.specs.Fields.{mode_read, own_or_none, console_ok, console_read, console_read_refusal, console_fields, console_with, fresh_console, downed_console};

use crate::{End, Mode};
use numbers::Numbers;
use wire::{I, J};

#[derive(Clone, Copy)]
pub struct Console {
    pub numbers: Numbers,
    pub held: bool,
    pub message: [u8; 16],
    pub j: J,
    pub last: I,
    pub up: bool,
    pub ack: bool, // true is OK, false is lost
}

// The mode that the variables stand for, where they fit; whether j is one of the end's own numbers is not looked at here.
#[tactic(auto, using(ground::proofs::Cases::cases), unfolding(crate::specs::Fields::mode_read, ground::specs::Choice::chosen, ground::specs::Cell::is_message))]
fn read_mode(held: bool, message: &[u8; 16], j: J, last: I) -> Option<Mode>
    ensures { result ≡ mode_read held message.now j last }
{
    match (held, j == J(0), last == I(0)) {
        (false, true, true) if ground::all_are(message, 0x20) => Some(Mode::Idle),
        (true, false, true) if ground::all_cells(message) => Some(Mode::NeedI(j)),
        (true, true, false) if ground::all_cells(message) => Some(Mode::Send(last)),
        _ => None,
    }
}

// A J here, an I in a controller: one function for both would let them be mixed.
#[tactic(auto, using(ground::proofs::Cases::cases), unfolding(ground::specs::Choice::chosen))]
fn own_or_none(own: Numbers, j: J) -> bool
    ensures { result ≡ own_or_none own j }
{
    j == J(0) || own.is_used(j.0)
}

// A console's end, where its fields are well formed; none is refusal 2.
pub fn read_console(c: Console) -> Option<End>
    ensures { (result ≡ console_read c) × (console_read_refusal result ≡ end_refusal (console_ok c)) }
{
    if !c.numbers.is_sound() {
        return None;
    }
    let mode = read_mode(c.held, &c.message, c.j, c.last)?;
    if !own_or_none(c.numbers, c.j) {
        return None;
    }
    Some(End {
        numbers: c.numbers,
        mode,
        up: c.up,
    })
}

// The fields of an end that holds `message`, if it holds one, with its ack.
pub fn console_of(e: End, ack: bool, message: [u8; 16]) -> Console
    ensures { result ≡ console_fields e ack message }
{
    let (held, j, last) = match e.mode {
        Mode::Idle => (false, J(0), I(0)),
        Mode::NeedI(j) => (true, j, I(0)),
        Mode::Send(last) => (true, J(0), last),
    };
    Console {
        numbers: e.numbers,
        held,
        message: if held { message } else { [0x20; 16] },
        j,
        last,
        up: e.up,
        ack,
    }
}

// Idle, with the ack lost.
fn idle(numbers: Numbers, up: bool) -> Console
    ensures { result ≡ console_with numbers in_mode.Idle up false spaces }
{
    Console {
        numbers,
        held: false,
        message: [0x20; 16],
        j: J(0),
        last: I(0),
        up,
        ack: false,
    }
}

// Up and idle; the ack is lost at first.
pub fn fresh_console(used: J) -> Console
    ensures { result ≡ fresh_console used }
{
    idle(Numbers::fresh(used.0), true)
}

// After power loss: down, with the numbers of its number record, and the ack lost; V brings it back.
pub fn downed_console(kept: Numbers) -> Console
    ensures { result ≡ downed_console kept }
{
    idle(kept, false)
}
