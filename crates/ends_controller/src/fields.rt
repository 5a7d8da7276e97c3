// A controller as document 01 has it: fields, 0 for none. They stay flat, as a console's do.
ghost use Rattle.std.specs.Prelude.{◌≡◌};
ghost use Rattle.ends.specs.AsRules.{end_refusal};
ghost use Rattle.ends_controller.specs.declared.Mode.TheVariants as in_mode;
ghost use Rattle.ends_controller.specs.Fields.{mode_read, own_or_none, controller_ok, controller_read, controller_read_refusal, controller_fields, controller_with, fresh_controller, downed_controller};

use crate::{End, Mode};
use numbers::Numbers;
use wire::{I, J};

#[derive(Clone, Copy)]
pub struct Controller {
    pub numbers: Numbers,
    pub j: J,
    pub i: I,
    pub last: I,
    pub up: bool,
}

// The mode that the variables stand for, where they fit; whether i or last is one of the end's own numbers is not looked at here.
#[tactic(auto, using(ground::proofs::Cases::cases), unfolding(crate::specs::Fields::mode_read, ground::specs::Choice::chosen))]
fn read_mode(j: J, i: I, last: I) -> Option<Mode>
    ensures { result ≡ mode_read j i last }
{
    match (j == J(0), i == I(0), last == I(0)) {
        (true, true, true) => Some(Mode::Idle),
        (false, false, true) => Some(Mode::Accept(j, i)),
        (true, true, false) => Some(Mode::Ack(last)),
        _ => None,
    }
}

// An I here, a J in a console.
#[tactic(auto, using(ground::proofs::Cases::cases), unfolding(ground::specs::Choice::chosen))]
fn own_or_none(own: Numbers, i: I) -> bool
    ensures { result ≡ own_or_none own i }
{
    i == I(0) || own.is_used(i.0)
}

// A controller's end, where its fields are well formed; none is refusal 2.
pub fn read_controller(c: Controller) -> Option<End>
    ensures { (result ≡ controller_read c) × (controller_read_refusal result ≡ end_refusal (controller_ok c)) }
{
    if !c.numbers.is_sound() {
        return None;
    }
    let mode = read_mode(c.j, c.i, c.last)?;
    if !own_or_none(c.numbers, c.i) {
        return None;
    }
    if !own_or_none(c.numbers, c.last) {
        return None;
    }
    Some(End {
        numbers: c.numbers,
        mode,
        up: c.up,
    })
}

pub fn controller_of(e: End) -> Controller
    ensures { result ≡ controller_fields e }
{
    let (j, i, last) = match e.mode {
        Mode::Idle => (J(0), I(0), I(0)),
        Mode::Accept(j, i) => (j, i, I(0)),
        Mode::Ack(last) => (J(0), I(0), last),
    };
    Controller {
        numbers: e.numbers,
        j,
        i,
        last,
        up: e.up,
    }
}

fn idle(numbers: Numbers, up: bool) -> Controller
    ensures { result ≡ controller_with numbers in_mode.Idle up }
{
    Controller {
        numbers,
        j: J(0),
        i: I(0),
        last: I(0),
        up,
    }
}

// Up and idle.
pub fn fresh_controller(used: I) -> Controller
    ensures { result ≡ fresh_controller used }
{
    idle(Numbers::fresh(used.0), true)
}

// After power loss: down, with the numbers of its number record; Y brings it back.
pub fn downed_controller(kept: Numbers) -> Controller
    ensures { result ≡ downed_controller kept }
{
    idle(kept, false)
}
