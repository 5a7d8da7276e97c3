// A controller in C's hands: its state is 23 bytes that the caller keeps.
ghost use Rattle.std.specs.Prelude.{◌≡◌, [], ◌∷◌, ◌++◌, length};
ghost use Rattle.wire.specs.Number.{bytes_of};
ghost use Rattle.ends_controller.specs.Fields.{fresh_controller, controller_ok};
ghost use Rattle.boundary.specs.State.{flag, length_refusal, written, start_refusal, started, state_record_refusal, state_record_put};
ghost use Rattle.boundary.specs.Controller.{controller_bytes, fields_at, no_controller, controller_at};
ghost use Rattle.boundary.specs.Controller.{controller_record, start_at, downed_bytes, delivered_to, controller_state_step};

use crate::state::{
    State, changed, keep, number_at, numbers_at, put_numbers, put_record, start, start_in, told,
    told_refusal, write,
};
use ends::Report;
use ends_controller::fields;
use ends_controller::fields::Controller;
use numbers::Numbers;
use wire::{I, J, NumberRecord};

#[tactic(auto, unfolding(crate::specs::Controller::fields_at))]
fn fields_at(s: &[u8]) -> Controller
    requires { length s.now ≡ 23 }
    ensures { result ≡ fields_at s.now }
{
    Controller {
        numbers: numbers_at(s),
        j: J(number_at(s, 10)),
        i: I(number_at(s, 14)),
        last: I(number_at(s, 18)),
        up: s[22] == 1,
    }
}

// No controller: a j with no i, which every entry refuses as not well formed.
pub(crate) fn no_controller() -> Controller
    ensures { result ≡ no_controller }
{
    Controller {
        j: J(1),
        ..fields::downed_controller(Numbers::fresh(0))
    }
}

#[tactic(auto, using(ground::proofs::Cases::cases), unfolding(crate::specs::Controller::controller_at, crate::specs::Controller::is_state, ground::specs::Choice::chosen))]
pub(crate) fn controller_at(s: &[u8]) -> Controller
    ensures { result ≡ controller_at s.now }
{
    if s.len() != 23 || s[22] > 1 {
        return no_controller();
    }
    fields_at(s)
}

// Bytes 14 to 22 of a state.
fn put_rest(part: &mut [u8], c: Controller)
    requires { length part.old ≡ 9 }
    ensures { part.new ≡ bytes_of 4 c.i.0 ++ (bytes_of 4 c.last.0 ++ (flag c.up ∷ [])) }
{
    part[..4].copy_from_slice(&wire::big_endian(c.i.0));
    part[4..8].copy_from_slice(&wire::big_endian(c.last.0));
    part[8] = u8::from(c.up);
}

impl State for Controller {
    ghost LENGTH = { 23 };

    ghost bytes = { controller_bytes };

    const LENGTH: usize = 23;

    fn put(self, state: &mut [u8]) {
        put_numbers(&mut state[..10], self.numbers);
        state[10..14].copy_from_slice(&wire::big_endian(self.j.0));
        put_rest(&mut state[14..], self);
    }
}

// Up and idle, with any last used.
pub fn nooseless_controller_fresh(state: &mut [u8], last_used: u32) -> u8
    ensures { (result ≡ length_refusal 23 state.old) × (state.new ≡ written 23 state.old (controller_bytes (fresh_controller (record { 0 = last_used })))) }
{
    told_refusal(write(state, fields::fresh_controller(I(last_used))))
}

// After power loss: down, with the numbers of the controller's number record, of either version.
#[tactic(auto, unfolding(crate::specs::State::start_refusal, crate::specs::State::started, ground::specs::Choice::chosen))]
pub fn nooseless_controller_downed(state: &mut [u8], record: &[u8]) -> u8
    ensures { (result ≡ start_refusal 23 state.old (start_at «record».now)) × (state.new ≡ started 23 state.old (start_at «record».now) (downed_bytes «record».now)) }
{
    told_refusal(start(state, start_in(2, record).map(fields::downed_controller)))
}

// The number record to keep where a step told that it changed.
#[tactic(auto, unfolding(ends_controller::specs::Fields::controller_read, ground::specs::Choice::chosen))]
pub fn nooseless_controller_record(state: &[u8], out: &mut [u8]) -> u8
    ensures { (result ≡ state_record_refusal (controller_ok (controller_at state.now)) (controller_record (controller_at state.now)) out.old) × (out.new ≡ state_record_put (controller_ok (controller_at state.now)) (controller_record (controller_at state.now)) out.old) }
{
    let c = controller_at(state);
    let kept = NumberRecord::Controller(I(c.numbers.reserved), c.numbers.block);
    told_refusal(put_record(out, fields::read_controller(c).is_some(), kept))
}

pub(crate) fn hand_over(report: Report, message: [u8; 16], out: &mut [u8; 16])
    ensures { out.new ≡ delivered_to report message out.old }
{
    if let Report::Delivered = report {
        *out = message;
    }
}

// O K R X Y of a controller run alone.
pub fn nooseless_controller_step(
    state: &mut [u8],
    letter: u8,
    packet: &[u8],
    reply: &mut [u8],
    delivered: &mut [u8; 16],
) -> u8
    ensures { record { told = result; state = state.new; reply = reply.new; delivered = delivered.new } ≡ controller_state_step state.old letter packet.now reply.old delivered.old }
{
    let c = controller_at(state);
    let done = alone::controller::step(c, letter, packet, reply);
    keep(state, done.report, done.controller);
    hand_over(done.report, done.message, delivered);
    told(
        done.report,
        done.sent,
        changed(c.numbers, done.controller.numbers),
    )
}
