// A console in C's hands: its state is 37 bytes that the caller keeps.
ghost use Rattle.std.specs.Prelude.{◌≡◌, [], ◌∷◌, ◌++◌, length, drop};
ghost use Rattle.wire.specs.Number.{bytes_of};
ghost use Rattle.ends_console.specs.Fields.{fresh_console, console_ok};
ghost use Rattle.boundary.specs.State.{flag, length_refusal, written, start_refusal, started, state_record_refusal, state_record_put};
ghost use Rattle.boundary.specs.Console.{console_bytes, fields_at, no_console, console_at};
ghost use Rattle.boundary.specs.Console.{console_record, start_at, downed_bytes, console_state_step};

use crate::state::{
    State, changed, keep, number_at, numbers_at, put_numbers, put_record, start, start_in, told,
    told_refusal, write,
};
use ends_console::fields;
use ends_console::fields::Console;
use numbers::Numbers;
use wire::{I, J, NumberRecord};

fn message_at(s: &[u8]) -> [u8; 16]
    requires { length s.now ≡ 37 }
    ensures { result ≡ drop 21 s.now }
{
    let mut m = [0; 16];
    m.copy_from_slice(&s[21..]);
    m
}

#[tactic(auto, unfolding(crate::specs::Console::fields_at))]
fn fields_at(s: &[u8]) -> Console
    requires { length s.now ≡ 37 }
    ensures { result ≡ fields_at s.now }
{
    Console {
        numbers: numbers_at(s),
        held: s[18] == 1,
        message: message_at(s),
        j: J(number_at(s, 10)),
        last: I(number_at(s, 14)),
        up: s[19] == 1,
        ack: s[20] == 1,
    }
}

// No console: a j with no message held, which every entry refuses as not well formed.
pub(crate) fn no_console() -> Console
    ensures { result ≡ no_console }
{
    Console {
        j: J(1),
        ..fields::downed_console(Numbers::fresh(0))
    }
}

#[tactic(auto, using(ground::proofs::Cases::cases), unfolding(crate::specs::Console::console_at, crate::specs::Console::is_state, ground::specs::Choice::chosen))]
pub(crate) fn console_at(s: &[u8]) -> Console
    ensures { result ≡ console_at s.now }
{
    if s.len() != 37 || s[18] > 1 || s[19] > 1 || s[20] > 1 {
        return no_console();
    }
    fields_at(s)
}

// Bytes 10 to 20 of a state.
fn put_rest(part: &mut [u8], c: Console)
    requires { length part.old ≡ 11 }
    ensures { part.new ≡ bytes_of 4 c.j.0 ++ (bytes_of 4 c.last.0 ++ (flag c.held ∷ flag c.up ∷ flag c.ack ∷ [])) }
{
    part[..4].copy_from_slice(&wire::big_endian(c.j.0));
    part[4..8].copy_from_slice(&wire::big_endian(c.last.0));
    part[8..].copy_from_slice(&[u8::from(c.held), u8::from(c.up), u8::from(c.ack)]);
}

impl State for Console {
    ghost LENGTH = { 37 };

    ghost bytes = { console_bytes };

    const LENGTH: usize = 37;

    fn put(self, state: &mut [u8]) {
        put_numbers(&mut state[..10], self.numbers);
        put_rest(&mut state[10..21], self);
        state[21..].copy_from_slice(&self.message);
    }
}

// Up and idle, with any last used.
pub fn nooseless_console_fresh(state: &mut [u8], last_used: u32) -> u8
    ensures { (result ≡ length_refusal 37 state.old) × (state.new ≡ written 37 state.old (console_bytes (fresh_console (record { 0 = last_used })))) }
{
    told_refusal(write(state, fields::fresh_console(J(last_used))))
}

// After power loss: down, with the numbers of the console's number record, of either version, and no answer.
#[tactic(auto, unfolding(crate::specs::State::start_refusal, crate::specs::State::started, ground::specs::Choice::chosen))]
pub fn nooseless_console_downed(state: &mut [u8], record: &[u8]) -> u8
    ensures { (result ≡ start_refusal 37 state.old (start_at «record».now)) × (state.new ≡ started 37 state.old (start_at «record».now) (downed_bytes «record».now)) }
{
    told_refusal(start(state, start_in(1, record).map(fields::downed_console)))
}

// The number record to keep where a step told that it changed.
#[tactic(auto, unfolding(ends_console::specs::Fields::console_read, ground::specs::Choice::chosen))]
pub fn nooseless_console_record(state: &[u8], out: &mut [u8]) -> u8
    ensures { (result ≡ state_record_refusal (console_ok (console_at state.now)) (console_record (console_at state.now)) out.old) × (out.new ≡ state_record_put (console_ok (console_at state.now)) (console_record (console_at state.now)) out.old) }
{
    let c = console_at(state);
    let kept = NumberRecord::Console(J(c.numbers.reserved), c.numbers.block);
    told_refusal(put_record(out, fields::read_console(c).is_some(), kept))
}

// P Q D S C V A of a console run alone.
pub fn nooseless_console_step(
    state: &mut [u8],
    letter: u8,
    message: &[u8; 16],
    packet: &[u8],
    reply: &mut [u8],
) -> u8
    ensures { record { told = result; state = state.new; reply = reply.new } ≡ console_state_step state.old letter message.now packet.now reply.old }
{
    let c = console_at(state);
    let done = alone::console::step(c, letter, message, packet, reply);
    keep(state, done.report, done.console);
    told(
        done.report,
        done.sent,
        changed(c.numbers, done.console.numbers),
    )
}
