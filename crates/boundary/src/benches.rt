// A bench in C's hands: its state is 62 bytes that the caller keeps beside its two tables.
ghost use Rattle.std.specs.Prelude.{◌≡◌, length};
ghost use Rattle.ground.specs.Refusals.{refusal_in};
ghost use Rattle.boundary.specs.Benches.{bench_bytes, parts_at, no_bench, bench_at};
ghost use Rattle.boundary.specs.Benches.{fresh_put, step_put, show_to, show_at, offset_at};

use crate::console::{console_at, no_console};
use crate::controller::{controller_at, hand_over, no_controller};
use crate::state::{State, keep, told};
use bench::{Action, Bench};
use ground::Refusal;
use tables::Way;
use wire::{I, J};

#[tactic(auto, unfolding(crate::specs::Benches::parts_at))]
fn parts_at(s: &[u8]) -> Bench
    requires { length s.now ≡ 62 }
    ensures { result ≡ parts_at s.now }
{
    Bench {
        console: console_at(&s[0..37]),
        controller: controller_at(&s[37..60]),
        sent: usize::from(s[60]),
        returned: usize::from(s[61]),
    }
}

// No bench: two ends that are none, which the step refuses as not well formed.
fn no_bench() -> Bench
    ensures { result ≡ no_bench }
{
    Bench {
        console: no_console(),
        controller: no_controller(),
        sent: 0,
        returned: 0,
    }
}

#[tactic(auto, using(ground::proofs::Cases::cases), unfolding(crate::specs::Benches::bench_at, ground::specs::Choice::chosen))]
fn bench_at(s: &[u8]) -> Bench
    ensures { result ≡ bench_at s.now }
{
    if s.len() != 62 {
        return no_bench();
    }
    parts_at(s)
}

// A count is put as one byte: no channel has more than 64 places.
impl State for Bench {
    ghost LENGTH = { 62 };

    ghost bytes = { bench_bytes };

    const LENGTH: usize = 62;

    fn put(self, state: &mut [u8]) {
        self.console.put(&mut state[0..37]);
        self.controller.put(&mut state[37..60]);
        state[60..].copy_from_slice(&[(self.sent % 256) as u8, (self.returned % 256) as u8]);
    }
}

// Both ends up and idle with any two last used, both tables cleared.
#[tactic(auto, using(ground::proofs::Cases::cases), unfolding(crate::specs::Benches::fresh_put, ground::specs::Choice::chosen))]
pub fn nooseless_bench_fresh(
    state: &mut [u8],
    out: &mut [u8],
    back: &mut [u8],
    console_last_used: u32,
    controller_last_used: u32,
) -> u8
    ensures { record { told = result; state = state.new; out = out.new; back = back.new } ≡ fresh_put (record { 0 = console_last_used }) (record { 0 = controller_last_used }) state.old out.old back.old }
{
    if state.len() != 62 {
        return u8::from(Refusal::IllFormed);
    }
    let made = bench::fresh(J(console_last_used), I(controller_last_used), out, back);
    keep(state, made.report, made.bench);
    told(made.report, false, false)
}

// One of the fourteen actions, with any place and any copies.
pub fn nooseless_bench_step(
    state: &mut [u8],
    out: &mut [u8],
    back: &mut [u8],
    letter: u8,
    place: usize,
    copies: usize,
    message: &[u8; 16],
    delivered: &mut [u8; 16],
) -> u8
    ensures { record { told = result; state = state.new; out = out.new; back = back.new; delivered = delivered.new } ≡ step_put state.old (record { letter = letter; place = place; copies = copies; message = message.now }) out.old back.old delivered.old }
{
    let action = Action {
        letter,
        place,
        copies,
        message: *message,
    };
    let done = bench::step(bench_at(state), action, out, back);
    keep(state, done.report, done.bench);
    hand_over(done.report, done.message, delivered);
    told(done.report, false, false)
}

// No channel has a place 64, so that an end that is none has no places.
#[tactic(auto, using(ground::proofs::Cases::cases, crate::proofs::RefusalNumbers::show_known), unfolding(crate::specs::Benches::show_to, ground::specs::Choice::chosen))]
fn show_to(
    end: u8,
    place: usize,
    out: &[u8],
    sent: usize,
    back: &[u8],
    returned: usize,
) -> Result<(), Refusal>
    ensures { refusal_in result ≡ show_to end place out.now sent back.now returned }
{
    let (way, place) = match end {
        1 => (Way::Back, place),
        2 => (Way::Out, place),
        _ => (Way::Back, 64),
    };
    tables::show_refusal(way, place, out, sent, back, returned)
}

// Where the packet at a place lies in the table of the channel that leads to an end.
#[tactic(auto, using(ground::proofs::Cases::cases, crate::proofs::BenchEntries::place_small, crate::proofs::RefusalNumbers::not_0), unfolding(crate::specs::Benches::show_at, crate::specs::Benches::offset_at, ground::specs::Choice::chosen))]
pub fn nooseless_bench_show(
    state: &[u8],
    out: &[u8],
    back: &[u8],
    end: u8,
    place: usize,
    offset: &mut usize,
) -> u8
    ensures { (result ≡ show_at state.now out.now back.now end place) × (offset.new ≡ offset_at (show_at state.now out.now back.now end place) place offset.old) }
{
    if state.len() != 62 {
        return u8::from(Refusal::IllFormed);
    }
    let sent = usize::from(state[60]);
    let returned = usize::from(state[61]);
    match show_to(end, place, out, sent, back, returned) {
        Ok(()) => {
            *offset = place * 32;
            0
        }
        Err(refusal) => u8::from(refusal),
    }
}
