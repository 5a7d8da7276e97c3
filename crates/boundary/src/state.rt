// What the states of both ends and of a bench share: numbers and flags as bytes, what a step tells, and how a state is written or left.
ghost use Rattle.std.specs.Prelude.{◌≡◌, ℕ, ◌+◌, ◌≤◌, List, length};
ghost use Rattle.ground.specs.Choice.{when◌then◌else◌};
ghost use Rattle.ground.specs.Refusals.{refusal_in};
ghost use Rattle.wire.specs.Frame.{field};
ghost use Rattle.wire.specs.Number.{value};
ghost use Rattle.wire.specs.Record.{record_read};
ghost use Rattle.boundary.specs.State.{numbers_at, numbers_bytes, is_refusal, changed, marks, told, start_in};
ghost use Rattle.boundary.specs.State.{length_refusal, written, start_refusal, started, start_bytes, state_record_refusal, state_record_put};

use ends::Report;
use ground::Refusal;
use numbers::Numbers;
use wire::{NumberRecord, RecordFields};

// The number in the four bytes from `at` on. Wire's own is private there: it asks for four bytes, and what is public asks nothing.
pub(crate) fn number_at(s: &[u8], at: usize) -> u32
    requires { at + 4 ≤ length s.now }
    ensures { result ≡ value (field s.now at 4) }
{
    wire::from_big_endian([s[at], s[at + 1], s[at + 2], s[at + 3]])
}

// Bytes 0 to 9 of a state.
pub(crate) fn numbers_at(s: &[u8]) -> Numbers
    requires { 10 ≤ length s.now }
    ensures { result ≡ numbers_at s.now }
{
    Numbers {
        used: number_at(s, 0),
        reserved: number_at(s, 4),
        block: wire::from_big_endian_16([s[8], s[9]]),
    }
}

// Bytes 0 to 9 of a state, each number by itself: the compiler then stores it at once.
pub(crate) fn put_numbers(part: &mut [u8], n: Numbers)
    requires { length part.old ≡ 10 }
    ensures { part.new ≡ numbers_bytes n }
{
    part[..4].copy_from_slice(&wire::big_endian(n.used));
    part[4..8].copy_from_slice(&wire::big_endian(n.reserved));
    part[8..].copy_from_slice(&wire::big_endian_16(n.block));
}

// Whether the number record has to be kept.
pub(crate) fn changed(before: Numbers, after: Numbers) -> bool
    ensures { result ≡ changed before after }
{
    before.reserved != after.reserved || before.block != after.block
}

#[tactic(auto, unfolding(crate::specs::State::marks))]
fn marks(sent: bool, keep: bool) -> u8
    ensures { result ≡ marks sent keep }
{
    128 * u8::from(sent) + 32 * u8::from(keep)
}

// The one byte that a step returns.
#[tactic(auto, using(crate::proofs::Flags::marks_most))]
pub(crate) fn told(report: Report, sent: bool, keep: bool) -> u8
    ensures { result ≡ told report sent keep }
{
    let beside = marks(sent, keep);
    match report {
        Report::Nothing => beside,
        Report::Delivered => 64 + beside,
        Report::Ok => 65 + beside,
        Report::Lost => 66 + beside,
        Report::Refused(refusal) => u8::from(refusal),
    }
}

// The number of a refusal, or 0: what all else returns.
pub(crate) fn told_refusal(done: Result<(), Refusal>) -> u8
    ensures { result ≡ refusal_in done }
{
    match done {
        Ok(()) => 0,
        Err(refusal) => u8::from(refusal),
    }
}

// The numbers that an end starts with, from its own number record; `end` is the record's own byte, 1 or 2.
#[tactic(auto, using(ground::proofs::Cases::cases), unfolding(crate::specs::State::start_of, ground::specs::Choice::chosen))]
pub(crate) fn start_in(end: u8, record: &[u8]) -> Result<Numbers, Refusal>
    ensures { result ≡ start_in end (record_read «record».now) }
{
    let kept = RecordFields::from(wire::renewed(wire::read_record(record)?));
    if kept.end != end {
        return Err(Refusal::WrongField);
    }
    Ok(Numbers::kept(kept.number, kept.block))
}

// What C keeps in a state of its own length.
pub(crate) trait State: Copy {
    ghost LENGTH: { ℕ };

    ghost bytes: { Self → List ℕ };

    const LENGTH: usize;

    fn put(self, state: &mut [u8])
        requires { length state.old ≡ LENGTH }
        ensures { state.new ≡ bytes self };
}

// A state of another length is left.
#[tactic(auto, using(ground::proofs::Cases::cases), unfolding(crate::specs::State::length_refusal, crate::specs::State::written, ground::specs::Choice::chosen))]
pub(crate) fn write<S: State>(state: &mut [u8], s: S) -> Result<(), Refusal>
    ensures { (refusal_in result ≡ length_refusal S.LENGTH state.old) × (state.new ≡ written S.LENGTH state.old (S.bytes s)) }
{
    if state.len() != S::LENGTH {
        return Err(Refusal::IllFormed);
    }
    s.put(state);
    Ok(())
}

// A start after power loss with what the end's own number record made. The length is looked at first.
#[tactic(auto, using(ground::proofs::Cases::cases, crate::proofs::RefusalNumbers::not_0), unfolding(crate::specs::State::start_refusal, crate::specs::State::started, ground::specs::Choice::chosen))]
pub(crate) fn start<S: State>(state: &mut [u8], made: Result<S, Refusal>) -> Result<(), Refusal>
    ensures { (refusal_in result ≡ start_refusal S.LENGTH state.old made) × (state.new ≡ started S.LENGTH state.old made (start_bytes S.bytes made)) }
{
    if state.len() != S::LENGTH {
        return Err(Refusal::IllFormed);
    }
    made?.put(state);
    Ok(())
}

// A refusal leaves the state; one of another length was refused.
#[tactic(auto, unfolding(ground::specs::Choice::chosen))]
pub(crate) fn keep<S: State>(state: &mut [u8], report: Report, after: S)
    ensures { state.new ≡ (when is_refusal report then state.old else written S.LENGTH state.old (S.bytes after)) }
{
    if report.refusal().is_some() {
        return;
    }
    let _ = write(state, after);
}

// The number record of a state that is well formed or not.
#[tactic(auto, using(crate::proofs::RefusalNumbers::record_known), unfolding(crate::specs::State::state_record_refusal, crate::specs::State::state_record_put, ground::specs::Choice::chosen))]
pub(crate) fn put_record(
    out: &mut [u8],
    well_formed: bool,
    kept: NumberRecord,
) -> Result<(), Refusal>
    ensures { (refusal_in result ≡ state_record_refusal well_formed kept out.old) × (out.new ≡ state_record_put well_formed kept out.old) }
{
    if !well_formed {
        return Err(Refusal::IllFormed);
    }
    wire::write_record(out, kept)
}
