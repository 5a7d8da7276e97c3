// Number records in C's hands: an end, 1 console or 2 controller, a number, and a block, which is 0 for a record of version 1.
ghost use Rattle.std.specs.Prelude.{◌≡◌, length};
ghost use Rattle.ground.specs.Refusals.{refusal_in};
ghost use Rattle.wire.specs.Record.{record_read, record_of};
ghost use Rattle.boundary.specs.Records.{record_out, length_with, record_put_refusal, record_put, in_version, carry_refusal, carried};

use crate::state::told_refusal;
use ground::Refusal;
use wire::{NumberRecord, RecordFields};

// Reads a number record of 12 or 16 bytes. A refusal leaves all three places.
pub fn nooseless_read_record(record: &[u8], end: &mut u8, number: &mut u32, block: &mut u16) -> u8
    ensures { record { refusal = result; end = end.new; number = number.new; block = block.new } ≡ record_out (record_read «record».now) end.old number.old block.old }
{
    match wire::read_record(record) {
        Ok(kept) => {
            let fields = RecordFields::from(kept);
            *end = fields.end;
            *number = fields.number;
            *block = fields.block;
            0
        }
        Err(refusal) => u8::from(refusal),
    }
}

#[tactic(auto, using(ground::proofs::Cases::cases), unfolding(ground::specs::Choice::chosen))]
fn length_with(block: u16) -> usize
    ensures { result ≡ length_with block }
{
    if block == 0 { 12 } else { 16 }
}

// The length is looked at first.
#[tactic(auto, using(ground::proofs::Cases::cases, crate::proofs::RefusalNumbers::record_known), unfolding(wire::specs::Record::record_of, wire::specs::Record::record_write_refusal, wire::specs::Record::record_written, ground::specs::First::first, ground::specs::Choice::chosen))]
fn write(out: &mut [u8], fields: RecordFields) -> Result<(), Refusal>
    ensures { (refusal_in result ≡ record_put_refusal (length out.old) fields.block (record_of fields.end fields.number fields.block)) × (out.new ≡ record_put out.old (record_of fields.end fields.number fields.block)) }
{
    if out.len() != length_with(fields.block) {
        return Err(Refusal::WrongLength);
    }
    wire::write_record(out, NumberRecord::try_from(fields)?)
}

// Writes a number record: version 1 to 12 bytes where the block is 0, else version 2 to 16.
pub fn nooseless_write_record(out: &mut [u8], end: u8, number: u32, block: u16) -> u8
    ensures { (result ≡ record_put_refusal (length out.old) block (record_of end number block)) × (out.new ≡ record_put out.old (record_of end number block)) }
{
    told_refusal(write(out, RecordFields { end, number, block }))
}

// The record in the version of this length; any but 12 is taken for version 2's, and refused where it is written.
#[tactic(auto, using(ground::proofs::Cases::cases), unfolding(ground::specs::Choice::chosen))]
fn in_version(length: usize, record: NumberRecord) -> NumberRecord
    ensures { result ≡ in_version length «record» }
{
    if length == 12 {
        wire::aged(record)
    } else {
        wire::renewed(record)
    }
}

// The length is looked at first.
#[tactic(auto, using(ground::proofs::Cases::cases, crate::proofs::RefusalNumbers::record_known, wire::proofs::Carrying::renewed_new), unfolding(wire::specs::Record::record_write_refusal, wire::specs::Record::record_written, ground::specs::First::first, ground::specs::Choice::chosen))]
fn carry(from: &[u8], to: &mut [u8]) -> Result<(), Refusal>
    ensures { (refusal_in result ≡ carry_refusal (length to.old) (record_read from.now)) × (to.new ≡ carried to.old (record_read from.now)) }
{
    if to.len() != 12 && to.len() != 16 {
        return Err(Refusal::WrongLength);
    }
    let kept = wire::read_record(from)?;
    wire::write_record(to, in_version(to.len(), kept))
}

// Carries a number record to the version that the length of `to` names.
pub fn nooseless_carry_record(from: &[u8], to: &mut [u8]) -> u8
    ensures { (result ≡ carry_refusal (length to.old) (record_read from.now)) × (to.new ≡ carried to.old (record_read from.now)) }
{
    told_refusal(carry(from, to))
}
