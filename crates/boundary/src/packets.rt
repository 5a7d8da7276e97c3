// Packets in C's hands: kind, two numbers and 16 bytes of message.
ghost use Rattle.std.specs.Prelude.{◌≡◌, length};
ghost use Rattle.ground.specs.Refusals.{refusal_in};
ghost use Rattle.wire.specs.Packet.{head_of};
ghost use Rattle.boundary.specs.Packets.{packet_out, head_refusal, head_put};

use crate::state::told_refusal;
use ground::Refusal;
use wire::{Fields, Head, Packet};

// Reads a packet of 32 bytes. A refusal leaves every place.
pub fn nooseless_read_packet(
    packet: &[u8],
    kind: &mut u8,
    first: &mut u32,
    second: &mut u32,
    message: &mut [u8; 16],
) -> u8
    ensures { record { refusal = result; kind = kind.new; first = first.new; second = second.new; message = message.new } ≡ packet_out packet.now kind.old first.old second.old message.old }
{
    match wire::read_packet(packet) {
        Ok(read) => {
            let fields = Fields::from(read.head);
            let held = read.message;
            *kind = fields.kind;
            *first = fields.first;
            *second = fields.second;
            *message = held;
            0
        }
        Err(refusal) => u8::from(refusal),
    }
}

// The length is looked at first.
#[tactic(auto, using(ground::proofs::Cases::cases, crate::proofs::RefusalNumbers::packet_known, wire::proofs::Heads::no_head), unfolding(wire::specs::Packet::write_refusal, wire::specs::Packet::packet_written, ground::specs::First::first, ground::specs::Choice::chosen))]
fn write(out: &mut [u8], fields: Fields, message: &[u8; 16]) -> Result<(), Refusal>
    ensures { (refusal_in result ≡ head_refusal (length out.old) (head_of fields.kind fields.first fields.second) message.now) × (out.new ≡ head_put out.old (head_of fields.kind fields.first fields.second) message.now) }
{
    if out.len() != 32 {
        return Err(Refusal::WrongLength);
    }
    let head = Head::try_from(fields)?;
    wire::write_packet(
        out,
        Packet {
            head,
            message: *message,
        },
    )
}

// Writes a packet to 32 bytes.
pub fn nooseless_write_packet(
    out: &mut [u8],
    kind: u8,
    first: u32,
    second: u32,
    message: &[u8; 16],
) -> u8
    ensures { (result ≡ head_refusal (length out.old) (head_of kind first second) message.now) × (out.new ≡ head_put out.old (head_of kind first second) message.now) }
{
    told_refusal(write(
        out,
        Fields {
            kind,
            first,
            second,
        },
        message,
    ))
}
