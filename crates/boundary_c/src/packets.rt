// Packets in C's hands: kind, two numbers and 16 bytes of message.
ghost use Rattle.std.specs.Prelude.{◌≡◌, length};
ghost use Rattle.wire.specs.Packet.{head_of};
ghost use Rattle.boundary.specs.Packets.{packet_out, head_refusal, head_put};

// Reads a packet of 32 bytes. A refusal leaves every place.
#[unsafe(no_mangle)]
pub extern "C" fn nooseless_read_packet(
    packet: &[u8],
    kind: &mut u8,
    first: &mut u32,
    second: &mut u32,
    message: &mut [u8; 16],
) -> u8
    ensures { record { refusal = result; kind = kind.new; first = first.new; second = second.new; message = message.new } ≡ packet_out packet.now kind.old first.old second.old message.old }
{
    boundary::packets::nooseless_read_packet(packet, kind, first, second, message)
}

// Writes a packet to 32 bytes.
#[unsafe(no_mangle)]
pub extern "C" fn nooseless_write_packet(
    out: &mut [u8],
    kind: u8,
    first: u32,
    second: u32,
    message: &[u8; 16],
) -> u8
    ensures { (result ≡ head_refusal (length out.old) (head_of kind first second) message.now) × (out.new ≡ head_put out.old (head_of kind first second) message.now) }
{
    boundary::packets::nooseless_write_packet(out, kind, first, second, message)
}
