// Packets of 32 bytes.
ghost use Rattle.std.specs.Prelude.{◌≡◌, ◌++◌, length, drop};
ghost use Rattle.ground.specs.Refusals.{refused_by};
ghost use Rattle.wire.specs.Frame.{frame};
ghost use Rattle.wire.specs.Number.{bytes_of};
ghost use Rattle.wire.specs.Packet.{kind_of, direction_of, first_of, second_of, numbered, table, fits, packet_bytes};
ghost use Rattle.wire.specs.Packet.{fields_of, head_of, head_at, head_read, packet_read, write_refusal, packet_written};

use crate::frame::{big_endian, check_frame, number_at};
use crate::{Direction, Head, I, J, Packet};
use ground::Refusal;

pub fn direction_of(head: Head) -> Direction
    ensures { result ≡ direction_of head }
{
    match head {
        Head::NeedI(_) | Head::Data(_) | Head::Done(_) => Direction::ToController,
        Head::Offer(_, _) | Head::Ok(_) | Head::Lost(_) => Direction::ToConsole,
    }
}

// What bytes 5 and 8 to 15 say of a head; the kind is the byte itself.
#[derive(Clone, Copy)]
pub struct Fields {
    pub kind: u8,
    pub first: u32,
    pub second: u32,
}

impl From<Head> for Fields {
    ghost from_gives = { λ h f. f ≡ fields_of h };

    fn from(head: Head) -> Fields {
        let (kind, first, second) = match head {
            Head::NeedI(j) => (1, j.0, 0),
            Head::Offer(j, i) => (2, j.0, i.0),
            Head::Data(i) => (3, i.0, 0),
            Head::Ok(i) => (4, i.0, 0),
            Head::Lost(i) => (5, i.0, 0),
            Head::Done(i) => (6, i.0, 0),
        };
        Fields {
            kind,
            first,
            second,
        }
    }
}

// The head of a kind with these numbers.
impl TryFrom<Fields> for Head {
    type Error = Refusal;

    ghost try_from_gives = { λ f r. r ≡ head_of f.kind f.first f.second };

    #[tactic(auto, using(ground::proofs::Cases::cases), unfolding(crate::specs::Packet::head_of, ground::specs::Choice::chosen))]
    fn try_from(f: Fields) -> Result<Head, Refusal> {
        if f.first == 0 {
            return Err(Refusal::WrongField);
        }
        match (f.second, f.kind) {
            (0, 1) => Ok(Head::NeedI(J(f.first))),
            (0, 3) => Ok(Head::Data(I(f.first))),
            (0, 4) => Ok(Head::Ok(I(f.first))),
            (0, 5) => Ok(Head::Lost(I(f.first))),
            (0, 6) => Ok(Head::Done(I(f.first))),
            (second, 2) if second != 0 => Ok(Head::Offer(J(f.first), I(second))),
            _ => Err(Refusal::WrongField),
        }
    }
}

// Whether a message is as the head's line of the table says.
#[inline(always)]
#[tactic(auto, unfolding(crate::specs::Packet::is_blank, ground::specs::Cell::is_message))]
fn message_fits(head: Head, m: &[u8]) -> bool
    requires { length m.now ≡ 16 }
    ensures { result ≡ (table head).message m.now }
{
    match head {
        Head::Data(_) => ground::all_cells(m),
        _ => ground::all_are(m, 0),
    }
}

#[tactic(auto, unfolding(crate::specs::Packet::head_at))]
fn head_at(s: &[u8]) -> Result<Head, Refusal>
    requires { length s.now ≡ 32 }
    ensures { result ≡ head_at s.now }
{
    Head::try_from(Fields {
        kind: s[5],
        first: number_at(s, 8),
        second: number_at(s, 12),
    })
}

#[tactic(auto, using(crate::proofs::Reading::message_copied))]
fn message_at(s: &[u8]) -> [u8; 16]
    requires { length s.now ≡ 32 }
    ensures { result ≡ drop 16 s.now }
{
    let mut m = [0; 16];
    m.copy_from_slice(&s[16..32]);
    m
}

// The head alone, for who has no use for the message: all of the packet is looked at, and nothing is copied.
#[inline]
#[tactic(auto, using(crate::proofs::Reading::reads))]
pub fn read_head(bytes: &[u8]) -> Result<Head, Refusal>
    ensures { result ≡ head_read bytes.now }
{
    if bytes.len() != 32 {
        return Err(Refusal::WrongLength);
    }
    check_frame(bytes, b'L', 1)?;
    let head = head_at(bytes)?;
    if message_fits(head, &bytes[16..]) {
        Ok(head)
    } else {
        Err(Refusal::WrongField)
    }
}

#[tactic(auto, using(crate::proofs::Reading::packet_reads))]
pub fn read_packet(bytes: &[u8]) -> Result<Packet, Refusal>
    ensures { result ≡ packet_read bytes.now }
{
    let head = read_head(bytes)?;
    Ok(Packet {
        head,
        message: message_at(bytes),
    })
}

fn has_numbers(head: Head) -> bool
    ensures { result ≡ numbered head }
{
    match head {
        Head::NeedI(j) => j != J(0),
        Head::Offer(j, i) => (j != J(0)) & (i != I(0)),
        Head::Data(i) | Head::Ok(i) | Head::Lost(i) | Head::Done(i) => i != I(0),
    }
}

#[tactic(auto, unfolding(crate::specs::Packet::fits))]
fn packet_fits(p: &Packet) -> bool
    ensures { result ≡ fits p.now }
{
    has_numbers(p.head) && message_fits(p.head, &p.message)
}

// Bytes 0 to 15 of a packet.
#[tactic(auto, using(crate::proofs::Writing::head_bytes_are))]
fn head_bytes(head: Head) -> [u8; 16]
    ensures { result ≡ frame 0x4C 1 (kind_of head) ++ (bytes_of 4 (first_of head) ++ bytes_of 4 (second_of head)) }
{
    let f = Fields::from(head);
    let a = big_endian(f.first);
    let b = big_endian(f.second);
    [
        b'H', b'S', b'L', 0, 1, f.kind, 0, 0, a[0], a[1], a[2], a[3], b[0], b[1], b[2], b[3],
    ]
}

#[tactic(auto, using(crate::proofs::Writing::packet_put))]
fn put_packet(out: &mut [u8], p: &Packet)
    requires { length out.old ≡ 32 }
    ensures { out.new ≡ packet_bytes p.now }
{
    out[..16].copy_from_slice(&head_bytes(p.head));
    out[16..].copy_from_slice(&p.message);
}

#[tactic(auto, using(crate::proofs::Writing::writes))]
pub fn write_packet(out: &mut [u8], p: Packet) -> Result<(), Refusal>
    ensures { (result ≡ refused_by (write_refusal (length out.old) p)) × (out.new ≡ packet_written out.old p) }
{
    if out.len() != 32 {
        return Err(Refusal::WrongLength);
    }
    if !packet_fits(&p) {
        return Err(Refusal::WrongField);
    }
    put_packet(out, &p);
    Ok(())
}
