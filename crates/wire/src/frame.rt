// Bytes 0 to 7 of packets and number records, and their big-endian numbers. Four functions, so that their promises say in document 01's words what
// the library's methods give: of four bytes and of two, which no one const parameter types.
ghost use Rattle.std.specs.Prelude.{◌≡◌, ◌+◌, ◌≤◌, length};
ghost use Rattle.ground.specs.First.{first};
ghost use Rattle.ground.specs.Refusals.{refused_by};
ghost use Rattle.wire.specs.Frame.{field, frame_refusals};
ghost use Rattle.wire.specs.Number.{bytes_of, value};

use ground::Refusal;

#[tactic(auto, using(crate::proofs::Numbers::from_be_bytes_4))]
pub fn from_big_endian(bytes: [u8; 4]) -> u32
    ensures { result ≡ value bytes }
{
    u32::from_be_bytes(bytes)
}

#[tactic(auto, using(crate::proofs::Numbers::from_be_bytes_2))]
pub fn from_big_endian_16(bytes: [u8; 2]) -> u16
    ensures { result ≡ value bytes }
{
    u16::from_be_bytes(bytes)
}

// The number in the four bytes from `at` on.
#[tactic(auto, using(crate::proofs::Numbers::number_at_is))]
pub(crate) fn number_at(s: &[u8], at: usize) -> u32
    requires { at + 4 ≤ length s.now }
    ensures { result ≡ value (field s.now at 4) }
{
    from_big_endian([s[at], s[at + 1], s[at + 2], s[at + 3]])
}

#[tactic(auto, using(crate::proofs::Numbers::to_be_bytes_4))]
pub fn big_endian(n: u32) -> [u8; 4]
    ensures { result ≡ bytes_of 4 n }
{
    n.to_be_bytes()
}

#[tactic(auto, using(crate::proofs::Numbers::to_be_bytes_2))]
pub fn big_endian_16(n: u16) -> [u8; 2]
    ensures { result ≡ bytes_of 2 n }
{
    n.to_be_bytes()
}

// The first refusal that bytes 0 to 7 give, but for byte 5.
#[tactic(auto, using(ground::proofs::Cases::cases, crate::proofs::Numbers::byte_in_two), unfolding(ground::specs::First::first, ground::specs::Choice::chosen))]
pub(crate) fn check_frame(s: &[u8], letter: u8, version: u8) -> Result<(), Refusal>
    requires { 8 ≤ length s.now }
    ensures { result ≡ refused_by (first (frame_refusals letter version s.now)) }
{
    if s[0] != b'H' || s[1] != b'S' || s[2] != letter {
        return Err(Refusal::WrongMark);
    }
    if s[3] != 0 || s[4] != version {
        return Err(Refusal::WrongVersion);
    }
    if s[6] != 0 || s[7] != 0 {
        return Err(Refusal::WrongField);
    }
    Ok(())
}
