// List records of 21 bytes.
ghost use Rattle.std.specs.Prelude.{◌≡◌, length};
ghost use Rattle.std.specs.Bool.{then_some};
ghost use Rattle.listing.specs.Record.{place_of, copies_of, place_fits, copies_fit, message_fits, list_record, record_end};

use crate::{Fields, Uses};

// Two digits 00 to 63; 00 where the letter doesn't use the place.
#[tactic(auto, using(std::proofs::lemmas::Bool::Decides::nat_tests), unfolding(crate::specs::Record::place_fits, crate::specs::Record::is_place))]
fn place_in(tens: u8, ones: u8, used: bool) -> Option<usize>
    ensures { result ≡ then_some (place_fits used tens ones) (place_of tens ones) }
{
    match (tens, ones) {
        (b'0', b'0') => Some(0),
        (b'0'..=b'5', b'0'..=b'9') | (b'6', b'0'..=b'3') if used => {
            Some(10 * usize::from(tens - b'0') + usize::from(ones - b'0'))
        }
        _ => None,
    }
}

// A digit 0 to 3; 0 where the letter doesn't use the copies.
#[tactic(auto, using(std::proofs::lemmas::Bool::Decides::nat_tests), unfolding(crate::specs::Record::copies_fit, crate::specs::Record::is_copies))]
fn copies_in(b: u8, used: bool) -> Option<usize>
    ensures { result ≡ then_some (copies_fit used b) (copies_of b) }
{
    match b {
        b'0' => Some(0),
        b'1'..=b'3' if used => Some(usize::from(b - b'0')),
        _ => None,
    }
}

// 16 cells; spaces where the letter doesn't use the message.
#[tactic(auto, using(std::proofs::lemmas::Bool::Decides::nat_tests, crate::proofs::Records::spaces_message), unfolding(crate::specs::Record::message_fits))]
fn message_in(s: &[u8], used: bool) -> Option<[u8; 16]>
    requires { length s.now ≡ 16 }
    ensures { result ≡ then_some (message_fits used s.now) s.now }
{
    let mut message = [0; 16];
    message.copy_from_slice(s);
    let fits = if used {
        ground::is_message(&message)
    } else {
        ground::all_are(&message, b' ')
    };
    fits.then_some(message)
}

// The letter's byte is not looked at.
#[tactic(auto, using(std::proofs::lemmas::Bool::Decides::nat_tests), unfolding(crate::proofs::Records::records))]
pub fn read(s: &[u8], uses: Uses) -> Option<Fields>
    ensures { result ≡ list_record uses s.now }
{
    if s.len() != 21 {
        return None;
    }
    if s[20] != b'\n' {
        return None;
    }
    Some(Fields {
        place: place_in(s[1], s[2], uses.place)?,
        copies: copies_in(s[3], uses.copies)?,
        message: message_in(&s[4..20], uses.message)?,
    })
}

// Where a record that begins at `start` ends in `len` bytes: the last may be short.
#[tactic(auto, using(std::proofs::lemmas::Bool::Decides::nat_tests), unfolding(crate::proofs::Records::records))]
pub fn record_end(start: usize, len: usize) -> usize
    ensures { result ≡ record_end start len }
{
    len.min(start.saturating_add(21))
}
