// Output lines of 27 bytes.
ghost use Rattle.std.specs.Prelude.{◌≡◌};
ghost use Rattle.listing.specs.Line.{decimals, line_bytes, line_written};

// A number as two cells of a report.
#[tactic(auto, unfolding(crate::specs::Line::decimals))]
pub fn two_digits(n: u8) -> [u8; 2]
    ensures { result ≡ decimals 2 n }
{
    [b'0' + n / 10 % 10, b'0' + n % 10]
}

#[tactic(auto, unfolding(crate::specs::Line::decimals))]
fn four_digits(n: usize) -> [u8; 4]
    ensures { result ≡ decimals 4 n }
{
    let [thousands, hundreds] = two_digits((n / 100 % 100) as u8);
    let [tens, ones] = two_digits((n % 100) as u8);
    [thousands, hundreds, tens, ones]
}

#[tactic(auto, using(crate::proofs::LineWritten::two_cells), unfolding(crate::specs::Line::line_bytes, crate::specs::Line::decimals))]
fn line_bytes(number: usize, letter: u8, cells: [u8; 2], message: [u8; 16]) -> [u8; 27]
    ensures { result ≡ line_bytes number letter cells message }
{
    let [thousands, hundreds, tens, ones] = four_digits(number);
    let [first, second] = cells;
    let mut line = [b'\n'; 27];
    line[..10].copy_from_slice(&[
        thousands, hundreds, tens, ones, b' ', letter, b' ', first, second, b' ',
    ]);
    line[10..26].copy_from_slice(&message);
    line
}

// Writes to 27 bytes; a buffer of another length stays as it was. `letter` is the letter's byte or ?, `cells` the two of the report.
#[tactic(auto, using(std::proofs::lemmas::Bool::Decides::nat_tests), unfolding(crate::proofs::LineWritten::lines))]
pub fn write_line(out: &mut [u8], number: usize, letter: u8, cells: [u8; 2], message: [u8; 16])
    ensures { out.new ≡ line_written out.old number letter cells message }
{
    if out.len() == 27 {
        out.copy_from_slice(&line_bytes(number, letter, cells, message));
    }
}
