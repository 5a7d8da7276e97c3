// Showing what a place holds: a part of one of two tables, in the table itself.
ghost use Rattle.std.specs.Prelude.{◌≡◌};
ghost use Rattle.ground.specs.Refusals.{refused_by};
ghost use Rattle.tables.specs.Shown.{asked, show_refusal, showing};

use ground::Refusal;

// Which of the two tables: that of the way out, or that of the way back.
#[derive(Clone, Copy)]
pub enum Way {
    Out,
    Back,
}

fn asked<T: Copy>(way: Way, out: T, back: T) -> T
    ensures { result ≡ asked way out back }
{
    match way {
        Way::Out => out,
        Way::Back => back,
    }
}

// `sent` is the count of `out`, `returned` that of `back`.
#[tactic(auto, using(crate::proofs::Showing::show_refusals))]
pub fn show_refusal(
    way: Way,
    place: usize,
    out: &[u8],
    sent: usize,
    back: &[u8],
    returned: usize,
) -> Result<(), Refusal>
    ensures { result ≡ refused_by (show_refusal way place out.now sent back.now returned) }
{
    if out.len() != 2048 || sent > 64 || back.len() != 2048 || returned > 64 {
        return Err(Refusal::IllFormed);
    }
    if place >= asked(way, sent, returned) {
        return Err(Refusal::NoPlace);
    }
    Ok(())
}

// The 32 bytes at the place.
#[tactic(auto, using(crate::proofs::Showing::shows))]
pub fn show<'a>(
    way: Way,
    place: usize,
    out: &'a [u8],
    sent: usize,
    back: &'a [u8],
    returned: usize,
) -> Result<&'a [u8], Refusal>
    ensures { result ≡ showing way place out.entry sent back.entry returned }
{
    show_refusal(way, place, out, sent, back, returned)?;
    let table = asked(way, out, back);
    let at = place * 32;
    Ok(&table[at..at + 32])
}
