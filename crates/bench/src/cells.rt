// A report of this link as cells of an output line.
ghost use Rattle.std.specs.Prelude.{◌≡◌};
ghost use Rattle.bench.specs.Reports.{letter_cell, report_cells};

use ends::Report;
use ground::Refusal;

#[tactic(auto, unfolding(ground::specs::Choice::chosen))]
pub fn letter_cell(letter: u8, report: Report) -> u8
    ensures { result ≡ letter_cell letter report }
{
    match report {
        Report::Refused(Refusal::NoAction) => b'?',
        _ => letter,
    }
}

pub fn report_cells(report: Report) -> [u8; 2]
    ensures { result ≡ report_cells report }
{
    match report {
        Report::Nothing => *b"--",
        Report::Delivered => *b"DL",
        Report::Ok => *b"OK",
        Report::Lost => *b"LO",
        Report::Refused(refusal) => listing::two_digits(u8::from(refusal)),
    }
}
