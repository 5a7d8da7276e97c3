// The runner: records in, a line for each out.
ghost use Rattle.std.specs.Prelude.{◌<◌, ◌≡◌, length};
ghost use Rattle.bench.specs.Running.{limit_of, at_front, list_run};
ghost use Rattle.letters.specs.Lines.{Lined};
ghost use Rattle.bench.specs.Loaded.{Well, stepped_as, line_step, record_step, Played, lines_on, started};

use crate::Action;
use crate::cells::{letter_cell, report_cells};
use crate::loaded::{Loaded, Stepped, refused, step_known};
use crate::modes::{ConsoleSide, ControllerSide, Modes};
use ground::Refusal;
use letters::Line;
use listing::Uses;
use numbers::Numbers;

// A record whose letter has this line; one that is not well formed is 1.
fn play_line(b: Loaded, line: Line, part: &[u8], out: &mut [u8], back: &mut [u8]) -> Stepped
    requires well { Well b out.old back.old }
    requires lined { Lined line }
    ensures { stepped_as result out.new back.new ≡ line_step b out.old back.old line part.now }
{
    let uses = Uses {
        place: line.place,
        copies: line.copies,
        message: line.message,
    };
    match listing::read(part, uses) {
        None => refused(Refusal::NoAction, b),
        Some(r) => {
            let message = r.message;
            let a = Action {
                letter: line.byte,
                place: r.place,
                copies: r.copies,
                message,
            };
            step_known(b, line, a, out, back)
        }
    }
}

// A byte that is no action's letter is 1.
fn play(b: Loaded, part: &[u8], out: &mut [u8], back: &mut [u8]) -> Stepped
    requires well { Well b out.old back.old }
    requires part_nonzero { 0 < length part.now }
    ensures { stepped_as result out.new back.new ≡ record_step b out.old back.old part.now }
{
    match letters::find(part[0]) {
        None => refused(Refusal::NoAction, b),
        Some(line) => play_line(b, line, part, out, back),
    }
}

// One record: the step, and its line.
fn play_record(
    b: Loaded,
    part: &[u8],
    number: usize,
    line: &mut [u8],
    out: &mut [u8],
    back: &mut [u8],
) -> Loaded
    requires well { Well b out.old back.old }
    requires part_nonzero { 0 < length part.now }
    requires line_len { length line.old ≡ 27 }
    ensures { Played b out.old back.old part.now number result line.new out.new back.new }
{
    let told = play(b, part, out, back);
    let letter = letter_cell(part[0], told.report);
    listing::write_line(
        line,
        number,
        letter,
        report_cells(told.report),
        told.message,
    );
    told.after
}

// At most 9,999 records, and no more than there is room for lines.
fn limit_of(room: usize) -> usize
    ensures { result ≡ limit_of room }
{
    (room / 27).min(9999)
}

// Gives the bytes that were written. The tables are a fresh or a known bench's.
fn run_on(b: Loaded, input: &[u8], output: &mut [u8], out: &mut [u8], back: &mut [u8]) -> usize
    requires { Well b out.old back.old }
    ensures { record { number = result; output = output.new } ≡ at_front (lines_on b out.old back.old input.now (length output.old)) output.old }
{
    let limit = limit_of(output.len());
    let mut at = b;
    for n in 0..limit {
        let start = n * 21;
        if input.len() <= start {
            return n * 27;
        }
        let end = listing::record_end(start, input.len());
        let line = n * 27;
        at = play_record(
            at,
            &input[start..end],
            n + 1,
            &mut output[line..line + 27],
            out,
            back,
        );
    }
    limit * 27
}

// A fresh bench with 0 and 0.
fn starts() -> Loaded
    ensures { result ≡ started }
{
    Loaded {
        modes: Modes {
            sent: 0,
            returned: 0,
            console: ConsoleSide {
                mode: ends_console::Mode::Idle,
                up: true,
                held: [0x20; 16],
            },
            controller: ControllerSide {
                mode: ends_controller::Mode::Idle,
                up: true,
            },
        },
        console: Numbers::fresh(0),
        controller: Numbers::fresh(0),
        ack: false,
    }
}

// Plays a list of records of 21 bytes on a fresh bench and writes a line of 27 bytes for each, as far as there is room. Gives the bytes
// that were written.
pub fn run(input: &[u8], output: &mut [u8]) -> usize
    ensures { record { number = result; output = output.new } ≡ list_run input.now output.old }
{
    let mut out = [0; 2048];
    let mut back = [0; 2048];
    run_on(starts(), input, output, &mut out, &mut back)
}
