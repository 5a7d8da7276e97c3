// The list program for a person: after each record's line the sentence of a refusal or of an answer, and how both ends and both channels stand. All
// that it adds is indented.
#![tactic(auto)]

mod answers;
mod refusals;
mod standing;
mod text;

use bench::{Action, Bench};
use letters::Line;
use listing::Uses;
use wire::{I, J};

// None: the record is not well formed.
fn lined_action(line: Line, part: &[u8]) -> Option<Action> {
    let uses = Uses {
        place: line.place,
        copies: line.copies,
        message: line.message,
    };
    let fields = listing::read(part, uses)?;
    let message = fields.message;
    Some(Action {
        letter: line.byte,
        place: fields.place,
        copies: fields.copies,
        message,
    })
}

// A record that is none gets no action's letter, so that the step refuses it by 1.
fn action_of(part: &[u8]) -> Action {
    let first = part.first().copied();
    let line = first.and_then(letters::find);
    let action = line.and_then(|line| lined_action(line, part));
    action.unwrap_or(Action {
        letter: b'?',
        place: 0,
        copies: 0,
        message: [b' '; 16],
    })
}

// One record: its line, and how the bench stands after its step.
fn turn(b: Bench, part: &[u8], line: &[u8], out: &mut [u8], back: &mut [u8]) -> Bench {
    let outcome = bench::step(b, action_of(part), out, back);
    text::say(line);
    refusals::print(outcome.report);
    answers::print(outcome.report);
    standing::print(outcome.bench, out, back);
    outcome.bench
}

// Plays the records on a fresh bench with 0 and 0. `lines` has the list program's line for each.
fn play(input: &[u8], lines: &[u8], out: &mut [u8], back: &mut [u8]) {
    let mut b = bench::fresh(J(0), I(0), out, back).bench;
    for (record, line) in input.chunks(21).zip(lines.chunks(27)) {
        b = turn(b, record, line, out, back);
    }
}

fn main() {
    let mut input = [0u8; 209979]; // 9,999 records of 21 bytes; bytes after them are not looked at
    let mut lines = [0u8; 269973]; // 9,999 lines of 27 bytes
    let mut out = [0; 2048];
    let mut back = [0; 2048];
    let got = io::read_full(0, &mut input);
    bench::run(&input[..got], &mut lines);
    play(&input[..got], &lines, &mut out, &mut back);
}
