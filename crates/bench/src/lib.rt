// The bench: two ends, two channels, fourteen actions. A step reads its ends into modes once (here), decides by them and moves packets (modes), with
// the packet at the place (arriving), the numbers of both ends and the ack (loaded).
#![tactic(auto)]

mod arriving;
mod cells;
mod loaded;
mod modes;
mod runner;
mod traffic;

ghost use Rattle.std.specs.Prelude.{◌≡◌, ◌&&◌};
ghost use Rattle.ground.specs.Cell.{spaces};
ghost use Rattle.wire.specs.declared.Direction.TheVariants as way;
ghost use Rattle.letters.specs.Lines.{Lined};
ghost use Rattle.channels.specs.Table.{table_ok};
ghost use Rattle.bench.specs.Promise.{bench_step, bench_fresh};
ghost use Rattle.bench.specs.Loaded.{loaded_of, outcome_of, lined_step};

use ends::Report;
use ends_console::fields::{Console, console_of, fresh_console, read_console};
use ends_controller::fields::{Controller, controller_of, fresh_controller, read_controller};
use ground::Refusal;
use letters::Line;
use loaded::{Loaded, Stepped, step_known};
use modes::{ConsoleSide, ControllerSide, Modes};
pub use runner::run;
use wire::{Direction, I, J};

// `sent` and `returned` count the packets in the two lent tables: on their way to the controller, and to the console.
#[derive(Clone, Copy)]
pub struct Bench {
    pub console: Console,
    pub controller: Controller,
    pub sent: usize,
    pub returned: usize,
}

#[derive(Clone, Copy)]
pub struct Action {
    pub letter: u8,
    pub place: usize,
    pub copies: usize,
    pub message: [u8; 16],
}

// The message is the delivered one, 16 spaces with any other report.
#[derive(Clone, Copy)]
pub struct Outcome {
    pub report: Report,
    pub message: [u8; 16],
    pub bench: Bench,
}

fn refused(refusal: Refusal, b: Bench) -> Outcome
    ensures { result ≡ record { report = Report.Refused refusal; message = spaces; bench = b } }
{
    Outcome {
        report: Report::Refused(refusal),
        message: [0x20; 16],
        bench: b,
    }
}

// Each table is read once.
fn tables_ok(out: &[u8], sent: usize, back: &[u8], returned: usize) -> bool
    ensures { result ≡ (table_ok way.ToController sent out.now && table_ok way.ToConsole returned back.now) }
{
    channels::table_ok(out, sent, Direction::ToController)
        && channels::table_ok(back, returned, Direction::ToConsole)
}

// The ends that a bench's fields stand for, with what stands beside them.
#[tactic(auto, unfolding(crate::specs::Loaded::loaded_of))]
fn load(
    e: ends_console::End,
    ack: bool,
    held: [u8; 16],
    f: ends_controller::End,
    sent: usize,
    returned: usize,
) -> Loaded
    ensures { result ≡ loaded_of e ack held f sent returned }
{
    Loaded {
        modes: Modes {
            sent,
            returned,
            console: ConsoleSide {
                mode: e.mode,
                up: e.up,
                held,
            },
            controller: ControllerSide {
                mode: f.mode,
                up: f.up,
            },
        },
        console: e.numbers,
        controller: f.numbers,
        ack,
    }
}

#[tactic(auto, unfolding(crate::specs::Loaded::outcome_of))]
fn outcome_of(t: Stepped) -> Outcome
    ensures { result ≡ outcome_of t }
{
    let Loaded {
        modes,
        console,
        controller,
        ack,
    } = t.after;
    let first = ends_console::End {
        numbers: console,
        mode: modes.console.mode,
        up: modes.console.up,
    };
    let second = ends_controller::End {
        numbers: controller,
        mode: modes.controller.mode,
        up: modes.controller.up,
    };
    let message = t.message;
    Outcome {
        report: t.report,
        message,
        bench: Bench {
            console: console_of(first, ack, modes.console.held),
            controller: controller_of(second),
            sent: modes.sent,
            returned: modes.returned,
        },
    }
}

// The step of a letter that is an action.
fn lined_step(b: Bench, line: Line, a: Action, out: &mut [u8], back: &mut [u8]) -> Outcome
    requires { Lined line }
    ensures { record { outcome = result; out = out.new; back = back.new } ≡ lined_step b line a out.old back.old }
{
    let Some(e) = read_console(b.console) else {
        return refused(Refusal::IllFormed, b);
    };
    let Some(f) = read_controller(b.controller) else {
        return refused(Refusal::IllFormed, b);
    };
    if !tables_ok(out, b.sent, back, b.returned) {
        return refused(Refusal::IllFormed, b);
    }
    let loaded = load(e, b.console.ack, b.console.message, f, b.sent, b.returned);
    outcome_of(step_known(loaded, line, a, out, back))
}

// One of the fourteen actions. `out` and `back` are the tables of the packets to the controller and to the console.
pub fn step(b: Bench, a: Action, out: &mut [u8], back: &mut [u8]) -> Outcome
    ensures { record { outcome = result; out = out.new; back = back.new } ≡ bench_step b a out.old back.old }
{
    match letters::find(a.letter) {
        None => refused(Refusal::NoAction, b),
        Some(line) => lined_step(b, line, a, out, back),
    }
}

// Both ends up and idle, both tables cleared; a table of another length is 2, and neither is touched.
pub fn fresh(j: J, i: I, out: &mut [u8], back: &mut [u8]) -> Outcome
    ensures { record { outcome = result; out = out.new; back = back.new } ≡ bench_fresh j i out.old back.old }
{
    let b = Bench {
        console: fresh_console(j),
        controller: fresh_controller(i),
        sent: 0,
        returned: 0,
    };
    if out.len() != 2048 {
        return refused(Refusal::IllFormed, b);
    }
    if back.len() != 2048 {
        return refused(Refusal::IllFormed, b);
    }
    tables::clear(out);
    tables::clear(back);
    Outcome {
        report: Report::Nothing,
        message: [0x20; 16],
        bench: b,
    }
}
