// A bench by its modes, with the numbers of both ends and the console's ack: the thin layer that offers and moves the numbers, and keeps the ack.
// What is known (Well) is said of a value and the two lent tables, as in modes. Few and Lined speak of the whole line of a letter: as a ghost field of
// `Line` each of the table's fourteen would carry a proof, for three functions. Line and action stay two: the line is the table's, the action C's.
ghost use Rattle.std.specs.Prelude.{◌≡◌, ◌&&◌, ltb};
ghost use Rattle.ground.specs.Cell.{spaces};
ghost use Rattle.letters.specs.Lines.{Lined};
ghost use Rattle.bench.specs.ByModes.{Few};
ghost use Rattle.rules.specs.Supply.{numbering};
ghost use Rattle.numbers.specs.Numbers.{numbers_means};
ghost use Rattle.bench.specs.WithNumbers.{as_it_is, next_j, next_i};
ghost use Rattle.bench.specs.Loaded.{Well, numbers_offered, moved_by, stepped_as, loaded_step};

use crate::Action;
use crate::arriving::{for_the_console, for_the_controller};
use crate::modes::{Modes, Offered, Told, console_asked, controller_asked, loses};
use ends::{Report, ToController};
use ends_console::ack::{Shown, ack_use, shows};
use ends_controller::acts::is_unknown;
use ground::Refusal;
use letters::{Asks, ConsoleAsk, ControllerAsk, Line};
use numbers::Numbers;
use wire::{I, J};

#[derive(Clone, Copy)]
pub struct Loaded {
    pub modes: Modes,
    pub console: Numbers,
    pub controller: Numbers,
    pub ack: bool,
}

// An `Outcome` of the bench by its modes; that one's field is the bench, by the name that callers know.
#[derive(Clone, Copy)]
pub struct Stepped {
    pub report: Report,
    pub message: [u8; 16],
    pub after: Loaded,
}

pub(crate) fn refused(refusal: Refusal, b: Loaded) -> Stepped
    ensures { result ≡ record { report = Report.Refused refusal; message = spaces; after = b } }
{
    Stepped {
        report: Report::Refused(refusal),
        message: [0x20; 16],
        after: b,
    }
}

fn offers(console: Numbers, controller: Numbers, came: Option<ToController>) -> Offered
    ensures { result ≡ numbers_offered console controller came }
{
    Offered {
        j: console.next().map(J),
        i: controller.next().map(I),
        unknown: is_unknown(controller, came),
    }
}

// `shown` is what is shown of what was told, and the ack then.
fn moved(console: Numbers, controller: Numbers, shown: Shown, told: Told) -> Stepped
    ensures { result ≡ moved_by console controller shown told }
{
    let message = told.message;
    Stepped {
        report: shown.report,
        message,
        after: Loaded {
            modes: told.after,
            console: console.after(told.console),
            controller: controller.after(told.controller),
            ack: shown.ack,
        },
    }
}

// No answer arrives: what is told is shown.
fn as_it_is(ack: bool, told: Told) -> Shown
    ensures { result ≡ as_it_is ack told }
{
    Shown {
        report: told.report,
        ack,
    }
}

fn too_many(uses: bool, copies: usize) -> bool
    ensures { result ≡ (uses && ltb 3 copies) }
{
    uses && 3 < copies
}

// What the console is asked.
fn console_step(
    b: Loaded,
    ask: ConsoleAsk,
    line: Line,
    a: Action,
    out: &mut [u8],
    back: &mut [u8],
) -> Stepped
    requires well { Well b out.old back.old }
    requires few { Few line a }
    requires asks_value { line.asks ≡ Asks.Console ask }
    ensures { stepped_as result out.new back.new ≡ loaded_step b out.old back.old line a }
{
    let came = for_the_console(ask, a.place, back, b.modes.returned);
    let next = offers(b.console, b.controller, came.controller);
    let told = console_asked(b.modes, next, came, ask, line, a, out, back);
    match told.report {
        Report::Refused(_) => moved(b.console, b.controller, as_it_is(b.ack, told), told),
        report => moved(
            b.console,
            b.controller,
            shows(ack_use(ask), b.ack, report),
            told,
        ),
    }
}

// What the controller is asked.
fn controller_step(
    b: Loaded,
    ask: ControllerAsk,
    line: Line,
    a: Action,
    out: &mut [u8],
    back: &mut [u8],
) -> Stepped
    requires well { Well b out.old back.old }
    requires few { Few line a }
    requires asks_value { line.asks ≡ Asks.Controller ask }
    ensures { stepped_as result out.new back.new ≡ loaded_step b out.old back.old line a }
{
    let came = for_the_controller(ask, a.place, out, b.modes.sent);
    let next = offers(b.console, b.controller, came.controller);
    let told = controller_asked(b.modes, next, came, ask, line, a, out, back);
    moved(b.console, b.controller, as_it_is(b.ack, told), told)
}

// A packet lost asks no end, and moves no numbers; they are offered and moved as in the other arms, so that one proof serves.
fn losing_step(b: Loaded, line: Line, a: Action, out: &mut [u8], back: &mut [u8]) -> Stepped
    requires well { Well b out.old back.old }
    requires few { Few line a }
    requires asks_value { line.asks ≡ Asks.NoEnd }
    ensures { stepped_as result out.new back.new ≡ loaded_step b out.old back.old line a }
{
    let next = offers(b.console, b.controller, None);
    let told = loses(b.modes, next, line, a, out, back);
    moved(b.console, b.controller, as_it_is(b.ack, told), told)
}

// The step of a bench that is known to be well formed, of a letter's line of the table. Each arm has its own way to the end, so that what the others
// need is not carried along.
pub(crate) fn step_known(
    b: Loaded,
    line: Line,
    a: Action,
    out: &mut [u8],
    back: &mut [u8],
) -> Stepped
    requires well { Well b out.old back.old }
    requires lined { Lined line }
    ensures { stepped_as result out.new back.new ≡ loaded_step b out.old back.old line a }
{
    if too_many(line.copies, a.copies) {
        return refused(Refusal::TooManyCopies, b);
    }
    match line.asks {
        Asks::Console(ask) => console_step(b, ask, line, a, out, back),
        Asks::Controller(ask) => controller_step(b, ask, line, a, out, back),
        Asks::NoEnd => losing_step(b, line, a, out, back),
    }
}
