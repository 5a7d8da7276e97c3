// The step of a bench by its modes, known to be well formed: an end decides, then packets are moved. What is next of the ends' numbers is handed
// in, and what became of them handed back, so that nothing here knows where numbers come from. What is known (Known) is said of a value and the two
// lent tables, which are changed one after the other: a type's invariant would not hold in between. The tables are lent apart, as C lends them.
ghost use Rattle.std.specs.Prelude.{◌≡◌, true, ◌&&◌, leb};
ghost use Rattle.ground.specs.Cell.{spaces, is_message};
ghost use Rattle.ground.specs.Choice.{when◌then◌else◌};
ghost use Rattle.ground.specs.declared.refusals.Refusal.TheVariants.{NoPlace};
ghost use Rattle.bench.specs.Traffic.{count_taken, table_taken};
ghost use Rattle.bench.specs.ByModes.{Known, told_as, modes_step, OnConsole, OnController, OnLosing, ConsoleReady, ControllerReady};

use crate::Action;
use crate::arriving::Came;
use crate::traffic::{from_console, from_controller, has_room, send, take};
use ends::Report;
use ends::packets::delivers;
use ground::Refusal;
use letters::{ConsoleAsk, ControllerAsk, Line};
use numbers::Move;
use wire::{Direction, I, J};

// The console with the message that it holds, and the controller, without their numbers.
#[derive(Clone, Copy)]
pub struct ConsoleSide {
    pub mode: ends_console::Mode,
    pub up: bool,
    pub held: [u8; 16],
}

#[derive(Clone, Copy)]
pub struct ControllerSide {
    pub mode: ends_controller::Mode,
    pub up: bool,
}

// Both, and the counts of the two tables; in this order the list program is shortest.
#[derive(Clone, Copy)]
pub struct Modes {
    pub sent: usize,
    pub returned: usize,
    pub console: ConsoleSide,
    pub controller: ControllerSide,
}

// What the numbers of both ends say: the next of each, and whether what came bears an I that the controller never gave out.
#[derive(Clone, Copy)]
pub struct Offered {
    pub j: Option<J>,
    pub i: Option<I>,
    pub unknown: bool,
}

// What a step tells, and what it does to the numbers of either end.
#[derive(Clone, Copy)]
pub struct Told {
    pub report: Report,
    pub message: [u8; 16],
    pub console: Move,
    pub controller: Move,
    pub after: Modes,
}

fn refused(refusal: Refusal, b: Modes) -> Told
    ensures { result ≡ record { report = Report.Refused refusal; message = spaces; console = Move.Stay; controller = Move.Stay; after = b } }
{
    Told {
        report: Report::Refused(refusal),
        message: [0x20; 16],
        console: Move::Stay,
        controller: Move::Stay,
        after: b,
    }
}

fn no_place(uses: bool, count: usize, place: usize) -> bool
    ensures { result ≡ (uses && leb count place) }
{
    uses && count <= place
}

// The cells of a message are looked at by a letter that uses it.
#[tactic(auto, unfolding(ground::specs::Choice::chosen))]
fn is_good(uses: bool, message: &[u8; 16]) -> bool
    ensures { result ≡ (when uses then is_message message.now else true) }
{
    !uses || ground::is_message(message)
}

#[tactic(auto, unfolding(ground::specs::Choice::chosen))]
fn keeps(uses: bool, message: [u8; 16], held: [u8; 16]) -> [u8; 16]
    ensures { result ≡ (when uses then message else held) }
{
    if uses { message } else { held }
}

// What a console decided, with the message that it holds then and the counts of the two tables.
fn console_told(
    b: Modes,
    d: ends_console::Decided,
    held: [u8; 16],
    sent: usize,
    returned: usize,
) -> Told
    ensures { result ≡ record { report = d.report; message = spaces; console = d.numbers; controller = Move.Stay; after = record { console = record { mode = d.mode; up = d.up; held = held }; controller = b.controller; sent = sent; returned = returned } } }
{
    Told {
        report: d.report,
        message: [0x20; 16],
        console: d.numbers,
        controller: Move::Stay,
        after: Modes {
            sent,
            returned,
            console: ConsoleSide {
                mode: d.mode,
                up: d.up,
                held,
            },
            controller: b.controller,
        },
    }
}

// What a console decided that does not refuse, unless there is no room for what it sends. `next`, `came` and `ask` are there for the promise alone.
fn console_moves(
    b: Modes,
    d: ends_console::Decided,
    next: Offered,
    came: Came,
    ask: ConsoleAsk,
    line: Line,
    a: Action,
    out: &mut [u8],
    back: &mut [u8],
) -> Told
    requires known { Known b out.old back.old }
    requires console_ready { ConsoleReady b next out.old back.old line a ask came d }
    ensures { told_as result next out.new back.new ≡ modes_step b next out.old back.old line a }
{
    let held = keeps(line.message, a.message, b.console.held);
    let sent = from_console(d.sent, held);
    if !has_room(&sent, b.sent, a.copies) {
        return refused(Refusal::NoRoom, b);
    }
    let returned = take(line.place, back, b.returned, a.place);
    let count = send(sent, a.copies, out, b.sent);
    console_told(b, d, held, count, returned)
}

pub(crate) fn console_asked(
    b: Modes,
    next: Offered,
    came: Came,
    ask: ConsoleAsk,
    line: Line,
    a: Action,
    out: &mut [u8],
    back: &mut [u8],
) -> Told
    requires known { Known b out.old back.old }
    requires on_console { OnConsole b next out.old back.old line a ask came }
    ensures { told_as result next out.new back.new ≡ modes_step b next out.old back.old line a }
{
    let good = is_good(line.message, &a.message);
    let d = ends_console::decides::decides(
        b.console.mode,
        b.console.up,
        ask,
        came.console,
        good,
        next.j,
    );
    if let Some(refusal) = d.report.refusal() {
        return refused(refusal, b);
    }
    if no_place(line.place, b.returned, a.place) {
        return refused(Refusal::NoPlace, b);
    }
    console_moves(b, d, next, came, ask, line, a, out, back)
}

// What a controller decided that does not refuse, unless there is no room for what it sends. `next` and `ask` are there for the promise alone.
fn controller_moves(
    b: Modes,
    d: ends_controller::Decided,
    next: Offered,
    came: Came,
    ask: ControllerAsk,
    line: Line,
    a: Action,
    out: &mut [u8],
    back: &mut [u8],
) -> Told
    requires known { Known b out.old back.old }
    requires controller_ready { ControllerReady b next out.old back.old line a ask came d }
    ensures { told_as result next out.new back.new ≡ modes_step b next out.old back.old line a }
{
    let sent = from_controller(d.sent);
    if !has_room(&sent, b.returned, a.copies) {
        return refused(Refusal::NoRoom, b);
    }
    let left = take(line.place, out, b.sent, a.place);
    let count = send(sent, a.copies, back, b.returned);
    Told {
        report: d.report,
        message: delivers(d.report, came.message),
        console: Move::Stay,
        controller: d.numbers,
        after: Modes {
            sent: left,
            returned: count,
            console: b.console,
            controller: ControllerSide {
                mode: d.mode,
                up: d.up,
            },
        },
    }
}

pub(crate) fn controller_asked(
    b: Modes,
    next: Offered,
    came: Came,
    ask: ControllerAsk,
    line: Line,
    a: Action,
    out: &mut [u8],
    back: &mut [u8],
) -> Told
    requires known { Known b out.old back.old }
    requires on_controller { OnController b next out.old back.old line a ask came }
    ensures { told_as result next out.new back.new ≡ modes_step b next out.old back.old line a }
{
    let d = ends_controller::decides::decides(
        b.controller.mode,
        b.controller.up,
        ask,
        came.controller,
        next.i,
    );
    if let Some(refusal) = d.report.refusal() {
        return refused(refusal, b);
    }
    if next.unknown {
        return refused(Refusal::UnknownNumber, b);
    }
    if no_place(line.place, b.sent, a.place) {
        return refused(Refusal::NoPlace, b);
    }
    controller_moves(b, d, next, came, ask, line, a, out, back)
}

// A packet lost out of a table: what is reported, and the count then.
#[tactic(auto, using(ground::proofs::Cases::cases), unfolding(crate::specs::Traffic::count_taken, crate::specs::Traffic::table_taken, ground::specs::Choice::chosen))]
fn lost(table: &mut [u8], count: usize, place: usize) -> (Report, usize)
    ensures { (result ≡ (when leb count place then Report.Refused NoPlace else Report.Nothing, count_taken true count place)) × (table.new ≡ table_taken true table.old count place) }
{
    if count <= place {
        return (Report::Refused(Refusal::NoPlace), count);
    }
    (Report::Nothing, take(true, table, count, place))
}

// A refusal comes this way too: with one way for what stays, the compiler need not lay it out beforehand.
fn packet_lost(b: Modes, report: Report, sent: usize, returned: usize) -> Told
    ensures { result ≡ record { report = report; message = spaces; console = Move.Stay; controller = Move.Stay; after = record { console = b.console; controller = b.controller; sent = sent; returned = returned } } }
{
    Told {
        report,
        message: [0x20; 16],
        console: Move::Stay,
        controller: Move::Stay,
        after: Modes {
            sent,
            returned,
            ..b
        },
    }
}

// A packet lost on its way. `next` is there for the promise alone.
pub(crate) fn loses(
    b: Modes,
    next: Offered,
    line: Line,
    a: Action,
    out: &mut [u8],
    back: &mut [u8],
) -> Told
    requires known { Known b out.old back.old }
    requires on_losing { OnLosing b next out.old back.old line a }
    ensures { told_as result next out.new back.new ≡ modes_step b next out.old back.old line a }
{
    match line.takes {
        Some(Direction::ToConsole) => {
            let (report, returned) = lost(back, b.returned, a.place);
            packet_lost(b, report, b.sent, returned)
        }
        Some(Direction::ToController) => {
            let (report, sent) = lost(out, b.sent, a.place);
            packet_lost(b, report, sent, b.returned)
        }
        None => packet_lost(b, Report::Nothing, b.sent, b.returned), // no letter of the table: who asks no end takes a packet
    }
}
