// What a console decides that is asked: it refuses, or takes its turn. It knows no tables and not where numbers come from. One match on an enum:
// its arms differ in what they need, and a closure for each would be handed all of it.
ghost use Rattle.std.specs.Prelude.{◌≡◌, Bool, Option};
ghost use Rattle.rules.specs.Offered.{offered};
ghost use Rattle.rules.specs.Ends.{console_step, put, tell_ack, ConsoleAct};
ghost use Rattle.wire.specs.declared.J as j;
ghost use Rattle.ends.specs.AsRules.{tested, for_console};
ghost use Rattle.ends_console.specs.AsRules.{on_offer, asked_to, decided};

use crate::refusals::{ack_refusal, put_refusal};
use crate::turns::{data_sent, needi_sent, puts, takes_what_came};
use crate::{Decided, Mode};
use ends::ToConsole;
use ground::Refusal;
use letters::ConsoleAsk;
use wire::J;

fn puts_one(mode: Mode, up: bool, good: bool, next: Option<J>) -> Decided
    ensures { result ≡ decided (console_step offered (tested good) (on_offer mode up next) (put tt)) }
{
    match put_refusal(mode, up, good, next) {
        Err(refusal) => Decided::refused(refusal, mode, up),
        Ok(()) => Decided::turned(puts(mode, next), up),
    }
}

fn takes_one(mode: Mode, up: bool, came: Option<ToConsole>) -> Decided
    ensures { (next : Option j.J) (good : Bool) → result ≡ decided (console_step offered (tested good) (on_offer mode up next) (ConsoleAct.take (for_console came))) }
{
    if !up {
        return Decided::refused(Refusal::IsDown, mode, up);
    }
    Decided::turned(takes_what_came(mode, came), up)
}

// A. What it tells is not decided here.
fn tells_one(mode: Mode, up: bool) -> Decided
    ensures { (next : Option j.J) (good : Bool) → result ≡ decided (console_step offered (tested good) (on_offer mode up next) tell_ack) }
{
    match ack_refusal(mode, up) {
        Err(refusal) => Decided::refused(refusal, mode, up),
        Ok(()) => Decided::stays(mode, up, None),
    }
}

// `came` is the packet in, `good` says that the message put is 16 cells, `next` is the number on offer.
pub fn decides(
    mode: Mode,
    up: bool,
    ask: ConsoleAsk,
    came: Option<ToConsole>,
    good: bool,
    next: Option<J>,
) -> Decided
    ensures { result ≡ decided (console_step offered (tested good) (on_offer mode up next) (asked_to ask came)) }
{
    match ask {
        ConsoleAsk::Put => puts_one(mode, up, good, next),
        ConsoleAsk::SendNeedI => Decided::sends(mode, up, needi_sent(mode)),
        ConsoleAsk::SendData => Decided::sends(mode, up, data_sent(mode)),
        ConsoleAsk::Take => takes_one(mode, up, came),
        ConsoleAsk::GoDown => Decided::stays(mode, false, None),
        ConsoleAsk::ComeBack => Decided::comes_back(Mode::Idle, mode, up),
        ConsoleAsk::TellAck => tells_one(mode, up),
    }
}
