// What the console does, by its mode and the number that is next: P Q D S.
ghost use Rattle.std.specs.Prelude.{ℕ, ◌≡◌};
ghost use Rattle.std.proofs.Math.Option as maybe;
ghost use Rattle.rules.specs.Ends.{console_takes, offer, ok, lost, console_turn, ConsoleAct, need_i_sent, data_sent, puts};
ghost use Rattle.ends.specs.AsRules.{to_console, for_console, for_controller_back};
ghost use Rattle.ends_console.specs.AsRules.{mode, turn, given};

use crate::{Mode, Turn};
use ends::{Report, ToConsole, ToController};
use numbers::Move;
use wire::{I, J};

#[tactic(auto, using(ground::proofs::Cases::cases), unfolding(rules::specs::Ends::console_takes, ground::specs::Choice::chosen))]
fn takes_offer(now: Mode, j: J, i: I) -> Turn
    ensures { result ≡ turn (console_takes (mode now) (offer j.0 i.0)) }
{
    match now {
        Mode::NeedI(own) if j == own => Turn::stays(Mode::Send(i)),
        Mode::Send(last) if i == last => Turn::stays(now),
        _ => Turn::sends(now, ToController::Done(i)),
    }
}

#[tactic(auto, using(ground::proofs::Cases::cases), unfolding(rules::specs::Ends::console_takes, ground::specs::Choice::chosen))]
fn takes_ok(now: Mode, i: I) -> Turn
    ensures { result ≡ turn (console_takes (mode now) (ok i.0)) }
{
    match now {
        Mode::Send(last) if i == last => Turn {
            report: Report::Ok,
            ..Turn::sends(Mode::Idle, ToController::Done(i))
        },
        _ => Turn::sends(now, ToController::Done(i)),
    }
}

#[tactic(auto, using(ground::proofs::Cases::cases), unfolding(rules::specs::Ends::console_takes, ground::specs::Choice::chosen))]
fn takes_lost(now: Mode, i: I) -> Turn
    ensures { result ≡ turn (console_takes (mode now) (lost i.0)) }
{
    match now {
        Mode::Send(last) if i == last => Turn {
            report: Report::Lost,
            ..Turn::stays(Mode::Idle)
        },
        _ => Turn::stays(now),
    }
}

#[tactic(auto, using(ground::proofs::Cases::cases), unfolding(rules::specs::Ends::console_takes, ground::specs::Choice::chosen))]
fn takes(now: Mode, p: ToConsole) -> Turn
    ensures { result ≡ turn (console_takes (mode now) (to_console p)) }
{
    match p {
        ToConsole::Offer(j, i) => takes_offer(now, j, i),
        ToConsole::Ok(i) => takes_ok(now, i),
        ToConsole::Lost(i) => takes_lost(now, i),
    }
}

// S, by kind.
#[tactic(auto, using(ground::proofs::Cases::cases), unfolding(rules::specs::Ends::console_turn, ground::specs::Choice::chosen))]
pub(crate) fn takes_what_came(now: Mode, came: Option<ToConsole>) -> Turn
    ensures { (next : maybe.Option ℕ) → result ≡ turn (console_turn next (mode now) (ConsoleAct.take (for_console came))) }
{
    match came {
        None => Turn::stays(now),
        Some(p) => takes(now, p),
    }
}

// P that is not refused. Its success is no delivery.
#[tactic(auto, using(ground::proofs::Cases::cases), unfolding(rules::specs::Ends::puts, ground::specs::Choice::chosen))]
pub(crate) fn puts(now: Mode, next: Option<J>) -> Turn
    ensures { result ≡ turn (puts (given next) (mode now) tt) }
{
    match next {
        None => Turn::stays(now),
        Some(j) => Turn {
            numbers: Move::Take,
            ..Turn::stays(Mode::NeedI(j))
        },
    }
}

// Q, in needI: what is sent.
#[tactic(auto, using(ground::proofs::Cases::cases), unfolding(rules::specs::Ends::need_i_sent, ground::specs::Choice::chosen))]
pub fn needi_sent(now: Mode) -> Option<ToController>
    ensures { result ≡ for_controller_back (need_i_sent (mode now)) }
{
    match now {
        Mode::NeedI(j) => Some(ToController::NeedI(j)),
        _ => None,
    }
}

// D, in send: what is sent.
#[tactic(auto, using(ground::proofs::Cases::cases), unfolding(rules::specs::Ends::data_sent, ground::specs::Choice::chosen))]
pub fn data_sent(now: Mode) -> Option<ToController>
    ensures { result ≡ for_controller_back (data_sent (mode now)) }
{
    match now {
        Mode::Send(last) => Some(ToController::Data(last)),
        _ => None,
    }
}
