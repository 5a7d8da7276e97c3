// What the controller does, by its mode and the number that is next: O K R.
ghost use Rattle.std.specs.Prelude.{ℕ, ◌≡◌};
ghost use Rattle.std.proofs.Math.Option as maybe;
ghost use Rattle.rules.specs.Ends.{controller_takes, need_i, order, done, controller_turn, ControllerAct, offer_sent, ok_sent};
ghost use Rattle.ends.specs.AsRules.{to_controller, for_controller, for_console_back};
ghost use Rattle.ends_controller.specs.AsRules.{mode, turn, given};

use crate::{Mode, Turn};
use ends::{Report, ToConsole, ToController};
use numbers::Move;
use wire::{I, J};

#[tactic(auto, using(ground::proofs::Cases::cases), unfolding(rules::specs::Ends::controller_takes, ground::specs::Choice::chosen))]
fn takes_data(now: Mode, i: I) -> Turn
    ensures { (next : maybe.Option ℕ) → result ≡ turn (controller_takes next (mode now) (order i.0 tt)) }
{
    match now {
        Mode::Accept(_, own) if i == own => Turn {
            report: Report::Delivered,
            ..Turn::sends(Mode::Ack(i), ToConsole::Ok(i))
        },
        Mode::Ack(last) if i == last => Turn::stays(now),
        _ => Turn::sends(now, ToConsole::Lost(i)),
    }
}

#[tactic(auto, using(ground::proofs::Cases::cases), unfolding(rules::specs::Ends::controller_takes, ground::specs::Choice::chosen))]
fn takes_done(now: Mode, i: I) -> Turn
    ensures { (next : maybe.Option ℕ) → result ≡ turn (controller_takes next (mode now) (done i.0)) }
{
    match now {
        Mode::Accept(_, own) if i == own => Turn::stays(Mode::Idle),
        Mode::Ack(last) if i == last => Turn::stays(Mode::Idle),
        _ => Turn::stays(now),
    }
}

// The only packet that takes a number.
#[tactic(auto, using(ground::proofs::Cases::cases), unfolding(rules::specs::Ends::controller_takes, ground::specs::Choice::chosen))]
fn takes_needi(now: Mode, j: J, next: Option<I>) -> Turn
    ensures { result ≡ turn (controller_takes (given next) (mode now) (need_i j.0)) }
{
    match (now, next) {
        (Mode::Idle, Some(i)) => Turn {
            numbers: Move::Take,
            ..Turn::stays(Mode::Accept(j, i))
        },
        _ => Turn::stays(now),
    }
}

#[tactic(auto, using(ground::proofs::Cases::cases), unfolding(rules::specs::Ends::controller_takes, ground::specs::Choice::chosen))]
fn takes(now: Mode, p: ToController, next: Option<I>) -> Turn
    ensures { result ≡ turn (controller_takes (given next) (mode now) (to_controller p)) }
{
    match p {
        ToController::NeedI(j) => takes_needi(now, j, next),
        ToController::Data(i) => takes_data(now, i),
        ToController::Done(i) => takes_done(now, i),
    }
}

// R, by kind.
#[tactic(auto, using(ground::proofs::Cases::cases), unfolding(rules::specs::Ends::controller_turn, ground::specs::Choice::chosen))]
pub(crate) fn takes_what_came(now: Mode, came: Option<ToController>, next: Option<I>) -> Turn
    ensures { result ≡ turn (controller_turn (given next) (mode now) (ControllerAct.take (for_controller came))) }
{
    match came {
        None => Turn::stays(now),
        Some(p) => takes(now, p, next),
    }
}

// O, in accept: what is sent.
#[tactic(auto, using(ground::proofs::Cases::cases), unfolding(rules::specs::Ends::offer_sent, ground::specs::Choice::chosen))]
pub fn offer_sent(now: Mode) -> Option<ToConsole>
    ensures { result ≡ for_console_back (offer_sent (mode now)) }
{
    match now {
        Mode::Accept(j, i) => Some(ToConsole::Offer(j, i)),
        _ => None,
    }
}

// K, in ack: what is sent.
#[tactic(auto, using(ground::proofs::Cases::cases), unfolding(rules::specs::Ends::ok_sent, ground::specs::Choice::chosen))]
pub fn ok_sent(now: Mode) -> Option<ToConsole>
    ensures { result ≡ for_console_back (ok_sent (mode now)) }
{
    match now {
        Mode::Ack(last) => Some(ToConsole::Ok(last)),
        _ => None,
    }
}
