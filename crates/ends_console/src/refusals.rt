// What the console refuses, by its mode, whether it is up, and the number that is next.
ghost use Rattle.std.specs.Prelude.{◌≡◌, [], ◌∷◌};
ghost use Rattle.ground.specs.First.{refusal, first};
ghost use Rattle.ground.specs.Refusals.{refused_by};
ghost use Rattle.rules.specs.Offered.{offered};
ghost use Rattle.rules.specs.Ends.{console_rules, put, holding, down_4};
ghost use Rattle.ends.specs.AsRules.{tested};
ghost use Rattle.ends_console.specs.AsRules.{mode, on_offer};

use crate::Mode;
use ground::Refusal;
use wire::J;

// The first refusal of P; `good` says that the message put is 16 cells.
#[tactic(auto, using(ground::proofs::Cases::cases), unfolding(ground::specs::First::first, ground::specs::Choice::chosen, ground::specs::First::refusal, ground::specs::First::applies, rules::specs::Ends::console_rules, rules::specs::Ends::holding, rules::specs::Ends::absent, ends::specs::AsRules::tested))]
pub(crate) fn put_refusal(now: Mode, up: bool, good: bool, next: Option<J>) -> Result<(), Refusal>
    ensures { result ≡ refused_by (refusal (console_rules offered (tested good) (on_offer now up next) (put tt))) }
{
    if !good {
        return Err(Refusal::NoMessage);
    }
    if !up {
        return Err(Refusal::IsDown);
    }
    match (now, next) {
        (Mode::Idle, Some(_)) => Ok(()),
        (Mode::Idle, None) => Err(Refusal::NumbersSpent),
        _ => Err(Refusal::OtherMode),
    }
}

// The first refusal of A.
#[tactic(auto, using(ground::proofs::Cases::cases), unfolding(ground::specs::First::first, ground::specs::Choice::chosen, rules::specs::Ends::holding))]
pub fn ack_refusal(now: Mode, up: bool) -> Result<(), Refusal>
    ensures { result ≡ refused_by (first (down_4 up ∷ (6, holding (mode now)) ∷ [])) }
{
    if !up {
        return Err(Refusal::IsDown);
    }
    match now {
        Mode::Idle => Ok(()),
        _ => Err(Refusal::OtherMode),
    }
}
