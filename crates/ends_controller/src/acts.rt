// The thin layer over what a controller does: the number that is next comes from its own numbers, and they are moved.
ghost use Rattle.std.specs.Prelude.{◌≡◌};
ghost use Rattle.std.proofs.Math.Option.{some};
ghost use Rattle.ground.specs.First.{refusal};
ghost use Rattle.ground.specs.Refusals.{refused_by};
ghost use Rattle.rules.specs.Supply.{numbering};
ghost use Rattle.rules.specs.Ends.{controller_acts, controller_rules, ControllerAct, unknown};
ghost use Rattle.numbers.specs.Numbers.{numbers_means};
ghost use Rattle.ends.specs.AsRules.{to_controller, for_controller};
ghost use Rattle.ends_controller.specs.AsRules.{end, next_of, acted};

use crate::{Acted, End, Mode, turns};
use ends::ToController;
use ground::Refusal;
use numbers::Numbers;
use wire::I;

// An I; a console's is a J.
fn next_of(e: End) -> Option<I>
    ensures { result ≡ next_of e }
{
    e.numbers.next().map(I)
}

// R, by kind.
pub fn takes_what_came(e: End, came: Option<ToController>) -> Acted
    ensures { result ≡ acted (controller_acts numbering (end e) (ControllerAct.take (for_controller came))) }
{
    e.moved(turns::takes_what_came(e.mode, came, next_of(e)))
}

// X.
#[tactic(auto, unfolding(rules::specs::Ends::controller_acts, rules::specs::Ends::controller_turn, rules::specs::Ends::end_after, rules::specs::Ends::numbers_after, rules::specs::Ends::up_after))]
pub fn goes_down(e: End) -> Acted
    ensures { result ≡ acted (controller_acts numbering (end e) ControllerAct.go_down) }
{
    e.goes_down()
}

// Y.
#[tactic(auto, unfolding(rules::specs::Ends::controller_acts, rules::specs::Ends::controller_turn, rules::specs::Ends::end_after, rules::specs::Ends::numbers_after, rules::specs::Ends::up_after))]
pub fn comes_back(e: End) -> Acted
    ensures { result ≡ acted (controller_acts numbering (end e) ControllerAct.come_back) }
{
    e.comes_back(Mode::Idle)
}

#[tactic(auto, unfolding(rules::specs::Ends::unknown))]
fn bears_unknown(n: Numbers, p: ToController) -> bool
    ensures { result ≡ unknown (numbering.used (numbers_means n)) (some (to_controller p)) }
{
    match p {
        ToController::NeedI(_) => false,
        ToController::Data(i) | ToController::Done(i) => !n.is_used(i.0),
    }
}

// Does what came bear a number that this controller never gave out?
#[tactic(auto, unfolding(rules::specs::Ends::unknown))]
pub fn is_unknown(n: Numbers, came: Option<ToController>) -> bool
    ensures { result ≡ unknown (numbering.used (numbers_means n)) (for_controller came) }
{
    match came {
        None => false,
        Some(p) => bears_unknown(n, p),
    }
}

// The first refusal of R.
#[tactic(auto, using(ground::proofs::Cases::cases), unfolding(ground::specs::First::refusal, ground::specs::First::first, ground::specs::First::applies, ground::specs::Choice::chosen, rules::specs::Ends::controller_rules))]
pub fn take_refusal(e: End, came: Option<ToController>) -> Result<(), Refusal>
    ensures { result ≡ refused_by (refusal (controller_rules numbering (end e) (ControllerAct.take (for_controller came)))) }
{
    if !e.up {
        return Err(Refusal::IsDown);
    }
    if is_unknown(e.numbers, came) {
        return Err(Refusal::UnknownNumber);
    }
    Ok(())
}
