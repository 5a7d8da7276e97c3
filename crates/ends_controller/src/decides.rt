// What a controller decides that is asked: it refuses, or takes its turn. It knows no tables and not where numbers come from. One match on an enum, as a console's.
ghost use Rattle.std.specs.Prelude.{◌≡◌};
ghost use Rattle.rules.specs.Offered.{offered};
ghost use Rattle.rules.specs.Ends.{controller_step, ControllerAct};
ghost use Rattle.ends.specs.AsRules.{for_controller};
ghost use Rattle.ends_controller.specs.AsRules.{on_offer, asked_to, decided};

use crate::turns::{offer_sent, ok_sent, takes_what_came};
use crate::{Decided, Mode};
use ends::ToController;
use ground::Refusal;
use letters::ControllerAsk;
use wire::I;

fn takes_one(mode: Mode, up: bool, came: Option<ToController>, next: Option<I>) -> Decided
    ensures { result ≡ decided (controller_step offered (on_offer mode up next) (ControllerAct.take (for_controller came))) }
{
    if !up {
        return Decided::refused(Refusal::IsDown, mode, up);
    }
    Decided::turned(takes_what_came(mode, came, next), up)
}

// `came` is the packet in, `next` is the number on offer. Whether the number of data or done is known (7) is for the caller to test.
pub fn decides(
    mode: Mode,
    up: bool,
    ask: ControllerAsk,
    came: Option<ToController>,
    next: Option<I>,
) -> Decided
    ensures { result ≡ decided (controller_step offered (on_offer mode up next) (asked_to ask came)) }
{
    match ask {
        ControllerAsk::SendOffer => Decided::sends(mode, up, offer_sent(mode)),
        ControllerAsk::SendOk => Decided::sends(mode, up, ok_sent(mode)),
        ControllerAsk::Take => takes_one(mode, up, came, next),
        ControllerAsk::GoDown => Decided::stays(mode, false, None),
        ControllerAsk::ComeBack => Decided::comes_back(Mode::Idle, mode, up),
    }
}
