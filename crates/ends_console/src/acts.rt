// The thin layer over what a console does: the number that is next comes from its own numbers, and they are moved.
ghost use Rattle.std.specs.Prelude.{◌≡◌};
ghost use Rattle.ground.specs.First.{refusal};
ghost use Rattle.ground.specs.Refusals.{refused_by};
ghost use Rattle.rules.specs.Supply.{numbering};
ghost use Rattle.rules.specs.Ends.{console_acts, console_rules, put, ConsoleAct};
ghost use Rattle.ends.specs.AsRules.{tested, for_console};
ghost use Rattle.ends_console.specs.AsRules.{end, next_of, acted};

use crate::{Acted, End, Mode, refusals, turns};
use ends::ToConsole;
use ground::Refusal;
use wire::J;

// A J; a controller's is an I.
fn next_of(e: End) -> Option<J>
    ensures { result ≡ next_of e }
{
    e.numbers.next().map(J)
}

// P that is not refused.
pub fn puts(e: End) -> Acted
    ensures { result ≡ acted (console_acts numbering (end e) (put tt)) }
{
    e.moved(turns::puts(e.mode, next_of(e)))
}

// S, by kind.
pub fn takes_what_came(e: End, came: Option<ToConsole>) -> Acted
    ensures { result ≡ acted (console_acts numbering (end e) (ConsoleAct.take (for_console came))) }
{
    e.moved(turns::takes_what_came(e.mode, came))
}

// C.
#[tactic(auto, unfolding(rules::specs::Ends::console_acts, rules::specs::Ends::console_turn, rules::specs::Ends::end_after, rules::specs::Ends::numbers_after, rules::specs::Ends::up_after))]
pub fn goes_down(e: End) -> Acted
    ensures { result ≡ acted (console_acts numbering (end e) ConsoleAct.go_down) }
{
    e.goes_down()
}

// V.
#[tactic(auto, unfolding(rules::specs::Ends::console_acts, rules::specs::Ends::console_turn, rules::specs::Ends::end_after, rules::specs::Ends::numbers_after, rules::specs::Ends::up_after))]
pub fn comes_back(e: End) -> Acted
    ensures { result ≡ acted (console_acts numbering (end e) ConsoleAct.come_back) }
{
    e.comes_back(Mode::Idle)
}

// The first refusal of P; `good` says that the message put is 16 cells.
pub fn put_refusal(e: End, good: bool) -> Result<(), Refusal>
    ensures { result ≡ refused_by (refusal (console_rules numbering (tested good) (end e) (put tt))) }
{
    refusals::put_refusal(e.mode, e.up, good, next_of(e))
}
