// The ack: true is OK, false is lost. An answer that arrives is stored in it, and not shown; A tells it.
ghost use Rattle.std.specs.Prelude.{◌≡◌};
ghost use Rattle.rules.specs.Reading.{ack_says};
ghost use Rattle.ends.specs.AsRules.{Beside, report_back};
ghost use Rattle.ends_console.specs.Ack.{ack_use, use_means, acked};

use ends::Report;
use letters::ConsoleAsk;

// What an act does with it, whatever arrives.
#[derive(Clone, Copy)]
pub enum AckUse {
    Leaves,
    Clears,
    Tells,
}

// What is shown of a step, and the ack then.
#[derive(Clone, Copy)]
pub struct Shown {
    pub report: Report,
    pub ack: bool,
}

pub fn ack_use(ask: ConsoleAsk) -> AckUse
    ensures { result ≡ ack_use ask }
{
    match ask {
        ConsoleAsk::ComeBack => AckUse::Clears,
        ConsoleAsk::TellAck => AckUse::Tells,
        _ => AckUse::Leaves,
    }
}

fn tells(ack: bool) -> Report
    ensures { result ≡ report_back {M = Beside} (ack_says ack) }
{
    if ack { Report::Ok } else { Report::Lost }
}

// From what a step reports in the history.
#[tactic(auto, unfolding(crate::specs::Ack::acked, rules::specs::Reading::said, rules::specs::Reading::ack_after))]
pub fn shows(u: AckUse, ack: bool, report: Report) -> Shown
    ensures { result ≡ acked (use_means u) ack report }
{
    match (report, u) {
        (Report::Ok, _) => Shown {
            report: Report::Nothing,
            ack: true,
        },
        (Report::Lost, _) | (Report::Nothing, AckUse::Clears) => Shown {
            report: Report::Nothing,
            ack: false,
        },
        (Report::Nothing, AckUse::Tells) => Shown {
            report: tells(ack),
            ack: false,
        },
        _ => Shown { report, ack },
    }
}
