// What an end decides that is asked, over its modes and the packets that it sends: it refuses, or takes its turn.
ghost use Rattle.std.specs.Prelude.{◌≡◌, true, None, [], ◌∷◌};
ghost use Rattle.ground.specs.Choice.{when◌then◌else◌};
ghost use Rattle.ground.specs.First.{first};
ghost use Rattle.ground.specs.Options.{option_means};
ghost use Rattle.ground.specs.Refusals.{refused_by};
ghost use Rattle.rules.specs.Ends.{down_4, mode_6};
ghost use Rattle.ends.specs.AsRules.{sends, comes_back};

use crate::{Report, Turn};
use ground::Refusal;
use numbers::Move;

// The end afterwards is its mode and whether it is up; a refusal leaves both.
#[derive(Clone, Copy)]
pub struct Decided<Mode, Packet> {
    pub report: Report,
    pub sent: Option<Packet>,
    pub numbers: Move,
    pub mode: Mode,
    pub up: bool,
}

// The first refusal of Q, D, O or K, which would send this.
#[tactic(auto, unfolding(ground::specs::First::first, ground::specs::Choice::chosen, rules::specs::Ends::absent))]
pub fn send_refusal<Packet: Copy>(up: bool, sent: Option<Packet>) -> Result<(), Refusal>
    ensures { result ≡ refused_by (first (down_4 up ∷ mode_6 (option_means sent) ∷ [])) }
{
    if !up {
        return Err(Refusal::IsDown);
    }
    match sent {
        None => Err(Refusal::OtherMode),
        Some(_) => Ok(()),
    }
}

impl<Mode: Copy, Packet: Copy> Decided<Mode, Packet> {
    pub fn refused(refusal: Refusal, mode: Mode, up: bool) -> Self
        ensures { result ≡ record { report = Report.Refused refusal; sent = None; numbers = Move.Stay; mode = mode; up = up } }
    {
        Decided {
            report: Report::Refused(refusal),
            sent: None,
            numbers: Move::Stay,
            mode,
            up,
        }
    }

    pub fn turned(turn: Turn<Mode, Packet>, up: bool) -> Self
        ensures { result ≡ record { report = turn.report; sent = turn.sent; numbers = turn.numbers; mode = turn.mode; up = up } }
    {
        Decided {
            report: turn.report,
            sent: turn.sent,
            numbers: turn.numbers,
            mode: turn.mode,
            up,
        }
    }

    pub fn stays(mode: Mode, up: bool, sent: Option<Packet>) -> Self
        ensures { result ≡ record { report = Report.Nothing; sent = sent; numbers = Move.Stay; mode = mode; up = up } }
    {
        Decided {
            report: Report::Nothing,
            sent,
            numbers: Move::Stay,
            mode,
            up,
        }
    }

    // Q, D, O and K.
    #[tactic(auto, using(crate::proofs::Sending::sending))]
    pub fn sends(mode: Mode, up: bool, sent: Option<Packet>) -> Self
        ensures { result ≡ sends mode up sent }
    {
        match send_refusal(up, sent) {
            Ok(()) => Decided::stays(mode, up, sent),
            Err(refusal) => Decided::refused(refusal, mode, up),
        }
    }

    // V and Y, to the mode `idle`.
    pub fn comes_back(idle: Mode, mode: Mode, up: bool) -> Self
        ensures { result ≡ comes_back idle mode up }
    {
        if up {
            return Decided::refused(Refusal::IsUp, mode, up);
        }
        Decided {
            report: Report::Nothing,
            sent: None,
            numbers: Move::Back,
            mode: idle,
            up: true,
        }
    }
}
