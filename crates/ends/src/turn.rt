// An end and what it does, over its modes and the packets that it sends.
ghost use Rattle.std.specs.Prelude.{◌≡◌, true, false, None, Some};
ghost use Rattle.rules.specs.Supply.{numbering};
ghost use Rattle.numbers.specs.Numbers.{numbers_means, numbers_back, numbers_moved};

use crate::Report;
use numbers::{Move, Numbers};

// A well-formed end; a console's message and its ack stand beside.
#[derive(Clone, Copy)]
pub struct End<Mode> {
    pub numbers: Numbers,
    pub mode: Mode,
    pub up: bool,
}

// What an end does in a mode: what becomes of its numbers, its mode then, what it reports and sends.
#[derive(Clone, Copy)]
pub struct Turn<Mode, Packet> {
    pub numbers: Move,
    pub mode: Mode,
    pub report: Report,
    pub sent: Option<Packet>,
}

// What an end does with its own numbers.
#[derive(Clone, Copy)]
pub struct Acted<Mode, Packet> {
    pub report: Report,
    pub sent: Option<Packet>,
    pub after: End<Mode>,
}

impl<Mode: Copy, Packet: Copy> Turn<Mode, Packet> {
    pub fn stays(mode: Mode) -> Self
        ensures { result ≡ record { numbers = Move.Stay; mode = mode; report = Report.Nothing; sent = None } }
    {
        Turn {
            numbers: Move::Stay,
            mode,
            report: Report::Nothing,
            sent: None,
        }
    }

    pub fn sends(mode: Mode, packet: Packet) -> Self
        ensures { result ≡ record { numbers = Move.Stay; mode = mode; report = Report.Nothing; sent = Some packet } }
    {
        Turn {
            sent: Some(packet),
            ..Turn::stays(mode)
        }
    }
}

impl<Mode: Copy> End<Mode> {
    pub fn moved<Packet: Copy>(self, turn: Turn<Mode, Packet>) -> Acted<Mode, Packet>
        ensures { result ≡ record { report = turn.report; sent = turn.sent; after = record { numbers = numbers_moved turn.numbers self.numbers; mode = turn.mode; up = self.up } } }
    {
        Acted {
            report: turn.report,
            sent: turn.sent,
            after: End {
                numbers: self.numbers.after(turn.numbers),
                mode: turn.mode,
                up: self.up,
            },
        }
    }

    // C and X.
    pub fn goes_down<Packet: Copy>(self) -> Acted<Mode, Packet>
        ensures { result ≡ record { report = Report.Nothing; sent = None; after = record { numbers = self.numbers; mode = self.mode; up = false } } }
    {
        Acted {
            report: Report::Nothing,
            sent: None,
            after: End { up: false, ..self },
        }
    }

    // V and Y, to the mode `idle`.
    pub fn comes_back<Packet: Copy>(self, idle: Mode) -> Acted<Mode, Packet>
        ensures { result ≡ record { report = Report.Nothing; sent = None; after = record { numbers = numbers_back (numbering.back (numbers_means self.numbers)); mode = idle; up = true } } }
    {
        Acted {
            report: Report::Nothing,
            sent: None,
            after: End {
                numbers: self.numbers.back(),
                mode: idle,
                up: true,
            },
        }
    }
}
