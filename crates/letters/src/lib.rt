// The fourteen letters, whom each asks what, and the fields that it uses: document 01's table, and request 2's A.
#![tactic(auto)]

ghost use Rattle.std.specs.Prelude.{◌<◌, ◌≡◌};
ghost use Rattle.rules.specs.Letters.{letter};
ghost use Rattle.letters.specs.Lines.{found_of, found_refusal, letter_refusal, found_at};

use wire::Direction;

// What the console, or the controller, can be asked to do.
#[derive(Clone, Copy)]
pub enum ConsoleAsk {
    Put,
    SendNeedI,
    SendData,
    Take,
    GoDown,
    ComeBack,
    TellAck,
}

#[derive(Clone, Copy)]
pub enum ControllerAsk {
    SendOffer,
    SendOk,
    Take,
    GoDown,
    ComeBack,
}

// Whom a letter asks, and to do what. NoEnd is a case of document 01's table, as the other two are: L and M ask no end.
#[derive(Clone, Copy)]
pub enum Asks {
    Console(ConsoleAsk),
    Controller(ControllerAsk),
    NoEnd,
}

// A letter's byte, whom it asks what, the way of the packet that it takes out of its channel, and whether it uses the place, the copies and the message.
#[derive(Clone, Copy)]
pub struct Line {
    pub byte: u8,
    pub asks: Asks,
    pub takes: Option<Direction>,
    pub place: bool,
    pub copies: bool,
    pub message: bool,
}

const LINES: [Line; 14] = [
    Line {
        byte: b'P',
        asks: Asks::Console(ConsoleAsk::Put),
        takes: None,
        place: false,
        copies: false,
        message: true,
    },
    Line {
        byte: b'Q',
        asks: Asks::Console(ConsoleAsk::SendNeedI),
        takes: None,
        place: false,
        copies: true,
        message: false,
    },
    Line {
        byte: b'D',
        asks: Asks::Console(ConsoleAsk::SendData),
        takes: None,
        place: false,
        copies: true,
        message: false,
    },
    Line {
        byte: b'S',
        asks: Asks::Console(ConsoleAsk::Take),
        takes: Some(Direction::ToConsole),
        place: true,
        copies: true,
        message: false,
    },
    Line {
        byte: b'C',
        asks: Asks::Console(ConsoleAsk::GoDown),
        takes: None,
        place: false,
        copies: false,
        message: false,
    },
    Line {
        byte: b'V',
        asks: Asks::Console(ConsoleAsk::ComeBack),
        takes: None,
        place: false,
        copies: false,
        message: false,
    },
    Line {
        byte: b'O',
        asks: Asks::Controller(ControllerAsk::SendOffer),
        takes: None,
        place: false,
        copies: true,
        message: false,
    },
    Line {
        byte: b'K',
        asks: Asks::Controller(ControllerAsk::SendOk),
        takes: None,
        place: false,
        copies: true,
        message: false,
    },
    Line {
        byte: b'R',
        asks: Asks::Controller(ControllerAsk::Take),
        takes: Some(Direction::ToController),
        place: true,
        copies: true,
        message: false,
    },
    Line {
        byte: b'X',
        asks: Asks::Controller(ControllerAsk::GoDown),
        takes: None,
        place: false,
        copies: false,
        message: false,
    },
    Line {
        byte: b'Y',
        asks: Asks::Controller(ControllerAsk::ComeBack),
        takes: None,
        place: false,
        copies: false,
        message: false,
    },
    Line {
        byte: b'L',
        asks: Asks::NoEnd,
        takes: Some(Direction::ToController),
        place: true,
        copies: false,
        message: false,
    },
    Line {
        byte: b'M',
        asks: Asks::NoEnd,
        takes: Some(Direction::ToConsole),
        place: true,
        copies: false,
        message: false,
    },
    Line {
        byte: b'A',
        asks: Asks::Console(ConsoleAsk::TellAck),
        takes: None,
        place: false,
        copies: false,
        message: false,
    },
];

// A line of the table. At a place that is known when the code is compiled, nothing of the table is laid out.
#[inline(always)]
fn line_at(k: usize) -> Line
    requires { k < 14 }
    ensures { Some result ≡ found_at k }
{
    LINES[k]
}

// The line of a byte; none is refusal 1: no action has this letter. A match, not a scan of the table: the compiler would lay the table out for it.
pub fn find(byte: u8) -> Option<Line>
    ensures { (result ≡ found_of (letter byte)) × (found_refusal result ≡ letter_refusal (letter byte)) }
{
    match byte {
        b'P' => Some(line_at(0)),
        b'Q' => Some(line_at(1)),
        b'D' => Some(line_at(2)),
        b'S' => Some(line_at(3)),
        b'C' => Some(line_at(4)),
        b'V' => Some(line_at(5)),
        b'O' => Some(line_at(6)),
        b'K' => Some(line_at(7)),
        b'R' => Some(line_at(8)),
        b'X' => Some(line_at(9)),
        b'Y' => Some(line_at(10)),
        b'L' => Some(line_at(11)),
        b'M' => Some(line_at(12)),
        b'A' => Some(line_at(13)),
        _ => None,
    }
}
