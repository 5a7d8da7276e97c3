// Packets between the wire and the ends, and the message that stands beside a head or a report. Functions, not From and TryFrom: `to_controller` is
// handed a message too, and what is for no end is 15 to an end run alone, and nothing to the bench. One for each direction: their kinds differ.
ghost use Rattle.std.specs.Prelude.{◌≡◌};
ghost use Rattle.rules.specs.Relabel.{in_packet};
ghost use Rattle.ends.specs.AsRules.{to_controller, to_console, delivered_beside};
ghost use Rattle.wire.specs.Packet.{direction_of};
ghost use Rattle.ends.specs.Packets.{to_controller_packet, to_console_packet, head_for_controller, head_for_console};
ghost use Rattle.ends.specs.Packets.{for_controller_refusal, controller_way_refusal, for_console_refusal, console_way_refusal};

use crate::{Report, ToConsole, ToController};
use wire::{Head, Packet};

// A packet to the controller; the message is data's.
pub fn to_controller(p: ToController, message: [u8; 16]) -> Packet
    ensures { result ≡ to_controller_packet (in_packet (λ _. message) (to_controller p)) }
{
    match p {
        ToController::NeedI(j) => Packet {
            head: Head::NeedI(j),
            message: [0; 16],
        },
        ToController::Data(i) => Packet {
            head: Head::Data(i),
            message,
        },
        ToController::Done(i) => Packet {
            head: Head::Done(i),
            message: [0; 16],
        },
    }
}

pub fn to_console(p: ToConsole) -> Packet
    ensures { result ≡ to_console_packet (to_console p) }
{
    let head = match p {
        ToConsole::Offer(j, i) => Head::Offer(j, i),
        ToConsole::Ok(i) => Head::Ok(i),
        ToConsole::Lost(i) => Head::Lost(i),
    };
    Packet {
        head,
        message: [0; 16],
    }
}

// What a head is for the controller; none is refusal 15: it goes to the console.
pub fn for_controller(head: Head) -> Option<ToController>
    ensures { (result ≡ head_for_controller head) × (for_controller_refusal result ≡ controller_way_refusal (direction_of head)) }
{
    match head {
        Head::NeedI(j) => Some(ToController::NeedI(j)),
        Head::Data(i) => Some(ToController::Data(i)),
        Head::Done(i) => Some(ToController::Done(i)),
        Head::Offer(_, _) | Head::Ok(_) | Head::Lost(_) => None,
    }
}

// What a head is for the console; none is refusal 15: it goes to the controller.
pub fn for_console(head: Head) -> Option<ToConsole>
    ensures { (result ≡ head_for_console head) × (for_console_refusal result ≡ console_way_refusal (direction_of head)) }
{
    match head {
        Head::Offer(j, i) => Some(ToConsole::Offer(j, i)),
        Head::Ok(i) => Some(ToConsole::Ok(i)),
        Head::Lost(i) => Some(ToConsole::Lost(i)),
        Head::NeedI(_) | Head::Data(_) | Head::Done(_) => None,
    }
}

// The message that is told with a report: the delivered one, else 16 spaces.
pub fn delivers(report: Report, message: [u8; 16]) -> [u8; 16]
    ensures { result ≡ delivered_beside report message }
{
    match report {
        Report::Delivered => message,
        _ => [0x20; 16],
    }
}
