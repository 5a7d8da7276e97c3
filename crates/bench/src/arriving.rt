// The packet at the place, read for the end that takes it; a place that isn't below the count has none.
ghost use Rattle.std.specs.Prelude.{ℕ, ◌≡◌, List};
ghost use Rattle.letters.specs.declared.Asks.TheVariants as asked;
ghost use Rattle.bench.specs.Arriving.{nothing_came, came_back, came_out, came_for};

use ends::packets::{for_console, for_controller};
use ends::{ToConsole, ToController};
use letters::{ConsoleAsk, ControllerAsk};

// What came for either end, and data's message.
#[derive(Clone, Copy)]
pub struct Came {
    pub console: Option<ToConsole>,
    pub controller: Option<ToController>,
    pub message: [u8; 16],
}

fn nothing() -> Came
    ensures { result ≡ nothing_came }
{
    Came {
        console: None,
        controller: None,
        message: [0x20; 16],
    }
}

#[tactic(auto, using(ground::proofs::Cases::cases), unfolding(crate::specs::Arriving::came_back, ground::specs::Choice::chosen))]
fn at_back(back: &[u8], returned: usize, place: usize) -> Came
    ensures { result ≡ came_back back.now returned place }
{
    if returned <= place {
        return nothing();
    }
    match channels::head_at(back, place) {
        Ok(head) => Came {
            console: for_console(head),
            ..nothing()
        },
        Err(_) => nothing(),
    }
}

#[tactic(auto, using(ground::proofs::Cases::cases), unfolding(crate::specs::Arriving::came_out, ground::specs::Choice::chosen))]
fn at_out(out: &[u8], sent: usize, place: usize) -> Came
    ensures { result ≡ came_out out.now sent place }
{
    if sent <= place {
        return nothing();
    }
    match channels::packet_at(out, place) {
        Ok(packet) => {
            let message = packet.message;
            Came {
                console: None,
                controller: for_controller(packet.head),
                message,
            }
        }
        Err(_) => Came {
            message: [0; 16],
            ..nothing()
        },
    }
}

// A match on an enum: to take is all that brings a packet.
pub(crate) fn for_the_console(ask: ConsoleAsk, place: usize, back: &[u8], returned: usize) -> Came
    ensures { (out : List ℕ) (sent : ℕ) → result ≡ came_for (asked.Console ask) out sent back.now returned place }
{
    match ask {
        ConsoleAsk::Take => at_back(back, returned, place),
        _ => nothing(),
    }
}

// The same of the controller, which takes from the other table, with the message.
pub(crate) fn for_the_controller(ask: ControllerAsk, place: usize, out: &[u8], sent: usize) -> Came
    ensures { (back : List ℕ) (returned : ℕ) → result ≡ came_for (asked.Controller ask) out.now sent back returned place }
{
    match ask {
        ControllerAsk::Take => at_out(out, sent, place),
        _ => nothing(),
    }
}
