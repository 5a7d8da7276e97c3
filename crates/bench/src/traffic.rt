// What goes into and out of the two tables.
ghost use Rattle.std.specs.Prelude.{◌≡◌, true};
ghost use Rattle.ground.specs.Options.{option_back};
ghost use Rattle.ends.specs.Packets.{to_controller_sent, to_console_sent};
ghost use Rattle.bench.specs.Traffic.{room_for, count_sent, table_sent, count_taken, table_taken};

use ends::packets::{to_console, to_controller};
use ends::{ToConsole, ToController};
use wire::Packet;

// What the console sends, if it sends.
#[tactic(auto, unfolding(ends::specs::Packets::to_controller_sent))]
pub(crate) fn from_console(sent: Option<ToController>, message: [u8; 16]) -> Option<Packet>
    ensures { result ≡ option_back (to_controller_sent sent message) }
{
    sent.map(|p| to_controller(p, message))
}

// What the controller sends, if it sends.
#[tactic(auto, unfolding(ends::specs::Packets::to_console_sent))]
pub(crate) fn from_controller(sent: Option<ToConsole>) -> Option<Packet>
    ensures { result ≡ option_back (to_console_sent sent) }
{
    sent.map(to_console)
}

// Where nothing is sent, copies is without effect on the room.
#[tactic(auto, using(crate::proofs::Rooms::room_full, crate::proofs::Rooms::room_left), unfolding(crate::specs::Traffic::room_for))]
pub(crate) fn has_room(sent: &Option<Packet>, count: usize, copies: usize) -> bool
    ensures { result ≡ room_for sent.now count copies }
{
    match sent {
        None => true,
        Some(_) => count <= 64 && copies <= 64 - count,
    }
}

// Puts copies of what is sent at the end, and gives the count then.
#[tactic(auto, using(crate::proofs::Rooms::sum_fits), unfolding(crate::specs::Traffic::room_for, crate::specs::Traffic::count_sent, crate::specs::Traffic::table_sent))]
pub(crate) fn send(sent: Option<Packet>, copies: usize, table: &mut [u8], count: usize) -> usize
    requires { room_for sent count copies ≡ true }
    ensures { (result ≡ count_sent sent count copies) × (table.new ≡ table_sent sent table.old count copies) }
{
    match sent {
        None => count,
        Some(packet) => {
            channels::add(table, count, copies, packet);
            count + copies
        }
    }
}

// Takes the packet at a place out, where the letter uses a place and the place is below the count, and gives the count then.
#[tactic(auto, using(ground::proofs::Cases::cases), unfolding(crate::specs::Traffic::count_taken, crate::specs::Traffic::table_taken, ground::specs::Choice::chosen))]
pub(crate) fn take(uses: bool, table: &mut [u8], count: usize, place: usize) -> usize
    ensures { (result ≡ count_taken uses count place) × (table.new ≡ table_taken uses table.old count place) }
{
    if !uses {
        return count;
    }
    if count <= place {
        return count;
    }
    tables::take_out(table, count, place);
    count - 1
}
