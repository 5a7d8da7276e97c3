// Reading a table, for the bench, which refuses first.
ghost use Rattle.std.specs.Prelude.{◌≡◌};
ghost use Rattle.channels.specs.Table.{lent_at, goes, packet_at, head_at, places_ok, table_ok};

use ground::Refusal;
use wire::{Direction, Head, Packet};

// The bytes of a place. The bench refuses a place that isn't below the count by 3; of one that isn't there there are none, which reads as 12.
#[tactic(auto, using(ground::proofs::Cases::cases), unfolding(crate::specs::Table::lent_at, ground::specs::Choice::chosen))]
fn bytes_at(table: &[u8], place: usize) -> &[u8]
    ensures { result.now ≡ lent_at table.now place }
{
    if table.len() / 32 <= place {
        return &table[..0];
    }
    let at = place * 32;
    &table[at..at + 32]
}

// The packet at a place.
#[tactic(auto, using(crate::proofs::Scans::lent_packet))]
pub fn packet_at(table: &[u8], place: usize) -> Result<Packet, Refusal>
    ensures { result ≡ packet_at table.now place }
{
    wire::read_packet(bytes_at(table, place))
}

// Its head alone.
#[inline]
#[tactic(auto, using(crate::proofs::Scans::lent_head))]
pub fn head_at(table: &[u8], place: usize) -> Result<Head, Refusal>
    ensures { result ≡ head_at table.now place }
{
    wire::read_head(bytes_at(table, place))
}

// Whether a head was read, of a packet that goes this way.
fn head_goes(head: Result<Head, Refusal>, dir: Direction) -> bool
    ensures { result ≡ goes dir head }
{
    match head {
        Ok(h) => wire::direction_of(h) == dir,
        Err(_) => false,
    }
}

// Whether the first `count` places hold packets that go this way.
fn places_ok(table: &[u8], count: usize, dir: Direction) -> bool
    ensures { result ≡ places_ok dir count table.now }
{
    for place in 0..count {
        if !head_goes(head_at(table, place), dir) {
            return false;
        }
    }
    true
}

// Whether a channel is well formed; the bench refuses by 2 where it isn't. The table is read once.
#[tactic(auto, using(crate::proofs::Scans::table_tests))]
pub fn table_ok(table: &[u8], count: usize, dir: Direction) -> bool
    ensures { result ≡ table_ok dir count table.now }
{
    if table.len() != 2048 {
        return false;
    }
    if 64 < count {
        return false;
    }
    places_ok(table, count, dir) && ground::all_are(&table[count * 32..], 0)
}
