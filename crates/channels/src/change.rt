// Adding to a table, for the bench, which refuses first.
ghost use Rattle.std.specs.Prelude.{◌≡◌};
ghost use Rattle.channels.specs.Table.{added};

use wire::Packet;

// The bench refuses by 9 before. Without room for all copies nothing changes; of a packet that doesn't fit, the writer leaves each place
// as it was.
#[tactic(auto, using(crate::proofs::Adding::adds))]
pub fn add(table: &mut [u8], count: usize, copies: usize, p: Packet)
    ensures { table.new ≡ added table.old count copies p }
{
    if table.len() != 2048 {
        return;
    }
    if 64 < count {
        return;
    }
    if 64 - count < copies {
        return;
    }
    for copy in 0..copies {
        let at = (count + copy) * 32;
        let _ = wire::write_packet(&mut table[at..at + 32], p);
    }
}
