// Changing a table. Who calls these refuses first; where they can't act they leave the table as it was.
ghost use Rattle.std.specs.Prelude.{◌≡◌};
ghost use Rattle.tables.specs.Table.{cleared, taken_out};

// Any length is cleared.
pub fn clear(table: &mut [u8])
    ensures { table.new ≡ cleared table.old }
{
    table.fill(0);
}

// Moves and clears within the table itself. A place that isn't below the count changes nothing.
#[tactic(auto, using(crate::proofs::Taking::takes))]
pub fn take_out(table: &mut [u8], count: usize, place: usize)
    ensures { table.new ≡ taken_out table.old count place }
{
    if table.len() != 2048 || count > 64 || place >= count {
        return;
    }
    let end = count * 32;
    // Copied within the whole table the compiler would not see how far apart the two ranges are, and take the bytes one by one.
    table[place * 32..end].copy_within(32.., 0);
    clear(&mut table[end - 32..end]);
}
