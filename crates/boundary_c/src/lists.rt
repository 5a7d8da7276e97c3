// The list program's records and lines in C's hands.
ghost use Rattle.std.specs.Prelude.{◌≡◌};
ghost use Rattle.bench.specs.Running.{list_run};

// Plays records of 21 bytes on a fresh bench with 0 and 0, and writes a line of 27 bytes for each, as far as there is room.
#[unsafe(no_mangle)]
pub extern "C" fn nooseless_run(input: &[u8], output: &mut [u8]) -> usize
    ensures { record { number = result; output = output.new } ≡ list_run input.now output.old }
{
    boundary::lists::nooseless_run(input, output)
}
