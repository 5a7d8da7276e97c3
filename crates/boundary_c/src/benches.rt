// A bench in C's hands: its state is 62 bytes that the caller keeps beside its two tables.
ghost use Rattle.std.specs.Prelude.{◌≡◌};
ghost use Rattle.boundary.specs.Benches.{fresh_put, step_put, show_at, offset_at};

// Both ends up and idle with any two last used, both tables cleared.
#[unsafe(no_mangle)]
pub extern "C" fn nooseless_bench_fresh(
    state: &mut [u8],
    out: &mut [u8],
    back: &mut [u8],
    console_last_used: u32,
    controller_last_used: u32,
) -> u8
    ensures { record { told = result; state = state.new; out = out.new; back = back.new } ≡ fresh_put (record { 0 = console_last_used }) (record { 0 = controller_last_used }) state.old out.old back.old }
{
    boundary::benches::nooseless_bench_fresh(
        state,
        out,
        back,
        console_last_used,
        controller_last_used,
    )
}

// One of the fourteen actions, with any place and any copies.
#[unsafe(no_mangle)]
pub extern "C" fn nooseless_bench_step(
    state: &mut [u8],
    out: &mut [u8],
    back: &mut [u8],
    letter: u8,
    place: usize,
    copies: usize,
    message: &[u8; 16],
    delivered: &mut [u8; 16],
) -> u8
    ensures { record { told = result; state = state.new; out = out.new; back = back.new; delivered = delivered.new } ≡ step_put state.old (record { letter = letter; place = place; copies = copies; message = message.now }) out.old back.old delivered.old }
{
    boundary::benches::nooseless_bench_step(
        state, out, back, letter, place, copies, message, delivered,
    )
}

// Where the packet at a place lies in the table of the channel that leads to an end.
#[unsafe(no_mangle)]
pub extern "C" fn nooseless_bench_show(
    state: &[u8],
    out: &[u8],
    back: &[u8],
    end: u8,
    place: usize,
    offset: &mut usize,
) -> u8
    ensures { (result ≡ show_at state.now out.now back.now end place) × (offset.new ≡ offset_at (show_at state.now out.now back.now end place) place offset.old) }
{
    boundary::benches::nooseless_bench_show(state, out, back, end, place, offset)
}
