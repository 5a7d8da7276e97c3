// A console in C's hands: its state is 37 bytes that the caller keeps.
ghost use Rattle.std.specs.Prelude.{◌≡◌};
ghost use Rattle.ends_console.specs.Fields.{fresh_console, console_ok};
ghost use Rattle.boundary.specs.State.{length_refusal, written, start_refusal, started, state_record_refusal, state_record_put};
ghost use Rattle.boundary.specs.Console.{console_bytes, console_at};
ghost use Rattle.boundary.specs.Console.{console_record, start_at, downed_bytes, console_state_step};

// Up and idle, with any last used.
#[unsafe(no_mangle)]
pub extern "C" fn nooseless_console_fresh(state: &mut [u8], last_used: u32) -> u8
    ensures { (result ≡ length_refusal 37 state.old) × (state.new ≡ written 37 state.old (console_bytes (fresh_console (record { 0 = last_used })))) }
{
    boundary::console::nooseless_console_fresh(state, last_used)
}

// After power loss: down, with the numbers of the console's number record, of either version, and no answer.
#[unsafe(no_mangle)]
pub extern "C" fn nooseless_console_downed(state: &mut [u8], record: &[u8]) -> u8
    ensures { (result ≡ start_refusal 37 state.old (start_at «record».now)) × (state.new ≡ started 37 state.old (start_at «record».now) (downed_bytes «record».now)) }
{
    boundary::console::nooseless_console_downed(state, record)
}

// The number record to keep where a step told that it changed.
#[unsafe(no_mangle)]
pub extern "C" fn nooseless_console_record(state: &[u8], out: &mut [u8]) -> u8
    ensures { (result ≡ state_record_refusal (console_ok (console_at state.now)) (console_record (console_at state.now)) out.old) × (out.new ≡ state_record_put (console_ok (console_at state.now)) (console_record (console_at state.now)) out.old) }
{
    boundary::console::nooseless_console_record(state, out)
}

// P Q D S C V A of a console run alone.
#[unsafe(no_mangle)]
pub extern "C" fn nooseless_console_step(
    state: &mut [u8],
    letter: u8,
    message: &[u8; 16],
    packet: &[u8],
    reply: &mut [u8],
) -> u8
    ensures { record { told = result; state = state.new; reply = reply.new } ≡ console_state_step state.old letter message.now packet.now reply.old }
{
    boundary::console::nooseless_console_step(state, letter, message, packet, reply)
}
