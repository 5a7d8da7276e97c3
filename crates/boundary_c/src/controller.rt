// A controller in C's hands: its state is 23 bytes that the caller keeps.
ghost use Rattle.std.specs.Prelude.{◌≡◌};
ghost use Rattle.ends_controller.specs.Fields.{fresh_controller, controller_ok};
ghost use Rattle.boundary.specs.State.{length_refusal, written, start_refusal, started, state_record_refusal, state_record_put};
ghost use Rattle.boundary.specs.Controller.{controller_bytes, controller_at};
ghost use Rattle.boundary.specs.Controller.{controller_record, start_at, downed_bytes, controller_state_step};

// Up and idle, with any last used.
#[unsafe(no_mangle)]
pub extern "C" fn nooseless_controller_fresh(state: &mut [u8], last_used: u32) -> u8
    ensures { (result ≡ length_refusal 23 state.old) × (state.new ≡ written 23 state.old (controller_bytes (fresh_controller (record { 0 = last_used })))) }
{
    boundary::controller::nooseless_controller_fresh(state, last_used)
}

// After power loss: down, with the numbers of the controller's number record, of either version.
#[unsafe(no_mangle)]
pub extern "C" fn nooseless_controller_downed(state: &mut [u8], record: &[u8]) -> u8
    ensures { (result ≡ start_refusal 23 state.old (start_at «record».now)) × (state.new ≡ started 23 state.old (start_at «record».now) (downed_bytes «record».now)) }
{
    boundary::controller::nooseless_controller_downed(state, record)
}

// The number record to keep where a step told that it changed.
#[unsafe(no_mangle)]
pub extern "C" fn nooseless_controller_record(state: &[u8], out: &mut [u8]) -> u8
    ensures { (result ≡ state_record_refusal (controller_ok (controller_at state.now)) (controller_record (controller_at state.now)) out.old) × (out.new ≡ state_record_put (controller_ok (controller_at state.now)) (controller_record (controller_at state.now)) out.old) }
{
    boundary::controller::nooseless_controller_record(state, out)
}

// O K R X Y of a controller run alone.
#[unsafe(no_mangle)]
pub extern "C" fn nooseless_controller_step(
    state: &mut [u8],
    letter: u8,
    packet: &[u8],
    reply: &mut [u8],
    delivered: &mut [u8; 16],
) -> u8
    ensures { record { told = result; state = state.new; reply = reply.new; delivered = delivered.new } ≡ controller_state_step state.old letter packet.now reply.old delivered.old }
{
    boundary::controller::nooseless_controller_step(state, letter, packet, reply, delivered)
}
