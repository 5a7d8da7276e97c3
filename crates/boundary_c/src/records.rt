// Number records in C's hands: an end, 1 console or 2 controller, a number, and a block, which is 0 for a record of version 1.
ghost use Rattle.std.specs.Prelude.{◌≡◌, length};
ghost use Rattle.wire.specs.Record.{record_read, record_of};
ghost use Rattle.boundary.specs.Records.{record_out, record_put_refusal, record_put, carry_refusal, carried};

// Reads a number record of 12 or 16 bytes. A refusal leaves all three places.
#[unsafe(no_mangle)]
pub extern "C" fn nooseless_read_record(
    record: &[u8],
    end: &mut u8,
    number: &mut u32,
    block: &mut u16,
) -> u8
    ensures { record { refusal = result; end = end.new; number = number.new; block = block.new } ≡ record_out (record_read «record».now) end.old number.old block.old }
{
    boundary::records::nooseless_read_record(record, end, number, block)
}

// Writes a number record: version 1 to 12 bytes where the block is 0, else version 2 to 16.
#[unsafe(no_mangle)]
pub extern "C" fn nooseless_write_record(out: &mut [u8], end: u8, number: u32, block: u16) -> u8
    ensures { (result ≡ record_put_refusal (length out.old) block (record_of end number block)) × (out.new ≡ record_put out.old (record_of end number block)) }
{
    boundary::records::nooseless_write_record(out, end, number, block)
}

// Carries a number record to the version that the length of `to` names.
#[unsafe(no_mangle)]
pub extern "C" fn nooseless_carry_record(from: &[u8], to: &mut [u8]) -> u8
    ensures { (result ≡ carry_refusal (length to.old) (record_read from.now)) × (to.new ≡ carried to.old (record_read from.now)) }
{
    boundary::records::nooseless_carry_record(from, to)
}
