// Packets and number records, as values and as bytes.
#![tactic(auto)]

mod frame;
mod packets;
mod records;

pub use frame::{big_endian, big_endian_16, from_big_endian, from_big_endian_16};
pub use packets::{Fields, direction_of, read_head, read_packet, write_packet};
pub use records::{RecordFields, aged, read_record, renewed, write_record};

// A console's request. A J is only ever compared with a J. 0 is none.
#[derive(Clone, Copy, PartialEq, Eq)]
pub struct J(pub u32);

// An order's permission. An I is only ever compared with an I. 0 is none.
#[derive(Clone, Copy, PartialEq, Eq)]
pub struct I(pub u32);

#[derive(Clone, Copy, PartialEq, Eq)]
pub enum Direction {
    ToController,
    ToConsole,
}

#[derive(Clone, Copy)]
pub enum Head {
    NeedI(J),
    Offer(J, I),
    Data(I),
    Ok(I),
    Lost(I),
    Done(I),
}

// The message is 16 cells for data and 16 zero bytes for all others.
#[derive(Clone, Copy)]
pub struct Packet {
    pub head: Head,
    pub message: [u8; 16],
}

// An end's number record: of version 1 with last used, of version 2 with reserved and block. A number is 0 where none was used yet.
#[derive(Clone, Copy)]
pub enum NumberRecord {
    ConsoleOld(J),
    ControllerOld(I),
    Console(J, u16),
    Controller(I, u16),
}
