// The bytes of a list program, whatever link it plays: a record of 21 bytes read, a line of 27 bytes written.
#![tactic(auto)]

mod reading;
mod writing;

pub use reading::{read, record_end};
pub use writing::{two_digits, write_line};

// Whether a record's letter uses the place, the copies and the message.
#[derive(Clone, Copy)]
pub struct Uses {
    pub place: bool,
    pub copies: bool,
    pub message: bool,
}

// The fields of a list record after its letter.
#[derive(Clone, Copy)]
pub struct Fields {
    pub place: usize,
    pub copies: usize,
    pub message: [u8; 16],
}
