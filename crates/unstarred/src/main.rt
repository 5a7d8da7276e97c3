// Document 01's unstarred bench checks, run: a line for each with the refusal's number, 0 for none.
#![tactic(auto)]

use bench::{Action, Bench};
use ground::Refusal;
use wire::{I, J};

fn number_of(refusal: Option<Refusal>) -> u64 {
    refusal.map_or(0, |refusal| u64::from(u8::from(refusal)))
}

fn tell(check: &[u8], n: u64) {
    io::write_all(1, check);
    io::print_decimal(1, n);
    io::write_all(1, b"\n");
}

// `first` is the first cell of the message, the others are spaces.
fn action(letter: u8, place: usize, copies: usize, first: u8) -> Action {
    let mut message = [0x20; 16];
    message[0] = first;
    Action {
        letter,
        place,
        copies,
        message,
    }
}

fn fresh(out: &mut [u8], back: &mut [u8]) -> Bench {
    bench::fresh(J(0), I(0), out, back).bench
}

fn after(b: Bench, a: Action, out: &mut [u8], back: &mut [u8]) -> Bench {
    bench::step(b, a, out, back).bench
}

fn tell_step(check: &[u8], b: Bench, a: Action, out: &mut [u8], back: &mut [u8]) {
    let outcome = bench::step(b, a, out, back);
    tell(check, number_of(outcome.report.refusal()));
}

// An action on a fresh bench, whose channels are empty.
fn try_fresh(check: &[u8], a: Action) {
    let mut out = [0; 2048];
    let mut back = [0; 2048];
    let b = fresh(&mut out, &mut back);
    tell_step(check, b, a, &mut out, &mut back);
}

// The bench after 21 times three copies and one: 64 packets.
fn sent_64(b: Bench, letter: u8, out: &mut [u8], back: &mut [u8]) -> Bench {
    let mut full = b;
    for _ in 0..21 {
        full = after(full, action(letter, 0, 3, 0x20), out, back);
    }
    after(full, action(letter, 0, 1, 0x20), out, back)
}

fn try_full_to_controller() {
    let mut out = [0; 2048];
    let mut back = [0; 2048];
    let begun = fresh(&mut out, &mut back);
    let asks = after(begun, action(b'P', 0, 0, 0x20), &mut out, &mut back);
    let full = sent_64(asks, b'Q', &mut out, &mut back);
    tell_step(
        b"Q1, 64 packets: ",
        full,
        action(b'Q', 0, 1, 0x20),
        &mut out,
        &mut back,
    );
    tell_step(
        b"R64, 64 packets: ",
        full,
        action(b'R', 64, 0, 0x20),
        &mut out,
        &mut back,
    );
    tell_step(
        b"L64, 64 packets: ",
        full,
        action(b'L', 64, 0, 0x20),
        &mut out,
        &mut back,
    );
    tell_step(
        b"L63, 64 packets: ",
        full,
        action(b'L', 63, 0, 0x20),
        &mut out,
        &mut back,
    );
}

fn try_full_to_console() {
    let mut out = [0; 2048];
    let mut back = [0; 2048];
    let begun = fresh(&mut out, &mut back);
    let asks = after(begun, action(b'P', 0, 0, 0x20), &mut out, &mut back);
    let sent = after(asks, action(b'Q', 0, 1, 0x20), &mut out, &mut back);
    let offers = after(sent, action(b'R', 0, 0, 0x20), &mut out, &mut back);
    let full = sent_64(offers, b'O', &mut out, &mut back);
    tell_step(
        b"O1, 64 packets: ",
        full,
        action(b'O', 0, 1, 0x20),
        &mut out,
        &mut back,
    );
    tell_step(
        b"S64, 64 packets: ",
        full,
        action(b'S', 64, 0, 0x20),
        &mut out,
        &mut back,
    );
    tell_step(
        b"M64, 64 packets: ",
        full,
        action(b'M', 64, 0, 0x20),
        &mut out,
        &mut back,
    );
    tell_step(
        b"M63, 64 packets: ",
        full,
        action(b'M', 63, 0, 0x20),
        &mut out,
        &mut back,
    );
}

// A list of one record: the number in its line.
fn try_record(check: &[u8], record: &[u8]) {
    let mut line = [0; 27];
    bench::run(record, &mut line);
    io::write_all(1, check);
    io::write_all(1, &line[7..9]);
    io::write_all(1, b"\n");
}

fn try_packet(check: &[u8], packet: &[u8]) {
    let read = wire::read_packet(packet);
    tell(check, number_of(read.err()));
}

fn main() {
    try_fresh(b"P, cell 0x1F: ", action(b'P', 0, 0, 0x1F));
    try_fresh(b"P, cell 0x7F: ", action(b'P', 0, 0, 0x7F));
    try_fresh(b"P, cell 0x20: ", action(b'P', 0, 0, 0x20));
    try_fresh(b"P, cell 0x7E: ", action(b'P', 0, 0, 0x7E));
    try_packet(b"packet of 31 bytes: ", &[0; 31]);
    try_packet(b"packet of 33 bytes: ", &[0; 33]);
    try_fresh(b"Q4: ", action(b'Q', 0, 4, 0x20));
    try_fresh(b"R0, 4 copies: ", action(b'R', 0, 4, 0x20));
    try_fresh(b"R64, no packet: ", action(b'R', 64, 0, 0x20));
    try_fresh(b"S64, no packet: ", action(b'S', 64, 0, 0x20));
    try_fresh(b"L64, no packet: ", action(b'L', 64, 0, 0x20));
    try_fresh(b"M64, no packet: ", action(b'M', 64, 0, 0x20));
    try_full_to_controller();
    try_full_to_console();
    try_record(b"record L640: ", b"L640                \n");
    try_record(b"record S640: ", b"S640                \n");
    try_record(b"record L630: ", b"L630                \n");
}
