// How a bench stands: a line for each end and for each channel.
use crate::text::{say, say_with};
use bench::Bench;
use ends::End;
use ends_console::fields::{Console, read_console};
use ends_controller::fields::{Controller, read_controller};
use tables::Way;
use wire::Head;

fn print_up(up: bool) {
    if up { say(b"up, ") } else { say(b"down, ") }
}

fn print_console_mode(mode: ends_console::Mode) {
    match mode {
        ends_console::Mode::Idle => say(b"idle"),
        ends_console::Mode::NeedI(j) => say_with(b"needI j=", j.0),
        ends_console::Mode::Send(last) => say_with(b"send last=", last.0),
    }
}

fn print_controller_mode(mode: ends_controller::Mode) {
    match mode {
        ends_controller::Mode::Idle => say(b"idle"),
        ends_controller::Mode::Accept(j, i) => {
            say_with(b"accept j=", j.0);
            say_with(b" i=", i.0)
        }
        ends_controller::Mode::Ack(last) => say_with(b"ack last=", last.0),
    }
}

// What arrived for the order before, until A tells it.
fn print_ack(ack: bool) {
    if ack {
        say(b", ack OK")
    } else {
        say(b", ack lost")
    }
}

fn print_held(c: Console) {
    print_ack(c.ack);
    if c.held {
        say(b", holds \"");
        say(&c.message);
        say(b"\"");
    }
    say(b"\n");
}

// An end that is well formed, by what its modes print and the name of its numbers.
fn print_end<Mode: Copy, Print: Fn(Mode)>(
    end: Option<End<Mode>>,
    print_mode: Print,
    last_used: &[u8],
)
    requires { Print.IsAlwaysCallable print_mode }
{
    match end {
        None => say(b"not well formed"),
        Some(e) => {
            print_up(e.up);
            print_mode(e.mode);
            say_with(last_used, e.numbers.used);
            say_with(b", reserved to ", e.numbers.reserved)
        }
    }
}

fn print_console(c: Console) {
    say(b"  console ");
    print_end(read_console(c), print_console_mode, b", last used J ");
    print_held(c);
}

fn print_controller(c: Controller) {
    say(b"  controller ");
    print_end(read_controller(c), print_controller_mode, b", last used I ");
    say(b"\n");
}

fn print_head(h: Head) {
    match h {
        Head::NeedI(j) => say_with(b" needI(", j.0),
        Head::Offer(j, i) => {
            say_with(b" offer(", j.0);
            say_with(b",", i.0)
        }
        Head::Data(i) => say_with(b" data(", i.0),
        Head::Ok(i) => say_with(b" OK(", i.0),
        Head::Lost(i) => say_with(b" lost(", i.0),
        Head::Done(i) => say_with(b" done(", i.0),
    }
    say(b")");
}

// Prints nothing for a place that is refused.
fn print_packet(way: Way, place: usize, out: &[u8], sent: usize, back: &[u8], returned: usize) {
    if let Ok(part) = tables::show(way, place, out, sent, back, returned) {
        if let Ok(head) = wire::read_head(part) {
            print_head(head);
        }
    }
}

// The packets of a channel in the order of their places.
fn print_packets(way: Way, out: &[u8], sent: usize, back: &[u8], returned: usize) {
    for place in 0..64 {
        print_packet(way, place, out, sent, back, returned);
    }
}

fn print_empty(count: usize) {
    if count == 0 {
        say(b" empty");
    }
}

pub(crate) fn print(b: Bench, out: &[u8], back: &[u8]) {
    print_console(b.console);
    print_controller(b.controller);
    say(b"  to controller:");
    print_empty(b.sent);
    print_packets(Way::Out, out, b.sent, back, b.returned);
    say(b"\n  to console:");
    print_empty(b.returned);
    print_packets(Way::Back, out, b.sent, back, b.returned);
    say(b"\n");
}
