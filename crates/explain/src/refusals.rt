// The sentences of document 01's table of refusals, with A in 4 and 6; 14 is said of both versions of a number record too.
use crate::text::say;
use ends::Report;
use ground::Refusal;

// Bytes for the kit's `io`, as all that the programs say; Display would print by std, which reaches more of the C library.
fn sentence(refusal: Refusal) -> &'static [u8] {
    match refusal {
        Refusal::NoAction => b"01: list record not well formed, or a letter that is no action here",
        Refusal::IllFormed => b"02: bench or end not well formed, or a table of another length",
        Refusal::NoPlace => b"03: place not below the count",
        Refusal::IsDown => b"04: P Q D S A with the console down, O K R with the controller down",
        Refusal::IsUp => b"05: V or Y with that end up",
        Refusal::OtherMode => b"06: P or A with a message held, or Q D O K in another mode",
        Refusal::UnknownNumber =>
            b"07: R of data or done whose I is above the controller's last used",
        Refusal::NumbersSpent => b"08: P with J numbers spent",
        Refusal::NoRoom => b"09: copies to be added exceed the free places of the target channel",
        Refusal::TooManyCopies => b"10: copies above 3",
        Refusal::NoMessage => b"11: P with a cell outside 0x20 to 0x7E",
        Refusal::WrongLength => b"12: packet, record or reply buffer of a wrong length",
        Refusal::WrongMark => b"13: mark wrong",
        Refusal::WrongVersion => b"14: version wrong",
        Refusal::WrongField => b"15: any other field outside its table",
    }
}

// Prints nothing for a record that was not refused.
pub(crate) fn print(report: Report) {
    if let Some(refusal) = report.refusal() {
        say(b"  refused ");
        say(sentence(refusal));
        say(b"\n");
    }
}
