// A console run alone.
ghost use Rattle.std.specs.Prelude.{◌≡◌, true, false, Some, IfOk, length};
ghost use Rattle.ground.specs.Cell.{is_message};
ghost use Rattle.wire.specs.Packet.{head_read};
ghost use Rattle.rules.specs.Ends.{put, tell_ack, ConsoleAct};
ghost use Rattle.rules.specs.Letters.{letter};
ghost use Rattle.letters.specs.Lines.{console_ask_means, found_of};
ghost use Rattle.ends.specs.AsRules.{for_console};
ghost use Rattle.ends.specs.Packets.{to_controller_sent};
ghost use Rattle.ends_console.specs.Ack.{use_means};
ghost use Rattle.alone.specs.Alone.{Writable};
ghost use Rattle.alone.specs.AnyEnd.{lent};
ghost use Rattle.alone.specs.ConsoleAlone.{console_alone};
ghost use Rattle.alone.specs.ConsolePrivate.{console_act, console_heard, console_does, message_kept, console_tells, console_ask_in, console_answer};
ghost use Rattle.alone.specs.Private.{refuses};

use crate::{send, sends};
use ends::packets::{for_console, to_controller};
use ends::{Report, ToConsole};
use ends_console::ack::{AckUse, ack_use, shows};
use ends_console::fields::{Console, console_of, read_console};
use ends_console::refusals::ack_refusal;
use ends_console::turns::{data_sent, needi_sent};
use ends_console::{Acted, End, acts};
use ground::Refusal;
use letters::{Asks, ConsoleAsk};

#[derive(Clone, Copy)]
pub struct ConsoleOutcome {
    pub report: Report,
    pub sent: bool,
    pub console: Console,
}

// P.
#[tactic(auto, unfolding(crate::specs::ConsolePrivate::console_act))]
fn puts(e: End, message: &[u8; 16]) -> Result<Acted, Refusal>
    ensures { result ≡ console_act e (is_message message.now) (put tt) }
{
    acts::put_refusal(e, ground::is_message(message))?;
    Ok(acts::puts(e))
}

// S of a packet that is for it.
#[tactic(auto, unfolding(crate::specs::ConsolePrivate::console_act, rules::specs::Ends::ends))]
fn hears(e: End, came: ToConsole) -> Result<Acted, Refusal>
    ensures { result ≡ console_act e true (ConsoleAct.take (for_console (Some came))) }
{
    if !e.up {
        return Err(Refusal::IsDown);
    }
    Ok(acts::takes_what_came(e, Some(came)))
}

// S. It is lent the reply buffer, whose length is looked at even with nothing to send. A packet in whose kind goes the other way is 15.
#[tactic(auto, unfolding(crate::specs::AnyEnd::lent, ground::specs::Choice::chosen))]
fn takes(e: End, packet: &[u8], reply: &[u8]) -> Result<Acted, Refusal>
    ensures { result ≡ lent refuses (length reply.now) (console_heard e (head_read packet.now)) }
{
    if reply.len() != 32 {
        return Err(Refusal::WrongLength);
    }
    let head = wire::read_head(packet)?;
    let came = for_console(head).ok_or(Refusal::WrongField)?;
    hears(e, came)
}

// V. Its refusal and Y's are alike; what each brings back is its own.
#[tactic(auto, unfolding(crate::specs::ConsolePrivate::console_act, rules::specs::Ends::ends))]
fn comes_back(e: End) -> Result<Acted, Refusal>
    ensures { result ≡ console_act e true ConsoleAct.come_back }
{
    if e.up {
        return Err(Refusal::IsUp);
    }
    Ok(acts::comes_back(e))
}

// A. It changes nothing but the ack.
#[tactic(auto, using(ends_console::proofs::ActsDone::same_mode), unfolding(crate::specs::ConsolePrivate::console_act, rules::specs::Ends::ends))]
fn tells(e: End) -> Result<Acted, Refusal>
    ensures { result ≡ console_act e true tell_ack }
{
    ack_refusal(e.mode, e.up)?;
    Ok(Acted {
        report: Report::Nothing,
        sent: None,
        after: e,
    })
}

// What a well-formed console does that is asked. A match on an enum: each arm is handed what its act needs, and no more.
#[tactic(auto, using(crate::proofs::ConsoleAlone::asking))]
fn does(
    e: End,
    ask: ConsoleAsk,
    message: &[u8; 16],
    packet: &[u8],
    reply: &[u8],
) -> Result<Acted, Refusal>
    ensures { result ≡ console_does e message.now packet.now (length reply.now) (console_ask_means ask) }
{
    match ask {
        ConsoleAsk::Put => puts(e, message),
        ConsoleAsk::SendNeedI => sends(e, needi_sent(e.mode), reply),
        ConsoleAsk::SendData => sends(e, data_sent(e.mode), reply),
        ConsoleAsk::Take => takes(e, packet, reply),
        ConsoleAsk::GoDown => Ok(acts::goes_down(e)),
        ConsoleAsk::ComeBack => comes_back(e),
        ConsoleAsk::TellAck => tells(e),
    }
}

// The message that is held then, if one is: the put one is kept.
fn message_kept(ask: ConsoleAsk, message: &[u8; 16], held: [u8; 16]) -> [u8; 16]
    ensures { result ≡ message_kept (console_ask_means ask) message.now held }
{
    match ask {
        ConsoleAsk::Put => *message,
        _ => held,
    }
}

// What was done is told, and what it sends is written. The console then holds `message`, if it holds one, and its ack is what the act leaves of `ack`.
#[tactic(auto, unfolding(crate::specs::ConsolePrivate::console_tells, ends::specs::Packets::to_controller_sent))]
fn told(acted: Acted, u: AckUse, ack: bool, message: [u8; 16], reply: &mut [u8]) -> ConsoleOutcome
    requires { Writable (to_controller_sent acted.sent message) (length reply.old) }
    ensures { record { outcome = result; reply = reply.new } ≡ console_tells acted (use_means u) ack message reply.old }
{
    let shown = shows(u, ack, acted.report);
    ConsoleOutcome {
        report: shown.report,
        sent: send(acted.sent.map(|p| to_controller(p, message)), reply),
        console: console_of(acted.after, shown.ack, message),
    }
}

fn refused(refusal: Refusal, c: Console) -> ConsoleOutcome
    ensures { result ≡ record { report = Report.Refused refusal; sent = false; console = c } }
{
    ConsoleOutcome {
        report: Report::Refused(refusal),
        sent: false,
        console: c,
    }
}

// What a letter asks of a console, if it asks one.
fn asked(byte: u8) -> Option<ConsoleAsk>
    ensures { result ≡ console_ask_in (found_of (letter byte)) }
{
    match letters::find(byte)?.asks {
        Asks::Console(ask) => Some(ask),
        _ => None,
    }
}

// What a console is asked, and what it does: 1, 2, then what is asked.
#[tactic(auto, using(crate::proofs::ConsoleAlone::entry, crate::proofs::ConsoleWritable::does_writable))]
fn obeys(
    c: Console,
    letter: u8,
    message: &[u8; 16],
    packet: &[u8],
    reply: &[u8],
) -> Result<(ConsoleAsk, Acted), Refusal>
    ensures told { console_answer c message.now reply.now result ≡ console_alone c letter message.now packet.now reply.now }
    ensures writable { IfOk result (λ x. Writable (to_controller_sent x.1.sent (message_kept (console_ask_means x.0) message.now c.message)) (length reply.now)) }
{
    let ask = asked(letter).ok_or(Refusal::NoAction)?;
    let e = read_console(c).ok_or(Refusal::IllFormed)?;
    Ok((ask, does(e, ask, message, packet, reply)?))
}

// P Q D S C V A of a console run alone; any other letter is 1. What is sent is written to `reply`.
pub fn step(
    c: Console,
    letter: u8,
    message: &[u8; 16],
    packet: &[u8],
    reply: &mut [u8],
) -> ConsoleOutcome
    ensures { record { outcome = result; reply = reply.new } ≡ console_alone c letter message.now packet.now reply.old }
{
    match obeys(c, letter, message, packet, reply) {
        Ok((ask, acted)) => {
            let held = message_kept(ask, message, c.message);
            told(acted, ack_use(ask), c.ack, held, reply)
        }
        Err(refusal) => refused(refusal, c),
    }
}
