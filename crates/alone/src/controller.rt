// A controller run alone.
ghost use Rattle.std.specs.Prelude.{◌≡◌, false, Some, IfOk, length, drop};
ghost use Rattle.ground.specs.Cell.{spaces};
ghost use Rattle.wire.specs.Packet.{head_read};
ghost use Rattle.rules.specs.Ends.{ControllerAct};
ghost use Rattle.rules.specs.Letters.{letter};
ghost use Rattle.letters.specs.Lines.{controller_ask_means, found_of};
ghost use Rattle.ends.specs.AsRules.{for_controller, delivered_beside};
ghost use Rattle.ends.specs.Packets.{to_console_sent};
ghost use Rattle.alone.specs.Alone.{Writable};
ghost use Rattle.alone.specs.AnyEnd.{lent};
ghost use Rattle.alone.specs.ControllerAlone.{controller_alone};
ghost use Rattle.alone.specs.ControllerPrivate.{controller_act, controller_heard, controller_does, Delivers, controller_tells, controller_ask_in, controller_answer};
ghost use Rattle.alone.specs.Private.{refuses};

use crate::{send, sends};
use ends::packets::{for_controller, to_console};
use ends::{Report, ToController};
use ends_controller::fields::{Controller, controller_of, read_controller};
use ends_controller::turns::{offer_sent, ok_sent};
use ends_controller::{Acted, End, acts};
use ground::Refusal;
use letters::{Asks, ControllerAsk};

// The message is the delivered one, 16 spaces with any other report.
#[derive(Clone, Copy)]
pub struct ControllerOutcome {
    pub report: Report,
    pub message: [u8; 16],
    pub sent: bool,
    pub controller: Controller,
}

// R of a packet that is for it.
#[tactic(auto, unfolding(crate::specs::ControllerPrivate::controller_act))]
fn hears(e: End, came: ToController) -> Result<Acted, Refusal>
    ensures { result ≡ controller_act e (ControllerAct.take (for_controller (Some came))) }
{
    acts::take_refusal(e, Some(came))?;
    Ok(acts::takes_what_came(e, Some(came)))
}

// R. It is lent the reply buffer, whose length is looked at even with nothing to send. A packet in whose kind goes the other way is 15.
#[tactic(auto, unfolding(crate::specs::AnyEnd::lent, ground::specs::Choice::chosen))]
fn takes(e: End, packet: &[u8], reply: &[u8]) -> Result<Acted, Refusal>
    ensures { result ≡ lent refuses (length reply.now) (controller_heard e (head_read packet.now)) }
{
    if reply.len() != 32 {
        return Err(Refusal::WrongLength);
    }
    let head = wire::read_head(packet)?;
    let came = for_controller(head).ok_or(Refusal::WrongField)?;
    hears(e, came)
}

// Y. As V, of a controller.
#[tactic(auto, unfolding(crate::specs::ControllerPrivate::controller_act, rules::specs::Ends::ends))]
fn comes_back(e: End) -> Result<Acted, Refusal>
    ensures { result ≡ controller_act e ControllerAct.come_back }
{
    if e.up {
        return Err(Refusal::IsUp);
    }
    Ok(acts::comes_back(e))
}

// What a well-formed controller does that is asked. A match on an enum, as the console's.
#[tactic(auto, using(crate::proofs::ControllerAlone::asking))]
fn does(e: End, ask: ControllerAsk, packet: &[u8], reply: &[u8]) -> Result<Acted, Refusal>
    ensures { result ≡ controller_does e packet.now (length reply.now) (controller_ask_means ask) }
{
    match ask {
        ControllerAsk::SendOffer => sends(e, offer_sent(e.mode), reply),
        ControllerAsk::SendOk => sends(e, ok_sent(e.mode), reply),
        ControllerAsk::Take => takes(e, packet, reply),
        ControllerAsk::GoDown => Ok(acts::goes_down(e)),
        ControllerAsk::ComeBack => comes_back(e),
    }
}

// The message of a packet that was read: 16 bytes by both bounds, so that nothing outside is called to copy them. Wire's own asks for 32 bytes, as
// this does, so that it is private there: what is public asks nothing.
fn message_at(packet: &[u8]) -> [u8; 16]
    requires { length packet.now ≡ 32 }
    ensures { result ≡ drop 16 packet.now }
{
    let mut m = [0; 16];
    m.copy_from_slice(&packet[16..32]);
    m
}

// It is copied where it is delivered alone.
fn delivers(report: Report, packet: &[u8]) -> [u8; 16]
    requires { Delivers report packet.now }
    ensures { result ≡ delivered_beside report (drop 16 packet.now) }
{
    match report {
        Report::Delivered => message_at(packet),
        _ => [0x20; 16],
    }
}

// What was done is told, with the message that it delivers of the packet in, and what it sends is written.
#[tactic(auto, unfolding(crate::specs::ControllerPrivate::controller_tells, ends::specs::Packets::to_console_sent))]
fn told(acted: Acted, packet: &[u8], reply: &mut [u8]) -> ControllerOutcome
    requires delivers { Delivers acted.report packet.now }
    requires writable { Writable (to_console_sent acted.sent) (length reply.old) }
    ensures { record { outcome = result; reply = reply.new } ≡ controller_tells acted (drop 16 packet.now) reply.old }
{
    ControllerOutcome {
        report: acted.report,
        message: delivers(acted.report, packet),
        sent: send(acted.sent.map(to_console), reply),
        controller: controller_of(acted.after),
    }
}

fn refused(refusal: Refusal, c: Controller) -> ControllerOutcome
    ensures { result ≡ record { report = Report.Refused refusal; message = spaces; sent = false; controller = c } }
{
    ControllerOutcome {
        report: Report::Refused(refusal),
        message: [0x20; 16],
        sent: false,
        controller: c,
    }
}

// What a letter asks of a controller, if it asks one.
fn asked(byte: u8) -> Option<ControllerAsk>
    ensures { result ≡ controller_ask_in (found_of (letter byte)) }
{
    match letters::find(byte)?.asks {
        Asks::Controller(ask) => Some(ask),
        _ => None,
    }
}

// What a controller does: 1, 2, then what is asked.
#[tactic(auto, using(crate::proofs::ControllerAlone::entry, crate::proofs::ControllerWritable::told_well))]
fn obeys(c: Controller, letter: u8, packet: &[u8], reply: &[u8]) -> Result<Acted, Refusal>
    ensures told { controller_answer c (drop 16 packet.now) reply.now result ≡ controller_alone c letter packet.now reply.now }
    ensures delivers { IfOk result (λ d. Delivers d.report packet.now) }
    ensures writable { IfOk result (λ d. Writable (to_console_sent d.sent) (length reply.now)) }
{
    let ask = asked(letter).ok_or(Refusal::NoAction)?;
    let e = read_controller(c).ok_or(Refusal::IllFormed)?;
    does(e, ask, packet, reply)
}

// O K R X Y of a controller run alone; any other letter is 1. What is sent is written to `reply`.
pub fn step(c: Controller, letter: u8, packet: &[u8], reply: &mut [u8]) -> ControllerOutcome
    ensures { record { outcome = result; reply = reply.new } ≡ controller_alone c letter packet.now reply.old }
{
    match obeys(c, letter, packet, reply) {
        Ok(acted) => told(acted, packet, reply),
        Err(refusal) => refused(refusal, c),
    }
}
