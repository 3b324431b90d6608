// The order of packets in a stream: the progress so far and one piece give the next progress, the end, or a refusal. It looks at no byte.
// It serves the stream check: `take_step` asks that its counts have room for one packet more, which a stream in memory always leaves.
#![tactic(auto)]

ghost use Rattle.std.specs.Prelude.{◌≡◌, ◌+◌, ◌<◌, ◌^◌};
ghost use Rattle.order.specs.Order.{started, misplaced, overdue, unmapped, either_type, falls, progress_after, ending, step_as, step_of};

use piece::Piece;
use plate::{Fault, Refusal};

// What has passed: packets in all, packets since the latest map, whether an FLT was seen, whether EOS must follow it, whether a UMF was seen.
#[derive(Clone, Copy, Debug, PartialEq, Eq)]
pub struct Progress {
    pub count: usize,
    pub since_map: usize,
    pub flt: bool,
    pub eos_due: bool,
    pub umf: bool,
}

// What a packet that may stand where it does leads to.
#[derive(Clone, Copy, Debug, PartialEq, Eq)]
pub enum Step {
    Next(Progress),
    // The stream ends here, with so many packets.
    Ended(usize),
}

// Before the first packet.
pub fn start() -> Progress
    ensures { result ≡ started }
{
    Progress {
        count: 0,
        since_map: 0,
        flt: false,
        eos_due: false,
        umf: false,
    }
}

// 19: a second FLT, or a packet that is no EOS after an FLT that did not directly follow the first map.
fn is_misplaced(eos_due: bool, flt: bool, packet_type: u8) -> bool
    ensures { result ≡ misplaced eos_due flt packet_type }
{
    if eos_due {
        packet_type != packet::EOS
    } else {
        flt && packet_type == packet::FLT
    }
}

// 20: the hundredth packet in a row without a map.
fn is_overdue(since_map: usize, packet_type: u8) -> bool
    ensures { result ≡ overdue since_map packet_type }
{
    packet_type != packet::MAP && 99 <= since_map
}

// 22: a media packet of known type whose ID the latest map does not list under that type; listed is the type that it does list.
fn is_unmapped(packet_type: u8, media_type: u8, listed: u8) -> bool
    ensures { result ≡ unmapped packet_type media_type listed }
{
    packet_type == packet::MEDIA && (media_type != listed && media_type::is_known(media_type))
}

fn or_type(flag: bool, packet_type: u8, wanted: u8) -> bool
    ensures { result ≡ either_type flag packet_type wanted }
{
    flag || packet_type == wanted
}

// Whether EOS must follow: an FLT anywhere but directly behind the first map.
fn falls_due(count: usize, packet_type: u8) -> bool
    ensures { result ≡ falls count packet_type }
{
    packet_type == packet::FLT && count != 1
}

// The progress after a packet that may stand where it does.
fn passed(p: Progress, packet_type: u8) -> Progress
    requires { (p.count + 1 < 2 ^ 64) × (p.since_map + 1 < 2 ^ 64) }
    ensures { result ≡ progress_after p packet_type }
{
    Progress {
        count: p.count + 1,
        since_map: if packet_type == packet::MAP {
            0
        } else {
            p.since_map + 1
        },
        flt: or_type(p.flt, packet_type, packet::FLT),
        eos_due: falls_due(p.count, packet_type),
        umf: or_type(p.umf, packet_type, packet::UMF),
    }
}

// An EOS at a position: 18 where bytes follow, 21 where no UMF came before.
fn at_end(p: Progress, at: usize, more: bool) -> Result<Step, Refusal>
    requires { p.count + 1 < 2 ^ 64 }
    ensures { result ≡ ending p at more }
{
    if more {
        return Err(plate::refuse(Fault::StreamEnd, at));
    }
    if !p.umf {
        return Err(plate::refuse(Fault::NoUmf, at));
    }
    Ok(Step::Ended(p.count + 1))
}

// A packet of a type and, where it is media, of a media type.
fn step_as(
    p: Progress,
    packet_type: u8,
    media_type: u8,
    at: usize,
    listed: u8,
    more: bool,
) -> Result<Step, Refusal>
    requires { (p.count + 1 < 2 ^ 64) × (p.since_map + 1 < 2 ^ 64) }
    ensures { result ≡ step_as p packet_type media_type at listed more }
{
    if is_misplaced(p.eos_due, p.flt, packet_type) {
        return Err(plate::refuse(Fault::LocatorPlace, at));
    }
    if is_overdue(p.since_map, packet_type) {
        return Err(plate::refuse(Fault::MapOverdue, at));
    }
    if is_unmapped(packet_type, media_type, listed) {
        return Err(plate::refuse(Fault::Unmapped, at));
    }
    if packet_type == packet::EOS {
        return at_end(p, at, more);
    }
    Ok(Step::Next(passed(p, packet_type)))
}

// One piece at a position, with the type that the latest map lists under its ID, and whether bytes follow it: 19, 20, 22, 18, 21.
// Most packets are media: with their type as a constant the compiler leaves out what is only asked of others.
pub fn take_step(p: Progress, x: Piece, at: usize, listed: u8, more: bool) -> Result<Step, Refusal>
    requires { (p.count + 1 < 2 ^ 64) × (p.since_map + 1 < 2 ^ 64) }
    ensures { result ≡ step_of p x at listed more }
{
    if x.packet_type == packet::MEDIA {
        return step_as(p, packet::MEDIA, x.media_type, at, listed, more);
    }
    step_as(p, x.packet_type, x.media_type, at, listed, more)
}
