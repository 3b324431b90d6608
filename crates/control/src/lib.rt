// The functions for C: the header, the position by a locator table, and seek, on numbers and byte slices. include/lumperki.h declares them.
// A slice is a pointer and a length in C. Every answer is a struct by value: number 0 and the values, or a number of the plate, its place and the bytes lacking.
#![tactic(auto)]

ghost use Rattle.std.specs.Prelude.{◌≡◌};
ghost use Rattle.packet.specs.Packet.{header_at};
ghost use Rattle.locator.specs.Locator.{position_at};
ghost use Rattle.stream.specs.Stream.{seek_of};
ghost use Rattle.control.specs.Control.{header_for_c, position_for_c, seek_for_c};

use for_c::GxfValue;

// What a header says: the packet's type, and its length with the header.
#[repr(C)]
#[derive(Clone, Copy)]
pub struct GxfPacket {
    pub number: u64,
    pub place: u64,
    pub lacking: u64,
    pub packet_type: u64,
    pub len: u64,
}

// The header at a position: refusals 1 to 5.
#[unsafe(no_mangle)]
pub extern "C" fn gxf_header(s: &[u8], at: usize) -> GxfPacket
    ensures { result ≡ header_for_c (header_at s.now at) }
{
    match packet::header(s, at) {
        Ok(p) => GxfPacket {
            number: 0,
            place: 0,
            lacking: 0,
            packet_type: p.packet_type as u64,
            len: p.len as u64,
        },
        Err(r) => GxfPacket {
            number: r.fault.number() as u64,
            place: r.place as u64,
            lacking: r.lacking as u64,
            packet_type: 0,
            len: 0,
        },
    }
}

// The position for a distance in fields, by the FLT packet at a position: refusals 1 to 6, 8, 14, 15, 16.
#[unsafe(no_mangle)]
pub extern "C" fn gxf_position(s: &[u8], at: usize, distance: u64) -> GxfValue
    ensures { result ≡ position_for_c (position_at s.now at distance) }
{
    match locator::position(s, at, distance) {
        Ok(o) => for_c::answered(o),
        Err(r) => for_c::refused(r),
    }
}

// The offset of the first packet that carries a field of a track: the refusals of the check, then 16.
#[unsafe(no_mangle)]
pub extern "C" fn gxf_seek(s: &[u8], track: u64, field: u64) -> GxfValue
    ensures { result ≡ seek_for_c (seek_of s.now track field) }
{
    for_c::value(stream::seek(s, track, field))
}
