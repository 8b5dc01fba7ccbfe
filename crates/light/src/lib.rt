// A light reading, for those who need no header: the refusal, the sequence flags, the segment counter, and where the body begins.
//
// If all up to the presence octet is there and accepted, and no flag is set, nothing else is looked at: `ready` tests the fixed part once,
// and what follows has its own places. Every other packet is read whole, by `packet::read`, which makes all refusals.
#![tactic(auto)]

ghost use Rattle.std.specs.Prelude.{◌≡◌, true, ◌+◌, ◌/◌, ◌≤◌, ◌<◌, length};
ghost use Rattle.octets.specs.Octets.{octet_at, number};
ghost use Rattle.packet.specs.Reading.{segmented, read_packet};
ghost use Rattle.light.specs.Light.{Ready, light_of, seen};

use packet::{SegmentCounter, UNSEGMENTED};
use walk::{Refused, Settings};

// What a light reading answers.
#[derive(Clone, Copy)]
pub struct Light {
    pub flags: u8,
    pub counter: SegmentCounter,
    pub body: usize,
}

// An octet that is there.
pub fn octet(p: &[u8], at: usize) -> u64
    requires { at < length p.now }
    ensures value { result ≡ octet_at p.now at }
    ensures small { result < 256 }
{
    p[at] as u64
}

// A number of two octets that are there.
pub fn word(p: &[u8], at: usize) -> u64
    requires { at + 1 < length p.now }
    ensures value { result ≡ number 2 p.now at }
    ensures small { result < 65536 }
{
    octet(p, at) * 256 + octet(p, at + 1)
}

// One of four.
pub fn double(p: &[u8], at: usize) -> u64
    requires { at + 3 < length p.now }
    ensures value { result ≡ number 4 p.now at }
    ensures small { result < 4294967296 }
{
    word(p, at) * 65536 + word(p, at + 2)
}

// Whether all up to the presence octet is there and accepted.
pub fn ready(s: Settings, p: &[u8]) -> bool
    ensures { result ≡ true → Ready s p.now }
{
    if p.len() < 27 {
        return false;
    }
    if s.t < 1 {
        return false;
    }
    if 16 < s.t {
        return false;
    }
    if 1 < s.profile {
        return false;
    }
    let first = p[0];
    let apid = word(p, 0);
    let size = word(p, 4);
    let sdu = p[6];
    let session = p[14];
    if 31 < first {
        return false;
    }
    if first / 8 % 2 != 1 {
        return false;
    }
    if apid % 2048 == 2047 {
        return false;
    }
    if p.len() as u64 != size + 7 {
        return false;
    }
    if 21 < sdu {
        return false;
    }
    session / 8 % 4 < 3
}

// Whether the packet is a segment.
pub fn is_segment(p: &[u8]) -> bool
    requires { 27 ≤ length p.now }
    ensures { result ≡ segmented p.now }
{
    octet(p, 2) / 64 != 3
}

// By a whole reading.
fn from_whole(s: Settings, p: &[u8]) -> Result<Light, Refused>
    ensures { seen result ≡ light_of (read_packet s p.now) }
{
    let h = packet::read(s, p)?;
    Ok(Light {
        flags: h.primary.flags,
        counter: h.ids.counter,
        body: h.body.at,
    })
}

// A packet without optional fields that is no segment: its body begins after the fixed part.
fn unsegmented() -> Light
    ensures { result ≡ record { flags = 3; counter = record { 0 = 0 }; body = 27 } }
{
    Light {
        flags: UNSEGMENTED,
        counter: SegmentCounter(0),
        body: 27,
    }
}

// A segment without optional fields: its body begins after the counter.
fn segment(p: &[u8]) -> Light
    requires { 31 < length p.now }
    ensures { result ≡ record { flags = octet_at p.now 2 / 64; counter = record { 0 = number 4 p.now 27 }; body = 31 } }
{
    Light {
        flags: (octet(p, 2) / 64) as u8,
        counter: SegmentCounter(double(p, 27) as u32),
        body: 31,
    }
}

// Reading lightly.
pub fn read(s: Settings, p: &[u8]) -> Result<Light, Refused>
    ensures { seen result ≡ light_of (read_packet s p.now) }
{
    if ready(s, p) && octet(p, 26) == 0 {
        if !is_segment(p) {
            return Ok(unsegmented());
        }
        if 31 < p.len() {
            return Ok(segment(p));
        }
    }
    from_whole(s, p)
}
