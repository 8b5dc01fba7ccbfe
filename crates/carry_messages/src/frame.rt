// What stands at the front of the octets in hand: a message after its mark and length, or a PDU, or nothing that is one.
ghost use Rattle.std.specs.Prelude.{◌≡◌, ◌+◌, ◌≤◌, length};

// What it is: whole, or more octets must be read; the file ends there; no message or PDU begins there; it is torn off; it is longer than
// the window.
pub const WHOLE: u8 = 0;

pub const MORE: u8 = 1;

pub const ENDED: u8 = 2;

pub const UNMARKED: u8 = 3;

pub const TORN: u8 = 4;

pub const LONG: u8 = 5;

// A message's mark, `4D 4D`, and the octets of mark and length.
const MARK: u8 = 77;

pub const HEAD: usize = 6;

// Where the length of a message stands after its mark.
const LENGTH_AT: usize = 2;

// The fixed part of a PDU, where the length of its rest stands, its version, and what a one of that counts for in the first octet.
const FIXED: usize = 23;

const VERSION: u8 = 1;

const VARIABLE_AT: usize = 19;

const VERSION_UNIT: u8 = 32;

// What is carried stands in the octets in hand from `head` up to `used`; what is longer than the window has `long` octets in all.
#[derive(Clone, Copy)]
pub struct Frame {
    pub what: u8,
    pub head: usize,
    pub used: usize,
    pub long: usize,
}

// Nothing that can be carried yet, or at all.
fn none(what: u8, long: usize) -> Frame
    ensures head_value { result.head ≡ 0 }
    ensures used_value { result.used ≡ 0 }
{
    Frame {
        what: what,
        head: 0,
        used: 0,
        long: long,
    }
}

// Too few octets to tell: more must be read, unless the file ends.
fn short(y: &[u8], ends: bool) -> u8 {
    if !ends {
        return MORE;
    }
    if y.len() == 0 {
        return ENDED;
    }
    TORN
}

// What has so many octets in all, the first `head` of them in front of what is carried.
fn sized(y: &[u8], head: usize, whole: usize, most: usize, ends: bool) -> Frame
    requires { head ≤ whole }
    ensures head_le_used { result.head ≤ result.used }
    ensures used_in_bounds { result.used ≤ length y.now }
{
    if whole <= y.len() {
        return Frame {
            what: WHOLE,
            head: head,
            used: whole,
            long: 0,
        };
    }
    if most < whole {
        return none(LONG, whole);
    }
    none(short(y, ends), 0)
}

// The octets in hand as a message after its mark and length.
pub fn message(y: &[u8], most: usize, ends: bool) -> Frame
    ensures head_le_used { result.head ≤ result.used }
    ensures used_in_bounds { result.used ≤ length y.now }
{
    if y.len() > 0 {
        if y[0] != MARK {
            return none(UNMARKED, 0);
        }
    }
    if y.len() > 1 {
        if y[1] != MARK {
            return none(UNMARKED, 0);
        }
    }
    if y.len() < HEAD {
        return none(short(y, ends), 0);
    }
    sized(
        y,
        HEAD,
        HEAD + octets::read::<u32>(y, LENGTH_AT) as usize,
        most,
        ends,
    )
}

// The octets in hand as a PDU.
pub fn pdu(y: &[u8], most: usize, ends: bool) -> Frame
    ensures head_le_used { result.head ≤ result.used }
    ensures used_in_bounds { result.used ≤ length y.now }
{
    if y.len() > 0 {
        if y[0] / VERSION_UNIT != VERSION {
            return none(UNMARKED, 0);
        }
    }
    if y.len() < FIXED {
        return none(short(y, ends), 0);
    }
    sized(
        y,
        0,
        FIXED + octets::read::<u32>(y, VARIABLE_AT) as usize,
        most,
        ends,
    )
}
