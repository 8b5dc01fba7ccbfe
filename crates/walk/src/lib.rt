// A reading's place and refusal, and the steps that make every refusal of reading.
//
// A `Reader` goes by `&mut` through every step, and `?` hands on the first refusal, so the code above is straight-line. Two steps test
// octets (`skip` and `uinteger`: first what would go past the bound, then 6, then 10), one tests a value (`ensure`). A `Bound` is where
// the fields end at the latest: a packet's header has a limit, and past it is 12. `Settings` is what both sides agreed on. Lengths, counts
// and the priority are read by `uinteger`, and nothing else asks how they are written: each is a Varint, or under the first pods' profile
// four octets. A `Walk` makes the same steps by value; a refused one passes through unchanged.
#![tactic(auto)]

ghost use Rattle.std.specs.Prelude.{◌≡◌, ◌-◌, min, length, true, false, eqb};
ghost use Rattle.std.specs.Fn.{FnOnceReturnsAtMut};
ghost use Rattle.octets.specs.Octets.{pick};
ghost use Rattle.varint.specs.Varint.{read_at};
ghost use Rattle.varint.specs.Answer.{found};
ghost use Rattle.walk.specs.Walk.{goes as goes_at, refused as refused_by, octets as octets_of, check as check_of, uinteger, begun};
ghost use Rattle.walk.specs.Walk.{varint_field, octet_field, wide_field};
ghost use Rattle.walk.specs.Read.{Reads, skipped};
ghost use Rattle.walk.specs.Profile.{uinteger_size};
ghost use Rattle.walk.specs.Walk.{unless as unless_of, refusal as refusal_of, header_bound, past as past_of, ended_by, field_from};
ghost use Rattle.walk.specs.Told.{told, said, Holds};
ghost use Rattle.walk.specs.Inner.{as_walk, of_walk, as_uinteger};

use varint::ReadError;

// Where the secondary header ends at the latest: six octets of primary header and 256.
pub const HEADER_END: usize = 262;

pub const TIMESTAMP_LEAST: usize = 1;

pub const TIMESTAMP_MOST: usize = 16;

// The profiles: every UInteger is a Varint, or has four octets. There is none after the second.
pub const PROFILE_VARINT: u64 = 0;

pub const PROFILE_FIXED: u64 = 1;

// The octets of a UInteger that is no Varint.
pub const UINTEGER: usize = 4;

// The refusals by name; docs/SPEC.md has the rule of each.
// Fewer than six octets.
pub const REFUSED_FEW_OCTETS: u8 = 1;

// Packet version not 000.
pub const REFUSED_VERSION: u8 = 2;

// Secondary header flag 0.
pub const REFUSED_NO_SECONDARY: u8 = 3;

// APID 2047.
pub const REFUSED_IDLE: u8 = 4;

// The slice is shorter than its length field says.
pub const REFUSED_SHORT: u8 = 5;

// The data field ends inside the secondary header.
pub const REFUSED_HEADER_ENDS: u8 = 6;

// Binding version not 000.
pub const REFUSED_BINDING: u8 = 7;

// SDU type 22 to 31.
pub const REFUSED_SDU_TYPE: u8 = 8;

// Session 3.
pub const REFUSED_SESSION: u8 = 9;

// A Varint not shortest, or above 32 bits.
pub const REFUSED_VARINT: u8 = 10;

// A domain part that is not there.
pub const REFUSED_DOMAIN_PART: u8 = 11;

// Secondary header above 256 octets.
pub const REFUSED_HEADER_LONG: u8 = 12;

// More than sixteen domain parts.
pub const REFUSED_MANY_PARTS: u8 = 13;

// A segment without a body.
pub const REFUSED_EMPTY_SEGMENT: u8 = 14;

// T, the profile or P out of range.
pub const REFUSED_SETTINGS: u8 = 15;

// Store not in order.
pub const REFUSED_ORDER: u8 = 16;

// A segment that fits no cell.
pub const REFUSED_CELL: u8 = 17;

// Contradicts a held segment.
pub const REFUSED_CONTRADICTS: u8 = 18;

// No free cell.
pub const REFUSED_FULL: u8 = 19;

// Nothing complete.
pub const REFUSED_INCOMPLETE: u8 = 20;

// Output too short.
pub const REFUSED_OUTPUT: u8 = 21;

// A value to write that its field can not have.
pub const REFUSED_VALUE: u8 = 22;

// Packet or message too large.
pub const REFUSED_LARGE: u8 = 23;

// No room for body octets in a packet.
pub const REFUSED_NO_ROOM: u8 = 24;

// 25 is withdrawn: there is always a next counter.

// No packet of that number.
pub const REFUSED_NUMBER: u8 = 26;

// The slice is longer than its length field says.
pub const REFUSED_LONG: u8 = 27;

// A text that is not well-formed UTF-8.
pub const REFUSED_TEXT: u8 = 28;

// A message of too many segments.
pub const REFUSED_MANY_SEGMENTS: u8 = 29;

// A network zone to write: it is withdrawn.
pub const REFUSED_WITHDRAWN: u8 = 30;

// The number names no cell with a taken record.
pub const REFUSED_NO_RECORD: u8 = 31;

// A packet that the other cells are too short for.
pub const REFUSED_PACKET_LONG: u8 = 32;

// An id of a PDU that is not the decimal digits, without leading zeros, of 0 to 255.
pub const REFUSED_ID: u8 = 33;

// A timestamp that a PDU has no room for: T is not 6.
pub const REFUSED_TIMESTAMP: u8 = 34;

// A QoS level or a session of a PDU that a packet has not.
pub const REFUSED_RANGE: u8 = 35;

// A state of salvaging that can not be one.
pub const REFUSED_STATE: u8 = 40;

// Why a call was refused; docs/SPEC.md has the rule of each. Three tell more: how many octets are missing or left over, and where in the
// secondary header the unfinished field began.
#[derive(Clone, Copy, Debug, PartialEq, Eq)]
pub enum Refused {
    // Fewer than six octets.
    FewOctets,
    // Packet version not 000.
    Version,
    // Secondary header flag 0.
    NoSecondary,
    // APID 2047.
    Idle,
    // The slice is shorter than its length field says.
    Short { missing: usize },
    // The data field ends inside the secondary header.
    HeaderEnds { place: usize },
    // Binding version not 000.
    Binding,
    // SDU type 22 to 31.
    SduType,
    // Session 3.
    Session,
    // A Varint not shortest, or above 32 bits.
    Varint,
    // A domain part that is not there.
    DomainPart,
    // Secondary header above 256 octets.
    HeaderLong,
    // More than sixteen domain parts.
    ManyParts,
    // A segment without a body.
    EmptySegment,
    // T, the profile or P out of range.
    Settings,
    // Store not in order.
    Order,
    // A segment that fits no cell.
    Cell,
    // Contradicts a held segment.
    Contradicts,
    // No free cell.
    Full,
    // Nothing complete.
    Incomplete,
    // Output too short.
    Output,
    // A value to write that its field can not have.
    Value,
    // Packet or message too large.
    Large,
    // No room for body octets in a packet.
    NoRoom,
    // No packet of that number.
    Number,
    // The slice is longer than its length field says.
    Long { over: usize },
    // A text that is not well-formed UTF-8.
    Text,
    // A message of too many segments.
    ManySegments,
    // A network zone to write: it is withdrawn.
    Withdrawn,
    // The number names no cell with a taken record.
    NoRecord,
    // A packet that the other cells are too short for.
    PacketLong,
    // An id of a PDU that is not the decimal digits, without leading zeros, of 0 to 255.
    Id,
    // A timestamp that a PDU has no room for: T is not 6.
    Timestamp,
    // A QoS level or a session of a PDU that a packet has not.
    Range,
    // A state of salvaging that can not be one.
    State,
}

// What both sides agreed on: T, the octets of a timestamp, and the profile.
#[derive(Clone, Copy)]
pub struct Settings {
    pub t: usize,
    pub profile: u64,
}

// A refusal: its number of SPEC's list, 0 if there is none; beside 5 and 27 the octets that are missing or left over; beside 6 the place in
// the secondary header where the unfinished field began. What is not told is 0.
#[derive(Clone, Copy)]
pub struct Refusal {
    pub number: u8,
    pub octets: usize,
    pub place: usize,
}

// What tests of values have come to so far: the number of the first refusal, 0 if there is none.
#[derive(Clone, Copy)]
pub struct Tested {
    pub number: u8,
}

// Where fields end at the latest, and whether that is the limit of a packet's header (12), else it is the end of what is read (6).
#[derive(Clone, Copy)]
pub struct Bound {
    pub end: usize,
    pub limit: bool,
}

// A reading: the next place; or the number of its refusal, and where it was refused: if octets were missing, where their field began.
#[derive(Clone, Copy)]
pub struct Walk {
    pub at: usize,
    pub refused: u8,
}

// A number that was read, and the reading after it.
#[derive(Clone, Copy)]
pub struct UInteger {
    pub walk: Walk,
    pub value: u32,
}

impl Refused {
    // Its number in docs/SPEC.md.
    pub fn number(self) -> u8
        ensures { result ≡ (told self).number }
    {
        match self {
            Refused::FewOctets => REFUSED_FEW_OCTETS,
            Refused::Version => REFUSED_VERSION,
            Refused::NoSecondary => REFUSED_NO_SECONDARY,
            Refused::Idle => REFUSED_IDLE,
            Refused::Short { .. } => REFUSED_SHORT,
            Refused::HeaderEnds { .. } => REFUSED_HEADER_ENDS,
            Refused::Binding => REFUSED_BINDING,
            Refused::SduType => REFUSED_SDU_TYPE,
            Refused::Session => REFUSED_SESSION,
            Refused::Varint => REFUSED_VARINT,
            Refused::DomainPart => REFUSED_DOMAIN_PART,
            Refused::HeaderLong => REFUSED_HEADER_LONG,
            Refused::ManyParts => REFUSED_MANY_PARTS,
            Refused::EmptySegment => REFUSED_EMPTY_SEGMENT,
            Refused::Settings => REFUSED_SETTINGS,
            Refused::Order => REFUSED_ORDER,
            Refused::Cell => REFUSED_CELL,
            Refused::Contradicts => REFUSED_CONTRADICTS,
            Refused::Full => REFUSED_FULL,
            Refused::Incomplete => REFUSED_INCOMPLETE,
            Refused::Output => REFUSED_OUTPUT,
            Refused::Value => REFUSED_VALUE,
            Refused::Large => REFUSED_LARGE,
            Refused::NoRoom => REFUSED_NO_ROOM,
            Refused::Number => REFUSED_NUMBER,
            Refused::Long { .. } => REFUSED_LONG,
            Refused::Text => REFUSED_TEXT,
            Refused::ManySegments => REFUSED_MANY_SEGMENTS,
            Refused::Withdrawn => REFUSED_WITHDRAWN,
            Refused::NoRecord => REFUSED_NO_RECORD,
            Refused::PacketLong => REFUSED_PACKET_LONG,
            Refused::Id => REFUSED_ID,
            Refused::Timestamp => REFUSED_TIMESTAMP,
            Refused::Range => REFUSED_RANGE,
            Refused::State => REFUSED_STATE,
        }
    }

    // Beside 5 and 27 the octets that are missing or left over, else 0.
    pub fn octets(self) -> usize
        ensures { result ≡ (told self).octets }
    {
        match self {
            Refused::Short { missing } => missing,
            Refused::Long { over } => over,
            _ => 0,
        }
    }

    // Beside 6 the place in the secondary header where the unfinished field began, else 0.
    pub fn place(self) -> usize
        ensures { result ≡ (told self).place }
    {
        match self {
            Refused::HeaderEnds { place } => place,
            _ => 0,
        }
    }
}

impl Settings {
    // 15 if T or the profile is out of range.
    pub fn check(self) -> Result<(), Refused>
        ensures { said result ≡ refusal_of (begun self).refused }
    {
        if self.t < TIMESTAMP_LEAST || TIMESTAMP_MOST < self.t || PROFILE_FIXED < self.profile {
            return Err(Refused::Settings);
        }
        Ok(())
    }
}

// A test, and its refusal.
pub fn ensure(ok: bool, refused: Refused) -> Result<(), Refused>
    ensures { Holds ok refused result }
{
    if ok { Ok(()) } else { Err(refused) }
}

// The one place where a refusal of the definitions' record is made.
pub fn telling(k: u8, octets: usize, place: usize) -> Refusal
    ensures { result ≡ record { number = k; octets = octets; place = place } }
{
    Refusal {
        number: k,
        octets: octets,
        place: place,
    }
}

// The refusal of a number that tells nothing beside it; 0 is none.
pub fn numbered(k: u8) -> Refusal
    ensures { result ≡ refusal_of k }
{
    telling(k, 0, 0)
}

// The refusal k unless the test holds; one that is there stays.
pub fn unless(r: Tested, ok: bool, k: u8) -> Tested
    ensures { result ≡ unless_of ok k r }
{
    if r.number != 0 {
        return r;
    }
    if ok {
        return r;
    }
    Tested { number: k }
}

pub fn goes(at: usize) -> Walk
    ensures { result ≡ as_walk (goes_at at) }
{
    Walk { at: at, refused: 0 }
}

// The one place where a walk is refused.
pub fn stopped(at: usize, k: u8) -> Walk
    ensures { result ≡ as_walk (refused_by at k) }
{
    Walk { at: at, refused: k }
}

// The bound of a packet's secondary header.
pub fn header_bound() -> Bound
    ensures { result ≡ header_bound }
{
    Bound {
        end: HEADER_END,
        limit: true,
    }
}

impl Bound {
    // Which refusal it is to go past it.
    pub fn past(self) -> u8
        ensures { result ≡ past_of self }
    {
        if self.limit {
            return REFUSED_HEADER_LONG;
        }
        REFUSED_HEADER_ENDS
    }
}

impl Walk {
    // n octets at the place, refused past the bound, or by 6.
    pub fn octets(self, b: Bound, p: &[u8], n: usize) -> Walk
        ensures { result ≡ as_walk (octets_of b p.now n (of_walk self)) }
    {
        let at = self.at;
        let past = b.past();
        if self.refused != 0 {
            return self;
        }
        if b.end < at {
            return stopped(at, past);
        }
        if b.end - at < n {
            return stopped(at, past);
        }
        if p.len() < at + n {
            return stopped(at, REFUSED_HEADER_ENDS);
        }
        goes(at + n)
    }

    // Refused by k unless the test holds.
    pub fn check(self, ok: bool, k: u8) -> Walk
        ensures { result ≡ as_walk (check_of ok k (of_walk self)) }
    {
        if self.refused != 0 {
            return self;
        }
        if ok {
            return self;
        }
        stopped(self.at, k)
    }

    // The walk after a field of several steps that began at `start`: refused in any of them, it stands there.
    pub fn field_from(self, start: Walk) -> Walk
        ensures { result ≡ as_walk (field_from (of_walk start) (of_walk self)) }
    {
        if self.refused != 0 {
            return stopped(start.at, self.refused);
        }
        self
    }
}

// The octets up to the bound.
fn before_bound(b: Bound, p: &[u8]) -> usize
    ensures limit { result ≡ min b.end (length p.now) }
{
    if p.len() < b.end {
        return p.len();
    }
    b.end
}

// Which refusal an end inside a number is: the bound's if it is reached, else 6.
fn end_refusal(b: Bound, p: &[u8]) -> u8
    ensures { result ≡ ended_by b p.now }
{
    if b.end <= p.len() {
        return b.past();
    }
    REFUSED_HEADER_ENDS
}

// A Varint of at most 32 bits at the place, refused past the bound, by 6 or 10.
fn read_varint(b: Bound, p: &[u8], w: Walk) -> UInteger
    ensures { result ≡ as_uinteger (varint_field b p.now (of_walk w)) }
{
    if w.refused != 0 {
        return UInteger { walk: w, value: 0 };
    }
    let at = w.at;
    let end = before_bound(b, p);
    let ended = end_refusal(b, p);
    let head = &p[0..end];
    match varint::read32(head, at) {
        Ok((v, next)) => {
            let walk = goes(next);
            UInteger {
                walk: walk,
                value: v as u32,
            }
        }
        Err(ReadError::Ends) => {
            let walk = stopped(w.at, ended);
            UInteger {
                walk: walk,
                value: 0,
            }
        }
        Err(ReadError::Bad) => {
            let walk = stopped(w.at, REFUSED_VARINT);
            UInteger {
                walk: walk,
                value: 0,
            }
        }
    }
}

// Four octets as a number at the place, refused past the bound or by 6 as a whole.
pub fn read_four(b: Bound, p: &[u8], w: Walk) -> UInteger
    ensures { result ≡ as_uinteger (wide_field uinteger_size b p.now (of_walk w)) }
{
    let walk = w.octets(b, p, UINTEGER);
    let value = octets::read::<u32>(p, w.at);
    UInteger {
        walk: walk,
        value: value,
    }
}

// An unsigned number of at most 32 bits at the place, as the profile has it.
pub fn read_uinteger(s: Settings, b: Bound, p: &[u8], w: Walk) -> UInteger
    ensures { result ≡ as_uinteger (uinteger s b p.now (of_walk w)) }
{
    if s.profile == PROFILE_FIXED {
        return read_four(b, p, w);
    }
    read_varint(b, p, w)
}

// Where reading begins, refused by 15.
pub fn begin(s: Settings) -> Walk
    ensures { result ≡ as_walk (begun s) }
{
    let w = goes(6);
    w.check(TIMESTAMP_LEAST <= s.t, REFUSED_SETTINGS)
        .check(s.t <= TIMESTAMP_MOST, REFUSED_SETTINGS)
        .check(s.profile <= PROFILE_FIXED, REFUSED_SETTINGS)
}

// ---- the reader

// What is read: octets, what both sides agreed on, where the fields end at the latest, and the place where the next one begins. A step that
// is refused leaves it at the place where it was refused, and the rest as it was.
#[derive(Clone, Copy)]
pub struct Reader<'a> {
    pub octets: &'a [u8],
    pub settings: Settings,
    pub bound: Bound,
    pub at: usize,
}

impl Bound {
    // The refusal of a field that goes past it.
    fn passed(self, at: usize) -> Refused
        ensures { told result ≡ record { number = past_of self; octets = 0; place = pick (eqb (past_of self) 6) at 0 } }
    {
        if self.limit {
            return Refused::HeaderLong;
        }
        Refused::HeaderEnds { place: at }
    }
}

impl Refused {
    // The refusal of a field of several steps, which began here.
    pub fn began(self, place: usize) -> Refused
        ensures { told result ≡ record (told self) { place = pick (eqb (told self).number 6) place 0 } }
    {
        match self {
            Refused::HeaderEnds { .. } => Refused::HeaderEnds { place },
            _ => self,
        }
    }

    // The refusal with its place counted from another one.
    pub fn counted_from(self, start: usize) -> Refused
        ensures { told result ≡ record (told self) { place = (told self).place - start } }
    {
        match self {
            Refused::HeaderEnds { place } => Refused::HeaderEnds {
                place: place.saturating_sub(start),
            },
            _ => self,
        }
    }
}

// A Varint of at most 32 bits at a place, and the place after it.
fn varint_at(octets: &[u8], at: usize) -> Result<(u32, usize), ReadError>
    ensures { result ≡ found (read_at 32 octets.now at) }
{
    let (value, next) = varint::read32(octets, at)?;
    Ok((value as u32, next))
}

impl<'a> Reader<'a> {
    // Goes past n octets, refused past the bound, or by 6.
    pub fn skip(&mut self, n: usize) -> Result<(), Refused>
        ensures { Reads (skipped self.old.bound self.old.octets.now n) self.old self.new result }
    {
        let at = self.at;
        if self.bound.end < at || self.bound.end - at < n {
            return Err(self.bound.passed(at));
        }
        if self.octets.len() < at + n {
            return Err(Refused::HeaderEnds { place: at });
        }
        self.at = at + n;
        Ok(())
    }

    // An octet.
    #[tactic(auto, unfolding(crate::specs::Walk::octet_field))]
    pub fn octet(&mut self) -> Result<u8, Refused>
        ensures { Reads (octet_field self.old.bound self.old.octets.now) self.old self.new result }
    {
        let value = octets::octet(self.octets, self.at);
        self.skip(1)?;
        Ok(value)
    }

    // A number of two octets.
    #[tactic(auto, unfolding(crate::specs::Walk::wide_field))]
    pub fn be16(&mut self) -> Result<u16, Refused>
        ensures { Reads (wide_field 2 self.old.bound self.old.octets.now) self.old self.new result }
    {
        let value = octets::read::<u16>(self.octets, self.at);
        self.skip(2)?;
        Ok(value)
    }

    // A number of four.
    #[tactic(auto, unfolding(crate::specs::Walk::wide_field))]
    pub fn be32(&mut self) -> Result<u32, Refused>
        ensures { Reads (wide_field 4 self.old.bound self.old.octets.now) self.old self.new result }
    {
        let value = octets::read::<u32>(self.octets, self.at);
        self.skip(4)?;
        Ok(value)
    }

    // A number of eight.
    #[tactic(auto, unfolding(crate::specs::Walk::wide_field))]
    pub fn be64(&mut self) -> Result<u64, Refused>
        ensures { Reads (wide_field 8 self.old.bound self.old.octets.now) self.old self.new result }
    {
        let value = octets::read::<u64>(self.octets, self.at);
        self.skip(8)?;
        Ok(value)
    }

    // A Varint of at most 32 bits, refused past the bound, by 6 or 10.
    fn varint(&mut self) -> Result<u32, Refused>
        ensures { Reads (varint_field self.old.bound self.old.octets.now) self.old self.new result }
    {
        let at = self.at;
        let end = self.octets.len().min(self.bound.end);
        match varint_at(&self.octets[..end], at) {
            Ok((value, next)) => {
                self.at = next;
                Ok(value)
            }
            Err(ReadError::Ends) => {
                if end < self.bound.end {
                    return Err(Refused::HeaderEnds { place: at });
                }
                Err(self.bound.passed(at))
            }
            Err(ReadError::Bad) => Err(Refused::Varint),
        }
    }

    // An unsigned number of at most 32 bits, as the profile has it.
    pub fn uinteger(&mut self) -> Result<u32, Refused>
        ensures { Reads (uinteger self.old.settings self.old.bound self.old.octets.now) self.old self.new result }
    {
        if self.settings.profile == PROFILE_FIXED {
            return self.be32();
        }
        self.varint()
    }

    // What a step finds if its field is there, else this.
    pub fn optional<T: Drop, F: FnOnce(&mut Reader<'a>) -> Result<T, Refused>>(
        &mut self,
        there: bool,
        absent: T,
        step: F,
    ) -> Result<T, Refused>
        requires { F.IsAlwaysCallable step }
        ensures present { there ≡ true → FnOnceReturnsAtMut F.FnOnce step self.old result self.new }
        ensures absent { there ≡ false → (result ≡ Ok absent) × (self.new ≡ self.old) }
    {
        if there {
            return step(self);
        }
        Ok(absent)
    }
}
