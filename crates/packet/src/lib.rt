// Reading a packet: the four kinds of number, the decoded header, `read`, and the sequence count moved on.
//
//   octets  0 1   version 3 | packet type 1 | secondary header flag 1 | APID 11
//           2 3   sequence flags 2 | sequence count 14
//           4 5   length field: the octets after it, less one
//           6     binding version 3 | SDU type 5
//           7 8   area        9 10   service        11 12   operation        13   area version
//          14 15  error 1 | QoS level 2 | session 2 | secondary APID 11
//          16 17  secondary APID qualifier
//          18 25  transaction id
//          26     presence: source id, destination id, priority, timestamp, zone, session name, domain, authentication id
//          27 ..  source id | destination id | segment counter | priority | timestamp | zone | session name | domain |
//                 authentication id | body
//
// `read` takes any settings and any slice. It answers every value and where every content stands, or one refusal and zeros.
// Every field of the secondary header is one step of a walk, at the walk's own place (crate `walk`).
#![tactic(auto)]

ghost use Rattle.std.specs.Prelude.{◌≡◌, length};
ghost use Rattle.octets.specs.Octets.{Octets};
ghost use Rattle.walk.specs.Walk.{goes as goes_at};
ghost use Rattle.walk.specs.Read.{Reads, Tests, Answers};
ghost use Rattle.fields.specs.Fields.{block};
ghost use Rattle.packet.specs.Numbers.{next_sequence_count, sequence_count_at, next_segment_counter};
ghost use Rattle.packet.specs.FixedPart.{flags_of, sdu_field};
ghost use Rattle.packet.specs.Reading.{primary_of, ids_of, texts_of, body_test, segmented as segmented_of, counter_size};
ghost use Rattle.packet.specs.Reading.{read_packet};
ghost use Rattle.packet.specs.Decoded.{decoded};
ghost use Rattle.packet.specs.Inner.{held_count, names_of, routing_of, fixed_part, secondary, Judges};

use fields::{Domain, NO_DOMAIN, NOWHERE, Place};
use walk::{Reader, Refused, Settings, ensure};

// The largest sequence count, and how many there are.
pub const COUNT_MOST: u16 = 16383;

pub const COUNTS: usize = 16384;

// The most segments of a message.
pub const SEGMENTS_MOST: usize = 4096;

#[derive(Clone, Copy)]
pub struct Apid(pub u16);

#[derive(Clone, Copy)]
pub struct SecondaryApid(pub u16);

#[derive(Clone, Copy)]
pub struct SequenceCount(pub u16);

#[derive(Clone, Copy)]
pub struct SegmentCounter(pub u32);

// The sequence flags: what a packet is in its message.
pub const CONTINUATION: u8 = 0;

pub const FIRST: u8 = 1;

pub const LAST: u8 = 2;

pub const UNSEGMENTED: u8 = 3;

// Octets of the primary header, of the fixed part of the secondary one, and of a segment counter.
pub const PRIMARY: usize = 6;

pub const FIXED: usize = 21;

pub const COUNTER: usize = 4;

// The mark that stands before each packet of a recording.
pub const MARK_FIRST: u8 = 0x4d;

pub const MARK_SECOND: u8 = 0x50;

// The primary header: packet type, APID, sequence flags, sequence count.
#[derive(Clone, Copy)]
pub struct Primary {
    pub packet_type: u8,
    pub apid: Apid,
    pub flags: u8,
    pub sequence_count: SequenceCount,
}

// The fixed part of the secondary header, but for its presence flags.
#[derive(Clone, Copy)]
pub struct Fixed {
    pub sdu: u8,
    pub area: u16,
    pub service: u16,
    pub operation: u16,
    pub version: u8,
    pub error: u8,
    pub qos: u8,
    pub session: u8,
    pub secondary_apid: SecondaryApid,
    pub qualifier: u16,
    pub transaction: u64,
}

// The eight presence flags.
#[derive(Clone, Copy)]
pub struct Present {
    pub source: bool,
    pub destination: bool,
    pub priority: bool,
    pub timestamp: bool,
    pub zone: bool,
    pub session_name: bool,
    pub domain: bool,
    pub authentication: bool,
}

// The optional numbers; 0 if absent.
#[derive(Clone, Copy)]
pub struct Ids {
    pub source: u8,
    pub destination: u8,
    pub counter: SegmentCounter,
    pub priority: u32,
}

// Where the optional contents stand; a domain's parts each with its own place.
#[derive(Clone, Copy)]
pub struct Texts {
    pub timestamp: Place,
    pub zone: Place,
    pub session_name: Place,
    pub count: usize,
    pub parts: [Place; 16],
    pub authentication: Place,
}

// What reading answers if it does not refuse. h is H, the octets of the secondary header without its counter. A header with a zone is of
// the withdrawn kind.
#[derive(Clone, Copy)]
pub struct Header {
    pub primary: Primary,
    pub fixed: Fixed,
    pub has: Present,
    pub ids: Ids,
    pub texts: Texts,
    pub h: usize,
    pub body: Place,
    pub withdrawn: bool,
}

// The first half of the fixed part, and the second up to the qualifier.
#[derive(Clone, Copy)]
struct Names {
    sdu: u8,
    area: u16,
    service: u16,
    operation: u16,
    version: u8,
}

#[derive(Clone, Copy)]
struct Routing {
    error: u8,
    qos: u8,
    session: u8,
    secondary_apid: SecondaryApid,
    qualifier: u16,
}

// A count above the largest stands for the largest: 0 follows either.
fn held_count(x: u16) -> u16
    ensures { result ≡ held_count x }
{
    if COUNT_MOST <= x {
        return COUNT_MOST;
    }
    x
}

// The sequence count n packets on: 0 follows 16,383.
pub fn sequence_count_after(c: SequenceCount, n: usize) -> SequenceCount
    ensures { result ≡ sequence_count_at c n }
{
    let x = held_count(c.0) as usize;
    if n == 0 {
        return c;
    }
    SequenceCount(((x + n % COUNTS) % COUNTS) as u16)
}

// The next sequence count.
pub fn next_sequence_count(c: SequenceCount) -> SequenceCount
    ensures { result ≡ next_sequence_count c }
{
    sequence_count_after(c, 1)
}

// The next segment counter: 0 follows 4,294,967,295.
pub fn next_segment_counter(c: SegmentCounter) -> SegmentCounter
    ensures { result ≡ next_segment_counter c }
{
    if c.0 == u32::MAX {
        return SegmentCounter(0);
    }
    SegmentCounter(c.0 + 1)
}

// 1 to 4, then 5 or 27.
fn check_primary(p: &[u8]) -> Result<(), Refused>
    ensures { Judges p.now result }
{
    ensure(PRIMARY <= p.len(), Refused::FewOctets)?;
    let first = octets::octet(p, 0);
    ensure(first < 32, Refused::Version)?;
    ensure(first / 8 % 2 == 1, Refused::NoSecondary)?;
    ensure(octets::read::<u16>(p, 0) % 2048 != 2047, Refused::Idle)?;
    let want = octets::read::<u16>(p, 4) as usize + 7;
    if p.len() < want {
        return Err(Refused::Short {
            missing: want - p.len(),
        });
    }
    if want < p.len() {
        return Err(Refused::Long {
            over: p.len() - want,
        });
    }
    Ok(())
}

fn read_primary(p: &[u8]) -> Primary
    ensures { result ≡ primary_of p.now }
{
    let first = octets::octet(p, 0);
    let third = octets::octet(p, 2);
    let apid = Apid(octets::read::<u16>(p, 0) % 2048);
    let sequence_count = SequenceCount(octets::read::<u16>(p, 2) % 16384);
    Primary {
        packet_type: first / 16 % 2,
        apid: apid,
        flags: third / 64,
        sequence_count: sequence_count,
    }
}

// Binding version (7) and SDU type (8).
fn read_sdu(reader: &mut Reader) -> Result<u8, Refused>
    ensures { Reads (sdu_field reader.old.bound reader.old.octets.now) reader.old reader.new result }
{
    let first = reader.octet()?;
    ensure(first < 32, Refused::Binding)?;
    ensure(first % 32 < 22, Refused::SduType)?;
    Ok(first % 32)
}

// SDU type, area, service, operation, area version.
fn read_names(reader: &mut Reader) -> Result<Names, Refused>
    ensures { Reads (names_of reader.old.bound reader.old.octets.now) reader.old reader.new result }
{
    Ok(Names {
        sdu: read_sdu(reader)?,
        area: reader.be16()?,
        service: reader.be16()?,
        operation: reader.be16()?,
        version: reader.octet()?,
    })
}

// Error, QoS level, session (9), secondary APID, qualifier. The secondary APID began in the octet of the session: refused by 9 or in its
// second octet, the reader stands there.
fn read_routing(reader: &mut Reader) -> Result<Routing, Refused>
    ensures { Reads (routing_of reader.old.bound reader.old.octets.now) reader.old reader.new result }
{
    let start = reader.at;
    let high = reader.octet()?;
    if 3 <= high / 8 % 4 {
        reader.at = start;
        return Err(Refused::Session);
    }
    let low = match reader.octet() {
        Ok(low) => low,
        Err(refused) => {
            reader.at = start;
            return Err(refused.began(start));
        }
    };
    let secondary_apid = SecondaryApid((high % 8) as u16 * 256 + low as u16);
    Ok(Routing {
        error: high / 128,
        qos: high / 32 % 4,
        session: high / 8 % 4,
        secondary_apid,
        qualifier: reader.be16()?,
    })
}

pub fn flags_of(f: u8) -> Present
    ensures { result ≡ flags_of f }
{
    Present {
        source: f / 128 % 2 == 1,
        destination: f / 64 % 2 == 1,
        priority: f / 32 % 2 == 1,
        timestamp: f / 16 % 2 == 1,
        zone: f / 8 % 2 == 1,
        session_name: f / 4 % 2 == 1,
        domain: f / 2 % 2 == 1,
        authentication: f % 2 == 1,
    }
}

// The whole fixed part, and its presence flags.
pub fn read_fixed(reader: &mut Reader) -> Result<(Fixed, Present), Refused>
    ensures { Reads (fixed_part reader.old.bound reader.old.octets.now) reader.old reader.new result }
{
    let names = read_names(reader)?;
    let routing = read_routing(reader)?;
    let transaction = reader.be64()?;
    let has = flags_of(reader.octet()?);
    let fixed = Fixed {
        sdu: names.sdu,
        area: names.area,
        service: names.service,
        operation: names.operation,
        version: names.version,
        error: routing.error,
        qos: routing.qos,
        session: routing.session,
        secondary_apid: routing.secondary_apid,
        qualifier: routing.qualifier,
        transaction,
    };
    Ok((fixed, has))
}

// Whether the sequence flags aren't 11.
fn segmented(p: &[u8]) -> bool
    ensures { result ≡ segmented_of p.now }
{
    octets::octet(p, 2) / 64 != 3
}

// Source id, destination id, segment counter, priority.
pub fn read_ids(reader: &mut Reader, segment: bool, has: Present) -> Result<Ids, Refused>
    ensures { Reads (ids_of reader.old.settings reader.old.bound segment has reader.old.octets.now) reader.old reader.new result }
{
    Ok(Ids {
        source: reader.optional(has.source, 0, Reader::octet)?,
        destination: reader.optional(has.destination, 0, Reader::octet)?,
        counter: SegmentCounter(reader.optional(segment, 0, Reader::be32)?),
        priority: reader.optional(has.priority, 0, Reader::uinteger)?,
    })
}

// A timestamp: T octets.
fn read_timestamp(reader: &mut Reader) -> Result<Place, Refused>
    ensures { Reads (block reader.old.settings.t reader.old.bound reader.old.octets.now) reader.old reader.new result }
{
    let t = reader.settings.t;
    fields::read_block(reader, t)
}

// Timestamp, network zone, session name, domain, authentication id.
pub fn read_texts(reader: &mut Reader, has: Present) -> Result<Texts, Refused>
    ensures { Reads (texts_of reader.old.settings reader.old.bound has reader.old.octets.now) reader.old reader.new result }
{
    let timestamp = reader.optional(has.timestamp, NOWHERE, read_timestamp)?;
    let zone = reader.optional(has.zone, NOWHERE, fields::read_text)?;
    let session_name = reader.optional(has.session_name, NOWHERE, fields::read_text)?;
    let Domain { count, parts } = reader.optional(has.domain, NO_DOMAIN, fields::read_domain)?;
    let authentication = reader.optional(has.authentication, NOWHERE, fields::read_blob)?;
    Ok(Texts {
        timestamp,
        zone,
        session_name,
        count,
        parts,
        authentication,
    })
}

// 14: a segment has a body.
fn check_body(p: &[u8], end: usize) -> Result<(), Refused>
    ensures { Tests (body_test p.now (goes_at end)) end result }
{
    if segmented(p) {
        return ensure(end < p.len(), Refused::EmptySegment);
    }
    Ok(())
}

// The octets of a segment counter in the header.
fn counter_size(p: &[u8]) -> usize
    ensures { result ≡ counter_size p.now }
{
    if segmented(p) {
        return COUNTER;
    }
    0
}

// The secondary header, and where the body stands; 14: a segment has one. Places are counted from the packet's first octet.
fn read_secondary(s: Settings, p: &[u8]) -> Result<Header, Refused>
    ensures { Answers (secondary s p.now (goes_at 6)) result }
{
    let mut reader = Reader {
        octets: p,
        settings: s,
        bound: walk::header_bound(),
        at: PRIMARY,
    };
    let (fixed, has) = read_fixed(&mut reader)?;
    let ids = read_ids(&mut reader, segmented(p), has)?;
    let texts = read_texts(&mut reader, has)?;
    let end = reader.at;
    check_body(p, end)?;
    Ok(Header {
        primary: read_primary(p),
        fixed,
        has,
        ids,
        texts,
        h: end.saturating_sub(PRIMARY).saturating_sub(counter_size(p)),
        body: Place {
            at: end,
            length: p.len().saturating_sub(end),
        },
        withdrawn: has.zone,
    })
}

// The packet's header, or its refusal.
pub fn read(s: Settings, p: &[u8]) -> Result<Header, Refused>
    ensures answer { decoded result ≡ read_packet s p.now }
    ensures octets { Octets p.now }
{
    s.check()?;
    check_primary(p)?;
    match read_secondary(s, p) {
        Ok(header) => Ok(header),
        Err(refused) => Err(refused.counted_from(PRIMARY)),
    }
}
