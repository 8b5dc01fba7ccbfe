// A whole message carried between a packet's form and the survey office's PDU: `to_pdu` and `to_message`. Octets in, octets out.
//
//   message   identification 2 | secondary header without a counter | body         as taking writes it
//   PDU       fixed part 23 | optional fields | body                                as crate `pdu` has it
//
// A message is read by the steps of a packet and written by `pdu::write`; a PDU is read by `pdu::read` and written by the pieces of a packet's
// header. Packet type, APIDs and qualifier have no field in a PDU: the caller lends them for the way back, and an encoding id for the way
// there. The body is carried as it is: the encoding id must say what it is. An id, one octet in a packet, is its decimal digits in a PDU.
// On a refusal the output is as it was.
#![tactic(auto)]

ghost use Rattle.std.specs.Prelude.{◌≡◌, false, map, ◌+◌, ◌-◌, ◌≤◌, length, take, leb};
ghost use Rattle.std.proofs.lemmas.List.Edits.{sets};
ghost use Rattle.octets.specs.Octets.{Octets, octet_at};
ghost use Rattle.octets.specs.Laying.{laid, together, Lays};
ghost use Rattle.walk.specs.Walk.{goes as goes_at, unless, none_failed};
ghost use Rattle.walk.specs.Read.{Tests, Answers};
ghost use Rattle.packet.specs.Decoded.{decoded, whole as whole_header};
ghost use Rattle.packet.specs.Format.{header_most};
ghost use Rattle.format.specs.Told.{content as content_of};
ghost use Rattle.write.specs.Given.{lent_of, head_of};
ghost use Rattle.carry.specs.Digits.{digits, value_of, is_id, id_text, id_value, id_fits};
ghost use Rattle.carry.specs.Message.{message_bound, start_at, primary_of, timestamp_fits, read_message, parts_of};
ghost use Rattle.carry.specs.There.{office_values, office_answer, office_output, to_pdu_answer, to_pdu_output};
ghost use Rattle.carry.specs.Back.{route_test, value_test, message_values, not_carried, made_answer, made_output, back_answer, back_output};
ghost use Rattle.carry.specs.Back.{to_message_answer, to_message_output};
ghost use Rattle.carry.specs.Inner.{message_from, whole as whole_packet, message_pieces, told_to, Few};

use fields::Place;
use packet::{Apid, Header, Present, Primary, SecondaryApid, SegmentCounter, SequenceCount, Texts};
use pdu::{PduValues, Written};
use walk::{
    Bound, REFUSED_HEADER_LONG, REFUSED_ID, REFUSED_OUTPUT, REFUSED_RANGE, REFUSED_TIMESTAMP,
    REFUSED_VALUE, REFUSED_WITHDRAWN, Reader, Refusal, Refused, Settings, Tested, ensure,
};
use write::{HeaderValues, LentTexts, PacketValues};

// The octets of the identification, and where a header after it ends at the latest.
const IDENTIFICATION: usize = 2;

const HEADER_END: usize = 258;

// The digit 0, and the largest id and encoding id.
const ZERO: u8 = 48;

const ZERO_DIGIT: usize = 48;

const ID_MOST: usize = 255;

const ENCODING_MOST: u16 = 255;

// The largest values that a packet has, below those of a PDU and of their types; APID 2047 is idle.
const BIT_MOST: u8 = 1;

const APID_IDLE: u16 = 2047;

const SECONDARY_APID_MOST: u16 = 2047;

const QUALIFIER_MOST: u32 = 65535;

const QOS_MOST: u8 = 3;

const SESSION_MOST: u8 = 2;

// One above the octets that a header holds.
const JOINED_MOST: usize = 257;

// What a one of the packet type counts for in the identification, and the secondary header flag.
const TYPE_UNIT: u64 = 4096;

const SECONDARY_FLAG: u64 = 2048;

// What a packet says and a PDU has no field for, lent for the way back.
#[derive(Clone, Copy)]
pub struct Route {
    pub packet_type: u8,
    pub apid: Apid,
    pub secondary_apid: SecondaryApid,
    pub qualifier: u32,
}

// What the way back answers: H, the octets of the body, the encoding id; or a refusal and zeros.
#[derive(Clone, Copy)]
pub struct Carried {
    pub refusal: Refusal,
    pub header: usize,
    pub body: usize,
    pub encoding: u8,
}

// Up to three digits.
#[derive(Clone, Copy)]
struct IdDigits {
    length: usize,
    octets: [u8; 3],
}

// ---- ids as digits

fn digits_of(n: u8) -> IdDigits
    ensures digits { take result.length result.octets ≡ digits n }
    ensures few { result.length ≤ length result.octets }
{
    if n < 10 {
        let one = [ZERO + n, 0, 0];
        return IdDigits {
            length: 1,
            octets: one,
        };
    }
    if n < 100 {
        let two = [ZERO + n / 10, ZERO + n % 10, 0];
        return IdDigits {
            length: 2,
            octets: two,
        };
    }
    let three = [ZERO + n / 100, ZERO + n / 10 % 10, ZERO + n % 10];
    IdDigits {
        length: 3,
        octets: three,
    }
}

fn digits_if(there: bool, n: u8) -> IdDigits
    ensures digits { take result.length result.octets ≡ id_text there n }
    ensures few { result.length ≤ length result.octets }
{
    if there {
        return digits_of(n);
    }
    let none = [0; 3];
    IdDigits {
        length: 0,
        octets: none,
    }
}

// What an octet counts for as a digit.
fn digit_at(t: &[u8], i: usize) -> usize
    ensures digit { result ≡ octet_at t.now i - 48 }
    ensures small { result ≤ 255 }
{
    octets::less(octets::octet(t, i) as usize, ZERO_DIGIT)
}

// The number that one, two or three octets write.
fn value_of(t: &[u8]) -> usize
    ensures value { result ≡ value_of t.now }
    ensures small { result ≤ 28305 }
{
    let a = digit_at(t, 0);
    let b = digit_at(t, 1);
    let c = digit_at(t, 2);
    if t.len() == 1 {
        return a;
    }
    if t.len() == 2 {
        return a * 10 + b;
    }
    a * 100 + b * 10 + c
}

// Whether a text is the digits of 0 to 255, and nothing else.
fn is_id(t: &[u8]) -> bool
    ensures { result ≡ is_id t.now }
{
    let v = value_of(t);
    if ID_MOST < v {
        return false;
    }
    let d = digits_of(v as u8);
    let n = d.length;
    let o = d.octets;
    octets::same(t, &o[0..n])
}

fn id_fits(there: bool, t: &[u8]) -> bool
    ensures { result ≡ id_fits there t.now }
{
    if there {
        return is_id(t);
    }
    true
}

// What an id that may be absent says.
fn id_value(there: bool, t: &[u8]) -> u16
    ensures { result ≡ id_value there t.now }
{
    if there {
        return value_of(t) as u16;
    }
    0
}

// ---- reading a message

fn message_bound() -> Bound
    ensures { result ≡ message_bound }
{
    Bound {
        end: HEADER_END,
        limit: true,
    }
}

// 15, 22, then 1 to 4: the header begins after the identification.
fn check_start(s: Settings, encoding: u16, m: &[u8]) -> Result<(), Refused>
    ensures { Tests (start_at s encoding m.now) 2 result }
{
    s.check()?;
    ensure(encoding <= ENCODING_MOST, Refused::Value)?;
    ensure(IDENTIFICATION <= m.len(), Refused::FewOctets)?;
    let first = octets::octet(m, 0);
    ensure(first < 32, Refused::Version)?;
    ensure(first / 8 % 2 == 1, Refused::NoSecondary)?;
    ensure(octets::read::<u16>(m, 0) % 2048 != 2047, Refused::Idle)
}

// A timestamp, if there is one, has the length that a PDU gives it.
fn timestamp_fits(s: Settings, has: Present) -> bool
    ensures { result ≡ timestamp_fits s has }
{
    !has.timestamp || s.t == pdu::TIMESTAMP
}

fn read_primary(m: &[u8]) -> Primary
    ensures { result ≡ primary_of m.now }
{
    let first = octets::octet(m, 0);
    let apid = Apid(octets::read::<u16>(m, 0) % 2048);
    let sequence_count = SequenceCount(0);
    Primary {
        packet_type: first / 16 % 2,
        apid: apid,
        flags: packet::UNSEGMENTED,
        sequence_count: sequence_count,
    }
}

// The header after the identification, as a packet's of flags 11. Places are counted from the message's first octet.
fn read_header(s: Settings, m: &[u8]) -> Result<Header, Refused>
    ensures { Answers (message_from s m.now (goes_at 2)) result }
{
    let mut reader = Reader {
        octets: m,
        settings: s,
        bound: message_bound(),
        at: IDENTIFICATION,
    };
    let (fixed, has) = packet::read_fixed(&mut reader)?;
    let ids = packet::read_ids(&mut reader, false, has)?;
    let texts = packet::read_texts(&mut reader, has)?;
    ensure(timestamp_fits(s, has), Refused::Timestamp)?;
    let end = reader.at;
    Ok(Header {
        primary: read_primary(m),
        fixed,
        has,
        ids,
        texts,
        h: end.saturating_sub(IDENTIFICATION),
        body: Place {
            at: end,
            length: m.len().saturating_sub(end),
        },
        withdrawn: has.zone,
    })
}

// The same after the tests: the whole reading.
fn read_whole(s: Settings, encoding: u16, m: &[u8]) -> Result<Header, Refused>
    ensures { Answers (message_from s m.now (start_at s encoding m.now)) result }
{
    check_start(s, encoding, m)?;
    read_header(s, m)
}

// A message's header, or its refusal.
fn read_message(s: Settings, encoding: u16, m: &[u8]) -> Result<Header, Refused>
    ensures { decoded result ≡ read_message s encoding m.now }
{
    match read_whole(s, encoding, m) {
        Ok(header) => Ok(header),
        Err(refused) => Err(refused.counted_from(IDENTIFICATION)),
    }
}

// ---- the contents of what was read

// The octets at a place.
fn content(p: &[u8], a: Place) -> &[u8]
    ensures { result.now ≡ content_of p.now a }
{
    let from = octets::within(p.len(), 0, a.at);
    let to = octets::within(p.len(), from, a.length);
    &p[from..to]
}

// The parts of a domain one after the other, as far as there is room, and their lengths; how many octets they have, told up to 257.
fn join_parts(p: &[u8], x: Texts, text: &mut [u8; 256], lengths: &mut [u64; 16]) -> usize
    requires { Few x × ((length text.old ≡ 256) × (length lengths.old ≡ 16)) }
    ensures text { text.new ≡ sets text.old 0 (together (parts_of p.now x)) }
    ensures lengths { lengths.new ≡ sets lengths.old 0 (map length (parts_of p.now x)) }
    ensures total { result ≡ told_to (length (together (parts_of p.now x))) }
    ensures room { (length text.new ≡ 256) × (length lengths.new ≡ 16) }
{
    let parts = x.parts;
    let n = x.count;
    let mut total: usize = 0;
    let mut k: usize = 0;
    while k < n {
        let part = content(p, parts[k]);
        octets::copy(text, total, part);
        lengths[k] = part.len() as u64;
        total = fields::plus_to(JOINED_MOST, total, part.len());
        k += 1;
    }
    total
}

// ---- to the office

fn pdu_values(h: Header, encoding: u16) -> PduValues
    ensures { result ≡ office_values (whole_header h) encoding }
{
    let f = h.fixed;
    let has = h.has;
    let ids = h.ids;
    PduValues {
        sdu: f.sdu,
        area: f.area as u32,
        service: f.service as u32,
        operation: f.operation as u32,
        version: f.version as u16,
        error: f.error,
        qos: f.qos,
        session: f.session,
        transaction: f.transaction,
        has: has,
        encoding: encoding,
        priority: ids.priority as u64,
    }
}

// Writes what a message says as a PDU.
fn write_pdu(encoding: u16, m: &[u8], h: Header, out: &mut [u8]) -> Written
    requires { Few h.texts × (length (together (parts_of m.now h.texts)) ≤ header_most) }
    ensures { (result ≡ office_answer encoding m.now (whole_header h) (length out.old))
        × (out.new ≡ office_output encoding m.now (whole_header h) out.old) }
{
    let has = h.has;
    let ids = h.ids;
    let texts = h.texts;
    let body = h.body;
    let source = digits_if(has.source, ids.source);
    let destination = digits_if(has.destination, ids.destination);
    let source_digits = source.octets;
    let destination_digits = destination.octets;
    let source_end = source.length;
    let destination_end = destination.length;
    let count = texts.count;
    let mut text = [0u8; 256];
    let mut lengths = [0u64; 16];
    let total = join_parts(m, texts, &mut text, &mut lengths);
    pdu::write(
        pdu_values(h, encoding),
        &source_digits[0..source_end],
        &destination_digits[0..destination_end],
        LentTexts {
            timestamp: content(m, texts.timestamp),
            zone: content(m, texts.zone),
            session_name: content(m, texts.session_name),
            domain: &text[0..total],
            lengths: &lengths[0..count],
            authentication: content(m, texts.authentication),
        },
        content(m, body),
        out,
    )
}

// Carries a message to the office: writes one PDU, or refuses and changes nothing.
pub fn to_pdu(s: Settings, m: &[u8], encoding: u16, out: &mut [u8]) -> Written
    ensures answer { (result ≡ to_pdu_answer s encoding m.now (length out.old))
        × (out.new ≡ to_pdu_output s encoding m.now out.old) }
    ensures octets { Octets m.now }
{
    match read_message(s, encoding, m) {
        Ok(header) => write_pdu(encoding, m, header, out),
        Err(refused) => Written {
            refusal: walk::telling(refused.number(), refused.octets(), refused.place()),
            length: 0,
            header: 0,
        },
    }
}

// ---- back from the office

// 15, then 22 for the values lent.
fn test_route(s: Settings, l: Route) -> Tested
    ensures { result ≡ route_test s l }
{
    let none = Tested { number: 0 };
    let apid = l.apid;
    let secondary_apid = l.secondary_apid;
    let r = write::test_settings(s, none);
    let a = walk::unless(r, l.packet_type <= BIT_MOST, REFUSED_VALUE);
    let b = walk::unless(a, apid.0 < APID_IDLE, REFUSED_VALUE);
    let c = walk::unless(b, secondary_apid.0 <= SECONDARY_APID_MOST, REFUSED_VALUE);
    walk::unless(c, l.qualifier <= QUALIFIER_MOST, REFUSED_VALUE)
}

// 35, 33, 34, 30: what a packet can not say.
fn test_values(s: Settings, p: &[u8], h: pdu::Header) -> Tested
    ensures { result ≡ value_test s p.now h }
{
    let none = Tested { number: 0 };
    let f = h.fixed;
    let has = h.has;
    let ids = h.ids;
    let a = walk::unless(none, f.qos <= QOS_MOST, REFUSED_RANGE);
    let b = walk::unless(a, f.session <= SESSION_MOST, REFUSED_RANGE);
    let source = id_fits(has.source, content(p, ids.source));
    let c = walk::unless(b, source, REFUSED_ID);
    let destination = id_fits(has.destination, content(p, ids.destination));
    let d = walk::unless(c, destination, REFUSED_ID);
    let e = walk::unless(d, timestamp_fits(s, has), REFUSED_TIMESTAMP);
    walk::unless(e, !has.zone, REFUSED_WITHDRAWN)
}

fn message_values(l: Route, p: &[u8], h: pdu::Header) -> HeaderValues
    ensures { result ≡ message_values l p.now h }
{
    let f = h.fixed;
    let has = h.has;
    let ids = h.ids;
    let apid = l.apid;
    let secondary_apid = l.secondary_apid;
    let source = id_value(has.source, content(p, ids.source));
    let destination = id_value(has.destination, content(p, ids.destination));
    HeaderValues {
        packet_type: l.packet_type,
        apid: apid,
        sdu: f.sdu,
        area: f.area as u32,
        service: f.service as u32,
        operation: f.operation as u32,
        version: f.version as u16,
        error: f.error,
        qos: f.qos,
        session: f.session,
        secondary_apid: secondary_apid,
        qualifier: l.qualifier,
        transaction: f.transaction,
        has: has,
        source: source,
        destination: destination,
        priority: ids.priority as u64,
    }
}

// The one place where the way back is refused.
fn not_carried(refusal: Refusal) -> Carried
    ensures { result ≡ not_carried refusal }
{
    Carried {
        refusal: refusal,
        header: 0,
        body: 0,
        encoding: 0,
    }
}

// The packet values of a message: flags 11, no counter.
fn whole_packet() -> PacketValues
    ensures { result ≡ whole_packet }
{
    let sequence_count = SequenceCount(0);
    let counter = SegmentCounter(0);
    PacketValues {
        flags: packet::UNSEGMENTED,
        sequence_count: sequence_count,
        counter: counter,
    }
}

// The whole message from the first octet on, and the place after it.
fn put_message(s: Settings, out: &mut [u8], v: HeaderValues, texts: LentTexts, body: &[u8]) -> usize
    ensures { Lays (laid out.old 0) (message_pieces s v
        (lent_of texts.entry)
        body.now) out.new result }
{
    let identification = v.packet_type as u64 * TYPE_UNIT + SECONDARY_FLAG + v.apid.0 as u64;
    let a = octets::lay_number(out, 0, 2, identification);
    let b = write::put_names(out, a, v);
    let c = write::put_routing(out, b, v);
    let d = write::put_front(out, c, v, whole_packet());
    let e = write::put_middle(s, out, d, v.has, v.priority, texts);
    let f = write::put_end(s, out, e, v.has, texts);
    octets::lay(out, f, body)
}

// Whether so many octets and so many more fit.
fn fits_in(head: usize, rest: usize, room: usize) -> bool
    ensures { result ≡ leb (head + rest) room }
{
    if room < head {
        return false;
    }
    rest <= room - head
}

// 12 and 21, by H, the body and the output.
fn test_sizes(h: usize, body: usize, room: usize) -> Tested
    requires { h ≤ 65543 }
    ensures { result ≡ unless (leb (2 + h + body) room) 21 (unless (leb h header_most) 12 none_failed) }
{
    let none = Tested { number: 0 };
    let a = walk::unless(none, h <= write::HEADER_MOST, REFUSED_HEADER_LONG);
    walk::unless(a, fits_in(IDENTIFICATION + h, body, room), REFUSED_OUTPUT)
}

// Writes a message of these values, or refuses and changes nothing.
fn make_message(
    s: Settings,
    v: HeaderValues,
    texts: LentTexts,
    body: &[u8],
    encoding: u8,
    out: &mut [u8],
) -> Carried
    ensures { let h = head_of v (lent_of texts.entry) in
        (result ≡ made_answer s h body.now encoding (length out.old))
        × (out.new ≡ made_output s h body.now out.old) }
{
    let h = write::header_size(s, v, texts);
    let r = test_sizes(h, body.len(), out.len());
    if r.number != 0 {
        return not_carried(walk::numbered(r.number));
    }
    put_message(s, out, v, texts, body);
    Carried {
        refusal: walk::numbered(0),
        header: h,
        body: body.len(),
        encoding: encoding,
    }
}

// Writes what a PDU says as a message, or refuses by 35, 33, 34, 30, 12 or 21. A domain that no header holds is not joined.
fn write_message(s: Settings, l: Route, p: &[u8], h: pdu::Header, out: &mut [u8]) -> Carried
    requires { Few h.texts × (h.has.domain ≡ false → h.texts.count ≡ 0) }
    ensures { (result ≡ back_answer s l p.now h (length out.old))
        × (out.new ≡ back_output s l p.now h out.old) }
{
    let r = test_values(s, p, h);
    if r.number != 0 {
        return not_carried(walk::numbered(r.number));
    }
    let f = h.fixed;
    let texts = h.texts;
    let body = h.body;
    let count = texts.count;
    let mut text = [0u8; 256];
    let mut lengths = [0u64; 16];
    let total = join_parts(p, texts, &mut text, &mut lengths);
    if write::HEADER_MOST < total {
        return not_carried(walk::numbered(REFUSED_HEADER_LONG));
    }
    make_message(
        s,
        message_values(l, p, h),
        LentTexts {
            timestamp: content(p, texts.timestamp),
            zone: content(p, texts.zone),
            session_name: content(p, texts.session_name),
            domain: &text[0..total],
            lengths: &lengths[0..count],
            authentication: content(p, texts.authentication),
        },
        content(p, body),
        f.encoding,
        out,
    )
}

// Carries a PDU back: writes one message, or refuses and changes nothing.
pub fn to_message(s: Settings, p: &[u8], l: Route, out: &mut [u8]) -> Carried
    ensures answer { (result ≡ to_message_answer s l p.now (length out.old))
        × (out.new ≡ to_message_output s l p.now out.old) }
    ensures octets { Octets p.now }
{
    let a = test_route(s, l);
    if a.number != 0 {
        return not_carried(walk::numbered(a.number));
    }
    let h = pdu::read(p);
    let refusal = h.refusal;
    if refusal.number != 0 {
        return not_carried(refusal);
    }
    write_message(s, l, p, h, out)
}
