// The MAL TCP/IP PDU: `read` and `write`. Octets in, octets out; no socket.
//
//   octets  0     version number 3 (001) | SDU type 5
//           1 2   area        3 4   service        5 6   operation        7   area version
//           8     error 1 | QoS level 3 | session 4
//           9 16  transaction id
//          17     presence: source id, destination id, priority, timestamp, zone, session name, domain, authentication id
//          18     encoding id
//          19 22  variable length: the octets that follow
//          23 ..  source id | destination id | priority | timestamp | zone | session name | domain | authentication id | body
//
// Its fields are those of a packet, read and written by the same steps: a timestamp has six octets, and every length, count and
// priority is a Varint. Source id and destination id are texts here. `read` takes any slice, which is one PDU exactly; a PDU is bound by
// its 32-bit length alone. `write` takes any values, texts, body and output; on a refusal the output is as it was.
#![tactic(auto)]

ghost use Rattle.std.specs.Prelude.{◌≡◌, ◌+◌, length, leb};
ghost use Rattle.octets.specs.Octets.{Octets, most32};
ghost use Rattle.octets.specs.Laying.{laid, Lays};
ghost use Rattle.walk.specs.Walk.{unless};
ghost use Rattle.walk.specs.Read.{Reads};
ghost use Rattle.fields.specs.Form.{split};
ghost use Rattle.write.specs.Given.{lent_of, unless_all};
ghost use Rattle.pdu.specs.Format.{pdu_settings as pdu_settings_of};
ghost use Rattle.pdu.specs.Reading.{bound_of, fixed_of, refused_header, no_fixed, read_pdu};
ghost use Rattle.pdu.specs.Given.{empty_unless, name_checks, flag_checks, text_checks, word_checks};
ghost use Rattle.pdu.specs.Lending.{Lends};
ghost use Rattle.pdu.specs.Decoded.{decoded};
ghost use Rattle.pdu.specs.Writing.{value_refusal, write_answer, write_output};
ghost use Rattle.pdu.specs.Inner.{ids_step, Judges, name_pieces, flag_pieces, id_pieces, pdu_pieces, text_size, front_size, middle_size, end_size, variable_size};

use fields::{NOWHERE, Place};
use packet::{Present, Texts};
use walk::{
    Bound, REFUSED_LARGE, REFUSED_OUTPUT, REFUSED_TEXT, REFUSED_VALUE, Reader, Refusal, Refused,
    Settings, Tested, ensure,
};
use write::LentTexts;

// Octets of the fixed part and of a timestamp, where the variable length stands, and its largest value.
pub const FIXED: usize = 23;

pub const TIMESTAMP: usize = 6;

const LENGTH_AT: usize = 19;

const REST_MOST: usize = 4294967296;

const VARIABLE_MOST: usize = 4294967295;

// The version number, and what a one of it counts for in the first octet.
const VERSION: u8 = 1;

const VERSION_UNIT: u8 = 32;

const VERSION_BITS: u64 = 32;

// What a one of error and of the QoS level counts for in their octet.
const ERROR_UNIT: u64 = 128;

const QOS_UNIT: u64 = 16;

// The largest values of fields that a PDU limits below their types.
const BIT_MOST: u8 = 1;

const SDU_MOST: u8 = 21;

const QOS_MOST: u8 = 7;

const SESSION_MOST: u8 = 15;

const MOST_8: u16 = 255;

const MOST_16: u32 = 65535;

// The fixed part, but for its presence flags and the variable length.
#[derive(Clone, Copy)]
pub struct Fixed {
    pub sdu: u8,
    pub area: u16,
    pub service: u16,
    pub operation: u16,
    pub version: u8,
    pub error: u8,
    pub qos: u8,
    pub session: u8,
    pub transaction: u64,
    pub encoding: u8,
}

// Where source id and destination id stand; the priority, 0 if absent.
#[derive(Clone, Copy)]
pub struct Ids {
    pub source: Place,
    pub destination: Place,
    pub priority: u32,
}

// What reading answers.
#[derive(Clone, Copy)]
pub struct Header {
    pub refusal: Refusal,
    pub fixed: Fixed,
    pub has: Present,
    pub ids: Ids,
    pub texts: Texts,
    pub variable: u32,
    pub body: Place,
}

// What reading answers if it does not refuse.
#[derive(Clone, Copy)]
pub struct Decoded {
    pub fixed: Fixed,
    pub has: Present,
    pub ids: Ids,
    pub texts: Texts,
    pub variable: u32,
    pub body: Place,
}

// The values of a PDU to write, but for its texts. A number that a PDU limits is held in a type wide enough for a bad value.
#[derive(Clone, Copy)]
pub struct PduValues {
    pub sdu: u8,
    pub area: u32,
    pub service: u32,
    pub operation: u32,
    pub version: u16,
    pub error: u8,
    pub qos: u8,
    pub session: u8,
    pub transaction: u64,
    pub has: Present,
    pub encoding: u16,
    pub priority: u64,
}

// What writing answers: a refusal and zeros, or the octets written and those before the body.
#[derive(Clone, Copy)]
pub struct Written {
    pub refusal: Refusal,
    pub length: usize,
    pub header: usize,
}

// What both sides agreed on: six octets of timestamp, Varints.
pub fn pdu_settings() -> Settings
    ensures { result ≡ pdu_settings_of }
{
    Settings {
        t: TIMESTAMP,
        profile: walk::PROFILE_VARINT,
    }
}

// ---- reading

fn bound_of(p: &[u8]) -> Bound
    ensures { result ≡ bound_of p.now }
{
    Bound {
        end: p.len(),
        limit: false,
    }
}

// 1, 7, 8, then 5 or 27.
fn check_fixed(p: &[u8]) -> Result<(), Refused>
    ensures { Judges p.now result }
{
    ensure(FIXED <= p.len(), Refused::FewOctets)?;
    let first = octets::octet(p, 0);
    ensure(first / VERSION_UNIT == VERSION, Refused::Binding)?;
    ensure(first % VERSION_UNIT < 22, Refused::SduType)?;
    let want = FIXED + octets::read::<u32>(p, LENGTH_AT) as usize;
    if p.len() < want {
        return Err(Refused::Short {
            missing: want - p.len(),
        });
    }
    if want < p.len() {
        return Err(Refused::Long {
            over: p.len() - want,
        });
    }
    Ok(())
}

// The fixed part, at its own places.
#[tactic(auto, unfolding(crate::specs::Reading::fixed_of))]
fn read_fixed(p: &[u8]) -> Fixed
    ensures { result ≡ fixed_of p.now }
{
    let first = octets::octet(p, 0);
    let flags = octets::octet(p, 8);
    Fixed {
        sdu: first % 32,
        area: octets::read(p, 1),
        service: octets::read(p, 3),
        operation: octets::read(p, 5),
        version: octets::octet(p, 7),
        error: flags / 128,
        qos: flags / 16 % 8,
        session: flags % 16,
        transaction: octets::read(p, 9),
        encoding: octets::octet(p, 18),
    }
}

// Source id, destination id, priority.
#[tactic(auto, using(walk::proofs::Keeps::optional_kept, walk::proofs::Keeps::uinteger_keeps, fields::proofs::Steps::text_keeps))]
fn read_ids(reader: &mut Reader, has: Present) -> Result<Ids, Refused>
    ensures { Reads (ids_step reader.old.settings reader.old.bound has reader.old.octets.now) reader.old reader.new result }
{
    Ok(Ids {
        source: reader.optional(has.source, NOWHERE, fields::read_text)?,
        destination: reader.optional(has.destination, NOWHERE, fields::read_text)?,
        priority: reader.optional(has.priority, 0, Reader::uinteger)?,
    })
}

// The fixed part of a refusal.
fn no_fixed() -> Fixed
    ensures { result ≡ no_fixed }
{
    Fixed {
        sdu: 0,
        area: 0,
        service: 0,
        operation: 0,
        version: 0,
        error: 0,
        qos: 0,
        session: 0,
        transaction: 0,
        encoding: 0,
    }
}

// What a refusal answers beside it: zeros.
fn refused_header(refusal: Refusal) -> Header
    ensures { result ≡ refused_header refusal }
{
    let none = Place { at: 0, length: 0 };
    let ids = Ids {
        source: none,
        destination: none,
        priority: 0,
    };
    let texts = Texts {
        timestamp: none,
        zone: none,
        session_name: none,
        count: 0,
        parts: [none; 16],
        authentication: none,
    };
    Header {
        refusal,
        fixed: no_fixed(),
        has: packet::flags_of(0),
        ids,
        texts,
        variable: 0,
        body: none,
    }
}

// A PDU's header, or its refusal.
pub fn decode(p: &[u8]) -> Result<Decoded, Refused>
    ensures answer { decoded result ≡ read_pdu p.now }
    ensures octets { Octets p.now }
{
    check_fixed(p)?;
    let mut reader = Reader {
        octets: p,
        settings: pdu_settings(),
        bound: bound_of(p),
        at: FIXED,
    };
    let has = packet::flags_of(octets::octet(p, 17));
    let ids = read_ids(&mut reader, has)?;
    let texts = packet::read_texts(&mut reader, has)?;
    let end = reader.at;
    Ok(Decoded {
        fixed: read_fixed(p),
        has,
        ids,
        texts,
        variable: octets::read(p, LENGTH_AT),
        body: Place {
            at: end,
            length: p.len().saturating_sub(end),
        },
    })
}

// A PDU's header, or its refusal and zeros.
pub fn read(p: &[u8]) -> Header
    ensures answer { result ≡ read_pdu p.now }
    ensures octets { Octets p.now }
{
    match decode(p) {
        Ok(h) => Header {
            refusal: walk::numbered(0),
            fixed: h.fixed,
            has: h.has,
            ids: h.ids,
            texts: h.texts,
            variable: h.variable,
            body: h.body,
        },
        Err(refused) => refused_header(walk::telling(
            refused.number(),
            refused.octets(),
            refused.place(),
        )),
    }
}

// ---- writing: the tests

fn empty_unless(there: bool, n: usize) -> bool
    ensures { result ≡ empty_unless there n }
{
    if there { true } else { n == 0 }
}

#[tactic(auto, unfolding(crate::specs::Given::name_checks, write::specs::Given::unless_all))]
fn test_names(v: PduValues, r: Tested) -> Tested
    ensures { result ≡ unless_all (name_checks v) 22 r }
{
    let a = walk::unless(r, v.sdu <= SDU_MOST, REFUSED_VALUE);
    let b = walk::unless(a, v.area <= MOST_16, REFUSED_VALUE);
    let c = walk::unless(b, v.service <= MOST_16, REFUSED_VALUE);
    let d = walk::unless(c, v.operation <= MOST_16, REFUSED_VALUE);
    walk::unless(d, v.version <= MOST_8, REFUSED_VALUE)
}

#[tactic(auto, unfolding(crate::specs::Given::flag_checks, write::specs::Given::unless_all))]
fn test_flags(v: PduValues, r: Tested) -> Tested
    ensures { result ≡ unless_all (flag_checks v) 22 r }
{
    let a = walk::unless(r, v.error <= BIT_MOST, REFUSED_VALUE);
    let b = walk::unless(a, v.qos <= QOS_MOST, REFUSED_VALUE);
    let c = walk::unless(b, v.session <= SESSION_MOST, REFUSED_VALUE);
    let d = walk::unless(c, v.encoding <= MOST_8, REFUSED_VALUE);
    walk::unless(
        d,
        write::number_fits(v.has.priority, v.priority, varint::MOST_32),
        REFUSED_VALUE,
    )
}

#[tactic(auto, unfolding(crate::specs::Given::text_checks, write::specs::Given::unless_all))]
fn test_texts(
    has: Present,
    source: &[u8],
    destination: &[u8],
    texts: LentTexts,
    r: Tested,
) -> Tested
    ensures { result ≡ unless_all (text_checks has source.now destination.now (lent_of texts.entry)) 22 r }
{
    let a = walk::unless(r, empty_unless(has.source, source.len()), REFUSED_VALUE);
    let b = walk::unless(
        a,
        empty_unless(has.destination, destination.len()),
        REFUSED_VALUE,
    );
    let c = walk::unless(
        b,
        write::exact_fits(has.timestamp, texts.timestamp.len(), TIMESTAMP),
        REFUSED_VALUE,
    );
    let d = walk::unless(c, empty_unless(has.zone, texts.zone.len()), REFUSED_VALUE);
    let e = walk::unless(
        d,
        empty_unless(has.session_name, texts.session_name.len()),
        REFUSED_VALUE,
    );
    let f = walk::unless(
        e,
        empty_unless(has.domain, texts.domain.len()),
        REFUSED_VALUE,
    );
    let g = walk::unless(
        f,
        write::lengths_fit(has.domain, texts.lengths, texts.domain.len()),
        REFUSED_VALUE,
    );
    walk::unless(
        g,
        empty_unless(has.authentication, texts.authentication.len()),
        REFUSED_VALUE,
    )
}

// 28: source id, destination id, zone, session name and each domain part.
fn test_words(source: &[u8], destination: &[u8], texts: LentTexts, r: Tested) -> Tested
    ensures { let t = lent_of texts.entry in
        result ≡ unless_all (word_checks source.now destination.now t.zone t.session_name (split t.lengths t.domain)) 28 r }
{
    if r.number != 0 {
        return r;
    }
    let a = walk::unless(r, utf8::is_text(source), REFUSED_TEXT);
    let b = walk::unless(a, utf8::is_text(destination), REFUSED_TEXT);
    write::test_utf8(texts, b)
}

// 22, 13 and 28: the tests on the values alone.
#[tactic(auto, using(write::proofs::Tests::unless_all_append), unfolding(crate::specs::Writing::value_refusal, crate::specs::Given::value_checks))]
fn test_values(v: PduValues, source: &[u8], destination: &[u8], texts: LentTexts) -> Tested
    ensures { result ≡ value_refusal v source.now destination.now (lent_of texts.entry) }
{
    let none = Tested { number: 0 };
    let a = test_names(v, none);
    let b = test_flags(v, a);
    let c = test_texts(v.has, source, destination, texts, b);
    let d = write::test_parts(texts.lengths.len(), c);
    test_words(source, destination, texts, d)
}

// ---- sizes, told up to one above the largest variable length

// The size of a text of n octets with its length, if it is there.
fn text_size_if(there: bool, n: usize) -> usize
    ensures { result ≡ text_size there n }
{
    write::size_if(there, fields::text_size_to(REST_MOST, pdu_settings(), n))
}

// Source id, destination id, priority.
#[tactic(auto, unfolding(crate::specs::Inner::front_size))]
fn front_size(has: Present, source: usize, destination: usize, priority: u64) -> usize
    ensures { result ≡ front_size has source destination priority }
{
    let a = text_size_if(has.source, source);
    let b = text_size_if(has.destination, destination);
    let c = write::size_if(
        has.priority,
        fields::uinteger_size(pdu_settings(), priority),
    );
    fields::plus_to(REST_MOST, a, fields::plus_to(REST_MOST, b, c))
}

// Timestamp, zone, session name.
#[tactic(auto, unfolding(crate::specs::Inner::middle_size))]
fn middle_size(has: Present, texts: LentTexts) -> usize
    ensures { result ≡ middle_size has (lent_of texts.entry) }
{
    let a = write::size_if(has.timestamp, texts.timestamp.len());
    let b = text_size_if(has.zone, texts.zone.len());
    let c = text_size_if(has.session_name, texts.session_name.len());
    fields::plus_to(REST_MOST, a, fields::plus_to(REST_MOST, b, c))
}

// Domain, authentication id.
#[tactic(auto, unfolding(crate::specs::Inner::end_size))]
fn end_size(has: Present, texts: LentTexts) -> usize
    ensures { result ≡ end_size has (lent_of texts.entry) }
{
    let a = write::size_if(
        has.domain,
        fields::domain_size_to(REST_MOST, pdu_settings(), texts.domain, texts.lengths),
    );
    let b = text_size_if(has.authentication, texts.authentication.len());
    fields::plus_to(REST_MOST, a, b)
}

// The optional fields.
#[tactic(auto, unfolding(crate::specs::Inner::variable_size))]
fn variable_size(v: PduValues, source: &[u8], destination: &[u8], texts: LentTexts) -> usize
    ensures { result ≡ variable_size v source.now destination.now (lent_of texts.entry) }
{
    let a = front_size(v.has, source.len(), destination.len(), v.priority);
    let b = middle_size(v.has, texts);
    let c = end_size(v.has, texts);
    fields::plus_to(REST_MOST, a, fields::plus_to(REST_MOST, b, c))
}

// ---- the octets, piece by piece, and the place after them

fn put_names(out: &mut [u8], v: PduValues) -> usize
    ensures { Lays (laid out.old 0) (name_pieces v) out.new result }
{
    let a = octets::lay_number(out, 0, 1, VERSION_BITS + v.sdu as u64);
    let b = octets::lay_number(out, a, 2, v.area as u64);
    let c = octets::lay_number(out, b, 2, v.service as u64);
    let d = octets::lay_number(out, c, 2, v.operation as u64);
    octets::lay_number(out, d, 1, v.version as u64)
}

fn put_flags(out: &mut [u8], at: usize, v: PduValues, n: usize) -> usize
    ensures { Lays (laid out.old at) (flag_pieces v n) out.new result }
{
    let first = v.error as u64 * ERROR_UNIT + v.qos as u64 * QOS_UNIT + v.session as u64;
    let a = octets::lay_number(out, at, 1, first);
    let b = octets::lay_number(out, a, 8, v.transaction);
    let c = octets::lay_number(out, b, 1, write::present_octet(v.has));
    let d = octets::lay_number(out, c, 1, v.encoding as u64);
    octets::lay_number(out, d, 4, n as u64)
}

// Source id and destination id.
fn put_ids(out: &mut [u8], at: usize, has: Present, source: &[u8], destination: &[u8]) -> usize
    ensures { Lays (laid out.old at) (id_pieces has source.now destination.now) out.new result }
{
    let s = pdu_settings();
    let a = write::text_if(has.source, s, out, at, source);
    write::text_if(has.destination, s, out, a, destination)
}

// The whole PDU from the first octet on; n is its variable length. The place after it.
fn put_pdu(
    out: &mut [u8],
    v: PduValues,
    n: usize,
    source: &[u8],
    destination: &[u8],
    texts: LentTexts,
    body: &[u8],
) -> usize
    ensures { Lays (laid out.old 0) (pdu_pieces v source.now destination.now
        (lent_of texts.entry) n
        body.now) out.new result }
{
    let s = pdu_settings();
    let a = put_names(out, v);
    let b = put_flags(out, a, v, n);
    let c = put_ids(out, b, v.has, source, destination);
    let d = write::put_middle(s, out, c, v.has, v.priority, texts);
    let e = write::put_end(s, out, d, v.has, texts);
    octets::lay(out, e, body)
}

// 23 and 21, by the octets after the fixed part and by the output.
fn test_sizes(rest: usize, room: usize, r: Tested) -> Tested
    ensures { result ≡ unless (leb (23 + rest) room) 21 (unless (leb rest most32) 23 r) }
{
    let a = walk::unless(r, rest <= VARIABLE_MOST, REFUSED_LARGE);
    walk::unless(a, fits_in(rest, room), REFUSED_OUTPUT)
}

// Whether the fixed part and so many octets fit.
fn fits_in(rest: usize, room: usize) -> bool
    ensures { result ≡ leb (23 + rest) room }
{
    if room < FIXED {
        return false;
    }
    rest <= room - FIXED
}

// Writes one PDU, or refuses and changes nothing.
pub fn write(
    v: PduValues,
    source: &[u8],
    destination: &[u8],
    texts: LentTexts,
    body: &[u8],
    out: &mut [u8],
) -> Written
    ensures { let t = lent_of texts.entry in
        (result ≡ write_answer v source.now destination.now t body.now (length out.old))
        × (out.new ≡ write_output v source.now destination.now t body.now out.old)
        × Lends v source.now destination.now t body.now }
{
    write::lent_in_octets(texts, body);
    let values = test_values(v, source, destination, texts);
    let variable = variable_size(v, source, destination, texts);
    let rest = fields::plus_to(REST_MOST, variable, body.len());
    let r = test_sizes(rest, out.len(), values);
    if r.number != 0 {
        return Written {
            refusal: walk::numbered(r.number),
            length: 0,
            header: 0,
        };
    }
    put_pdu(out, v, rest, source, destination, texts, body);
    Written {
        refusal: walk::numbered(0),
        length: FIXED + rest,
        header: FIXED + variable,
    }
}
