// Writing one packet: the values to write, the tests of each refusal, and the octets.
//
// `write` takes any settings, values, texts, body and output. It answers the octets written, from the output's first octet on, or
// one refusal, and then the output is as it was. A number that SPEC limits is held in a type wide enough for a bad value,
// which is 22 and never cut off. A network zone is withdrawn, which is 30; `write_by` is the old writer too,
// which writes it, for laws and tests.
//
// Every test is made on the values as they are given; sizes are told up to one above the largest packet, so nothing overflows.
// The pieces of the packet are then laid one after another. `cut` uses the parts marked inner.
#![tactic(auto)]

ghost use Rattle.std.specs.Prelude.{◌≡◌, false, [], ◌∷◌, ◌+◌, length, eqb, leb};
ghost use Rattle.octets.specs.Octets.{Octets, pick, wide};
ghost use Rattle.octets.specs.Laying.{laid, Lays};
ghost use Rattle.walk.specs.Walk.{refusal, none_failed, unless};
ghost use Rattle.walk.specs.Told.{said};
ghost use Rattle.fields.specs.Fields.{parts_most};
ghost use Rattle.fields.specs.Form.{uinteger_octets, split};
ghost use Rattle.fields.specs.Inner.{blob_pieces, text_pieces, domain_pieces, capped};
ghost use Rattle.packet.specs.Format.{segment, header_octets, header_most, packet_most, when};
ghost use Rattle.write.specs.Given.{lent_of, head_of, number_fits, text_fits, exact_fits, lengths_fit, sum, name_checks, routing_checks};
ghost use Rattle.write.specs.Given.{id_checks, text_checks, header_checks, packet_checks, utf8_checks, unless_all, all_hold};
ghost use Rattle.write.specs.Answer.{written};
ghost use Rattle.write.specs.Lending.{LentOctets, Lends};
ghost use Rattle.write.specs.Writing.{is_old, settings_test, zone_fits, body_fits, value_refusal, write_answer, write_output};
ghost use Rattle.write.specs.Inner.{primary_pieces, name_pieces, routing_pieces, present_octet, front_pieces, middle_pieces, end_pieces};
ghost use Rattle.write.specs.Inner.{packet_pieces, middle_size, end_size};

use packet::{Apid, Present, SecondaryApid, SegmentCounter, SequenceCount};
use varint::MOST_32;
use walk::{
    REFUSED_MANY_PARTS, REFUSED_SETTINGS, REFUSED_TEXT, REFUSED_VALUE, Refused, Settings, Tested,
    ensure,
};

pub const TEXT_MOST: usize = 65535;

pub const HEADER_MOST: usize = 256;

pub const PACKET_MOST: usize = 65542;

const MOST_8: u64 = 255;

const MOST_16: u32 = 65535;

// The largest values of fields that SPEC limits below their types; APID 2047 is idle.
const BIT_MOST: u8 = 1;

const APID_IDLE: u16 = 2047;

const SDU_MOST: u8 = 21;

const VERSION_MOST: u16 = 255;

const QOS_MOST: u8 = 3;

const SESSION_MOST: u8 = 2;

const SECONDARY_APID_MOST: u16 = 2047;

// What a one of a field counts for, in two octets that fields share.
const TYPE_UNIT: u64 = 4096;

const SECONDARY_FLAG: u64 = 2048;

const FLAGS_UNIT: u64 = 16384;

const ERROR_UNIT: u64 = 32768;

const QOS_UNIT: u64 = 8192;

const SESSION_UNIT: u64 = 2048;

// The values that all packets of a message share, but for its texts.
#[derive(Clone, Copy)]
pub struct HeaderValues {
    pub packet_type: u8,
    pub apid: Apid,
    pub sdu: u8,
    pub area: u32,
    pub service: u32,
    pub operation: u32,
    pub version: u16,
    pub error: u8,
    pub qos: u8,
    pub session: u8,
    pub secondary_apid: SecondaryApid,
    pub qualifier: u32,
    pub transaction: u64,
    pub has: Present,
    pub source: u16,
    pub destination: u16,
    pub priority: u64,
}

// The texts that a caller lends: the domain is one text and the lengths of its parts.
#[derive(Clone, Copy)]
pub struct LentTexts<'a> {
    pub timestamp: &'a [u8],
    pub zone: &'a [u8],
    pub session_name: &'a [u8],
    pub domain: &'a [u8],
    pub lengths: &'a [u64],
    pub authentication: &'a [u8],
}

// The values of one packet: sequence flags, sequence count, segment counter.
#[derive(Clone, Copy)]
pub struct PacketValues {
    pub flags: u8,
    pub sequence_count: SequenceCount,
    pub counter: SegmentCounter,
}

// By whom a packet is written: the writer of today refuses a network zone; the old writer, which is for laws and tests, writes it.
#[derive(Clone, Copy)]
pub enum Writer {
    Today,
    Old,
}

// ---- the tests

pub fn number_fits(there: bool, x: u64, most: u64) -> bool
    ensures { result ≡ number_fits there x most }
{
    if there { x <= most } else { x == 0 }
}

fn text_fits(there: bool, n: usize) -> bool
    ensures { result ≡ text_fits there n }
{
    if there { n <= TEXT_MOST } else { n == 0 }
}

pub fn exact_fits(there: bool, n: usize, want: usize) -> bool
    ensures { result ≡ exact_fits there n want }
{
    if there { n == want } else { n == 0 }
}

// Whether lengths add up to n.
fn adds_up(lengths: &[u64], n: usize) -> bool
    ensures { result ≡ eqb (sum lengths.now) n }
{
    let mut left = n as u64;
    for &part in lengths {
        if left < part {
            return false;
        }
        left -= part;
    }
    left == 0
}

pub fn lengths_fit(there: bool, lengths: &[u64], n: usize) -> bool
    ensures { result ≡ lengths_fit there lengths.now n }
{
    if there {
        adds_up(lengths, n)
    } else {
        lengths.len() == 0
    }
}

// Packet type, APID, and SDU type to area version.
#[tactic(auto, unfolding(crate::specs::Given::name_checks))]
fn names_fit(v: HeaderValues) -> bool
    ensures { result ≡ all_hold (name_checks v) }
{
    v.packet_type <= BIT_MOST
        && v.apid.0 < APID_IDLE
        && v.sdu <= SDU_MOST
        && v.area <= MOST_16
        && v.service <= MOST_16
        && v.operation <= MOST_16
        && v.version <= VERSION_MOST
}

// Error to qualifier.
#[tactic(auto, unfolding(crate::specs::Given::routing_checks))]
fn routing_fits(v: HeaderValues) -> bool
    ensures { result ≡ all_hold (routing_checks v) }
{
    v.error <= BIT_MOST
        && v.qos <= QOS_MOST
        && v.session <= SESSION_MOST
        && v.secondary_apid.0 <= SECONDARY_APID_MOST
        && v.qualifier <= MOST_16
}

// Source id, destination id, priority.
#[tactic(auto, unfolding(crate::specs::Given::id_checks))]
fn ids_fit(v: HeaderValues) -> bool
    ensures { result ≡ all_hold (id_checks v) }
{
    number_fits(v.has.source, v.source as u64, MOST_8)
        && number_fits(v.has.destination, v.destination as u64, MOST_8)
        && number_fits(v.has.priority, v.priority, MOST_32)
}

// Timestamp to authentication id.
#[tactic(auto, unfolding(crate::specs::Given::text_checks))]
fn texts_fit(s: Settings, v: HeaderValues, texts: LentTexts) -> bool
    ensures { result ≡ all_hold (text_checks s v (lent_of texts.entry)) }
{
    exact_fits(v.has.timestamp, texts.timestamp.len(), s.t)
        && text_fits(v.has.zone, texts.zone.len())
        && text_fits(v.has.session_name, texts.session_name.len())
        && text_fits(v.has.domain, texts.domain.len())
        && lengths_fit(v.has.domain, texts.lengths, texts.domain.len())
        && text_fits(v.has.authentication, texts.authentication.len())
}

// 22, as far as a header's values go: the one list of its checks.
#[tactic(auto, using(crate::proofs::Tests::all_append), unfolding(crate::specs::Given::header_checks))]
pub fn header_fits(s: Settings, v: HeaderValues, texts: LentTexts) -> bool
    ensures { result ≡ all_hold (header_checks s v (lent_of texts.entry)) }
{
    names_fit(v) && routing_fits(v) && ids_fit(v) && texts_fit(s, v, texts)
}

// Whether the sequence flags aren't 11.
fn segmented(flags: u8) -> bool
    ensures { result ≡ segment flags }
{
    flags != packet::UNSEGMENTED
}

// 22, as far as a packet's own values go.
#[tactic(auto, unfolding(crate::specs::Given::packet_checks))]
fn own_fits(o: PacketValues) -> bool
    ensures { result ≡ all_hold (packet_checks o) }
{
    o.flags <= packet::UNSEGMENTED
        && o.sequence_count.0 <= packet::COUNT_MOST
        && number_fits(segmented(o.flags), o.counter.0 as u64, MOST_32)
}

// The test for 30: there is no zone, or it is the old writer.
pub fn zone_fits(writer: Writer, has: Present) -> bool
    ensures { result ≡ zone_fits (is_old writer) has }
{
    match writer {
        Writer::Today => !has.zone,
        Writer::Old => true,
    }
}

// 28: zone, session name and each domain part.
#[tactic(auto, unfolding(crate::specs::Given::utf8_checks))]
pub fn are_text(texts: LentTexts) -> bool
    ensures { let t = lent_of texts.entry in
        result ≡ all_hold (utf8_checks t.zone t.session_name (split t.lengths t.domain)) }
{
    utf8::is_text(texts.zone)
        && utf8::is_text(texts.session_name)
        && fields::parts_are_text(texts.domain, texts.lengths)
}

// ---- sizes

// A size if it is there, else 0.
pub fn size_if(there: bool, n: usize) -> usize
    ensures { result ≡ pick there n 0 }
{
    if there { n } else { 0 }
}

// The optional fields before the counter.
fn front_size(has: Present) -> usize
    ensures { result ≡ pick has.source 1 0 + pick has.destination 1 0 }
{
    size_if(has.source, 1) + size_if(has.destination, 1)
}

// Priority, timestamp, zone.
#[tactic(auto, unfolding(crate::specs::Inner::middle_size))]
fn middle_size(s: Settings, v: HeaderValues, texts: LentTexts) -> usize
    ensures { result ≡ middle_size s v (lent_of texts.entry) }
{
    let a = size_if(v.has.priority, fields::uinteger_size(s, v.priority));
    let b = size_if(v.has.timestamp, texts.timestamp.len());
    let c = size_if(v.has.zone, fields::text_size(s, texts.zone.len()));
    fields::plus(a, fields::plus(b, c))
}

// Session name, domain, authentication id.
#[tactic(auto, unfolding(crate::specs::Inner::end_size))]
fn end_size(s: Settings, has: Present, texts: LentTexts) -> usize
    ensures { result ≡ end_size s has (lent_of texts.entry) }
{
    let a = size_if(
        has.session_name,
        fields::text_size(s, texts.session_name.len()),
    );
    let b = size_if(
        has.domain,
        fields::domain_size(s, texts.domain, texts.lengths),
    );
    let c = size_if(
        has.authentication,
        fields::text_size(s, texts.authentication.len()),
    );
    fields::plus(a, fields::plus(b, c))
}

// H, the octets of the secondary header without its counter, told up to the limit.
pub fn header_size(s: Settings, v: HeaderValues, texts: LentTexts) -> usize
    ensures { result ≡ capped (length (header_octets s (head_of v
        (lent_of texts.entry)))) }
{
    let a = packet::FIXED + front_size(v.has);
    let b = middle_size(s, v, texts);
    let c = end_size(s, v.has, texts);
    fields::plus(a, fields::plus(b, c))
}

// ---- the octets, piece by piece, and the place after them

fn put_primary(out: &mut [u8], v: HeaderValues, o: PacketValues, n: usize) -> usize
    ensures { Lays (laid out.old 0) (primary_pieces v o n) out.new result }
{
    let id = v.packet_type as u64 * TYPE_UNIT + SECONDARY_FLAG + v.apid.0 as u64;
    let sequence = o.flags as u64 * FLAGS_UNIT + o.sequence_count.0 as u64;
    let a = octets::lay_number(out, 0, 2, id);
    let b = octets::lay_number(out, a, 2, sequence);
    octets::lay_number(out, b, 2, n as u64)
}

pub fn put_names(out: &mut [u8], at: usize, v: HeaderValues) -> usize
    ensures { Lays (laid out.old at) (name_pieces v) out.new result }
{
    let a = octets::lay_number(out, at, 1, v.sdu as u64);
    let b = octets::lay_number(out, a, 2, v.area as u64);
    let c = octets::lay_number(out, b, 2, v.service as u64);
    let d = octets::lay_number(out, c, 2, v.operation as u64);
    octets::lay_number(out, d, 1, v.version as u64)
}

#[tactic(auto, unfolding(crate::specs::Inner::present_octet))]
pub fn present_octet(has: Present) -> u64
    ensures { result ≡ present_octet has }
{
    128 * octets::bit_of(has.source)
        + 64 * octets::bit_of(has.destination)
        + 32 * octets::bit_of(has.priority)
        + 16 * octets::bit_of(has.timestamp)
        + 8 * octets::bit_of(has.zone)
        + 4 * octets::bit_of(has.session_name)
        + 2 * octets::bit_of(has.domain)
        + octets::bit_of(has.authentication)
}

pub fn put_routing(out: &mut [u8], at: usize, v: HeaderValues) -> usize
    ensures { Lays (laid out.old at) (routing_pieces v) out.new result }
{
    let high = v.error as u64 * ERROR_UNIT + v.qos as u64 * QOS_UNIT;
    let low = v.session as u64 * SESSION_UNIT + v.secondary_apid.0 as u64;
    let a = octets::lay_number(out, at, 2, high + low);
    let b = octets::lay_number(out, a, 2, v.qualifier as u64);
    let c = octets::lay_number(out, b, 8, v.transaction);
    octets::lay_number(out, c, 1, present_octet(v.has))
}

// A number of n octets if it is there.
#[tactic(auto, using(octets::proofs::Laying::lays_none))]
fn wide_if(there: bool, out: &mut [u8], at: usize, n: usize, x: u64) -> usize
    ensures { Lays (laid out.old at) (when there (wide n x ∷ [])) out.new result }
{
    if there {
        octets::lay_number(out, at, n, x)
    } else {
        at
    }
}

// Source id, destination id, segment counter.
pub fn put_front(out: &mut [u8], at: usize, v: HeaderValues, o: PacketValues) -> usize
    ensures { Lays (laid out.old at) (front_pieces v o) out.new result }
{
    let a = wide_if(v.has.source, out, at, 1, v.source as u64);
    let b = wide_if(v.has.destination, out, a, 1, v.destination as u64);
    wide_if(
        segmented(o.flags),
        out,
        b,
        packet::COUNTER,
        o.counter.0 as u64,
    )
}

#[tactic(auto, using(octets::proofs::Laying::lays_none))]
fn uinteger_if(there: bool, s: Settings, out: &mut [u8], at: usize, n: u64) -> usize
    ensures { Lays (laid out.old at) (when there (uinteger_octets s n ∷ [])) out.new result }
{
    if there {
        fields::put_uinteger(s, out, at, n)
    } else {
        at
    }
}

#[tactic(auto, using(octets::proofs::Laying::lays_none))]
fn block_if(there: bool, out: &mut [u8], at: usize, x: &[u8]) -> usize
    ensures { Lays (laid out.old at) (when there (x.now ∷ [])) out.new result }
{
    if there { octets::lay(out, at, x) } else { at }
}

#[tactic(auto, using(octets::proofs::Laying::lays_none))]
pub fn text_if(there: bool, s: Settings, out: &mut [u8], at: usize, x: &[u8]) -> usize
    ensures { Lays (laid out.old at) (when there (text_pieces s x.now)) out.new result }
{
    if there {
        fields::put_text(s, out, at, x)
    } else {
        at
    }
}

#[tactic(auto, using(octets::proofs::Laying::lays_none))]
fn blob_if(there: bool, s: Settings, out: &mut [u8], at: usize, x: &[u8]) -> usize
    ensures { Lays (laid out.old at) (when there (blob_pieces s x.now)) out.new result }
{
    if there {
        fields::put_blob(s, out, at, x)
    } else {
        at
    }
}

#[tactic(auto, using(octets::proofs::Laying::lays_none))]
fn domain_if(
    there: bool,
    s: Settings,
    out: &mut [u8],
    at: usize,
    x: &[u8],
    lengths: &[u64],
) -> usize
    ensures { Lays (laid out.old at) (when there (domain_pieces s (split lengths.now x.now)))
        out.new result }
{
    if there {
        fields::put_domain(s, out, at, x, lengths)
    } else {
        at
    }
}

// Priority, timestamp, zone.
pub fn put_middle(
    s: Settings,
    out: &mut [u8],
    at: usize,
    has: Present,
    priority: u64,
    texts: LentTexts,
) -> usize
    ensures { Lays (laid out.old at) (middle_pieces s has priority (lent_of texts.entry)) out.new result }
{
    let a = uinteger_if(has.priority, s, out, at, priority);
    let b = block_if(has.timestamp, out, a, texts.timestamp);
    text_if(has.zone, s, out, b, texts.zone)
}

// Session name, domain, authentication id.
pub fn put_end(s: Settings, out: &mut [u8], at: usize, has: Present, texts: LentTexts) -> usize
    ensures { Lays (laid out.old at) (end_pieces s has (lent_of texts.entry)) out.new result }
{
    let a = text_if(has.session_name, s, out, at, texts.session_name);
    let b = domain_if(has.domain, s, out, a, texts.domain, texts.lengths);
    blob_if(has.authentication, s, out, b, texts.authentication)
}

// The whole packet from the first octet on; n is its length field. The place after it.
pub fn put_packet(
    s: Settings,
    out: &mut [u8],
    v: HeaderValues,
    o: PacketValues,
    n: usize,
    texts: LentTexts,
    body: &[u8],
) -> usize
    ensures { Lays (laid out.old 0) (packet_pieces s v o
        (lent_of texts.entry) n
        body.now) out.new result }
{
    let a = put_primary(out, v, o, n);
    let b = put_names(out, a, v);
    let c = put_routing(out, b, v);
    let d = put_front(out, c, v, o);
    let e = put_middle(s, out, d, v.has, v.priority, texts);
    let f = put_end(s, out, e, v.has, texts);
    octets::lay(out, f, body)
}

// The secondary header as it stands in a packet, told up to the limit.
pub fn secondary_size(h: usize, flags: u8) -> usize
    ensures { result ≡ capped (h + pick (segment flags) 4 0) }
{
    fields::plus(h, size_if(segmented(flags), packet::COUNTER))
}

// A packet with this secondary header and body, told up to the limit.
pub fn packet_size(secondary: usize, body: usize) -> usize
    ensures { result ≡ capped (6 + secondary + body) }
{
    fields::plus(fields::plus(packet::PRIMARY, secondary), body)
}

fn body_fits(flags: u8, n: usize) -> bool
    ensures { result ≡ body_fits flags n }
{
    if segmented(flags) { 1 <= n } else { true }
}

// 23, 12, 14, 21, by the sizes of the secondary header, the packet, the body and the output.
#[tactic(auto, unfolding(walk::specs::Walk::unless))]
fn test_sizes(
    secondary: usize,
    size: usize,
    flags: u8,
    body: usize,
    room: usize,
) -> Result<(), Refused>
    ensures { said result ≡ refusal (unless (leb size room) 21 (unless (body_fits flags body) 14
        (unless (leb secondary header_most) 12 (unless (leb size packet_most) 23 none_failed)))).number }
{
    ensure(size <= PACKET_MOST, Refused::Large)?;
    ensure(secondary <= HEADER_MOST, Refused::HeaderLong)?;
    ensure(body_fits(flags, body), Refused::EmptySegment)?;
    ensure(size <= room, Refused::Output)
}

// 22, 30, 13 and 28.
#[tactic(auto, unfolding(walk::specs::Walk::unless))]
fn test_given(
    writer: Writer,
    s: Settings,
    v: HeaderValues,
    o: PacketValues,
    texts: LentTexts,
) -> Result<(), Refused>
    ensures { let t = lent_of texts.entry in
        said result ≡ refusal (unless (all_hold (utf8_checks t.zone t.session_name (split t.lengths t.domain))) 28
        (unless (leb (length t.lengths) parts_most) 13
        (unless (zone_fits (is_old writer) v.has) 30
        (unless (all_hold (packet_checks o)) 22 (unless (all_hold (header_checks s v t)) 22 none_failed))))).number }
{
    ensure(header_fits(s, v, texts), Refused::Value)?;
    ensure(own_fits(o), Refused::Value)?;
    ensure(zone_fits(writer, v.has), Refused::Withdrawn)?;
    ensure(texts.lengths.len() <= fields::PARTS, Refused::ManyParts)?;
    ensure(are_text(texts), Refused::Text)
}

// 15, 22, 30, 13 and 28: the tests on the values alone.
fn test_values(
    writer: Writer,
    s: Settings,
    v: HeaderValues,
    o: PacketValues,
    texts: LentTexts,
) -> Result<(), Refused>
    ensures { said result ≡ refusal (value_refusal (is_old writer) s v o (lent_of texts.entry)).number }
{
    s.check()?;
    test_given(writer, s, v, o, texts)
}

// ---- the tests as those who have not moved to a Result make them, after others

// 15: T and the profile.
#[tactic(auto, unfolding(crate::specs::Writing::settings_test))]
pub fn test_settings(s: Settings, r: Tested) -> Tested
    ensures { result ≡ settings_test s r }
{
    let a = walk::unless(r, walk::TIMESTAMP_LEAST <= s.t, REFUSED_SETTINGS);
    let b = walk::unless(a, s.t <= walk::TIMESTAMP_MOST, REFUSED_SETTINGS);
    walk::unless(b, s.profile <= walk::PROFILE_FIXED, REFUSED_SETTINGS)
}

// 22, as far as a header's values go.
pub fn test_header(s: Settings, v: HeaderValues, texts: LentTexts, r: Tested) -> Tested
    ensures { result ≡ unless_all (header_checks s v (lent_of texts.entry)) 22 r }
{
    walk::unless(r, header_fits(s, v, texts), REFUSED_VALUE)
}

// 13.
pub fn test_parts(count: usize, r: Tested) -> Tested
    ensures { result ≡ unless (leb count parts_most) 13 r }
{
    walk::unless(r, count <= fields::PARTS, REFUSED_MANY_PARTS)
}

// 28. After a refusal nothing is looked through.
pub fn test_utf8(texts: LentTexts, r: Tested) -> Tested
    ensures { let t = lent_of texts.entry in
        result ≡ unless_all (utf8_checks t.zone t.session_name (split t.lengths t.domain)) 28 r }
{
    if r.number != 0 {
        return r;
    }
    walk::unless(r, are_text(texts), REFUSED_TEXT)
}

// The octets of a slice are octets: its type says so.
fn in_octets(x: &[u8])
    ensures { Octets x.now }
{}

// And those of the texts and of a body. It does nothing.
pub fn lent_in_octets(texts: LentTexts, body: &[u8])
    ensures { LentOctets (lent_of texts.entry) body.now }
{
    in_octets(texts.timestamp);
    in_octets(texts.zone);
    in_octets(texts.session_name);
    in_octets(texts.domain);
    in_octets(texts.authentication);
    in_octets(body);
}

// The old writer, or that of today, by whether a zone may be written.
pub fn write_by(
    writer: Writer,
    s: Settings,
    v: HeaderValues,
    o: PacketValues,
    texts: LentTexts,
    body: &[u8],
    out: &mut [u8],
) -> Result<usize, Refused>
    ensures { let t = lent_of texts.entry in
        (written result ≡ write_answer (is_old writer) s v o t body.now (length out.old))
        × (out.new ≡ write_output (is_old writer) s v o t body.now out.old)
        × Lends v t body.now }
{
    lent_in_octets(texts, body);
    test_values(writer, s, v, o, texts)?;
    let h = header_size(s, v, texts);
    let secondary = secondary_size(h, o.flags);
    let size = packet_size(secondary, body.len());
    test_sizes(secondary, size, o.flags, body.len(), out.len())?;
    put_packet(s, out, v, o, size - 7, texts, body);
    Ok(size)
}

// Writes one packet, or refuses and changes nothing.
pub fn write(
    s: Settings,
    v: HeaderValues,
    o: PacketValues,
    texts: LentTexts,
    body: &[u8],
    out: &mut [u8],
) -> Result<usize, Refused>
    ensures { let t = lent_of texts.entry in
        (written result ≡ write_answer false s v o t body.now (length out.old))
        × (out.new ≡ write_output false s v o t body.now out.old)
        × Lends v t body.now }
{
    write_by(Writer::Today, s, v, o, texts, body, out)
}
