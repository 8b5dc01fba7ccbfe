// Cutting a message into packets of at most P octets.
//
//   H octets of header, B of body:   6 + H + B <= P   one unsegmented packet
//                                    else             C = P - H - 10 body octets a packet, the last one the rest
//
// `count` answers how many packets a message takes and the sender's two numbers moved on; `packet` writes packet number i, from the
// sender before the message, which it leaves as it is. A refusal leaves the sender and the output as they were. The sender is that of
// crate `sender`; the tests on a header, its size and its octets are those of crate `write`. A network zone is withdrawn, which is 30;
// `count_by` and `packet_by` are the old cutter too, which writes it, for laws and tests.
#![tactic(auto)]

ghost use Rattle.std.specs.Prelude.{◌≡◌, false, suc, ◌+◌, length, eqb};
ghost use Rattle.fields.specs.Inner.{capped};
ghost use Rattle.octets.specs.Octets.{pick};
ghost use Rattle.walk.specs.Walk.{refusal, unless};
ghost use Rattle.write.specs.Given.{lent_of};
ghost use Rattle.write.specs.Lending.{Lends};
ghost use Rattle.write.specs.Writing.{is_old};
ghost use Rattle.sender.specs.declared.Sent.TheVariants.{Whole, Segments};
ghost use Rattle.packet.specs.Format.{counter_width, flags_between, flags_first, flags_last, flags_whole};
ghost use Rattle.cut.specs.Cutting.{limit_test, value_refusal, chunk as chunk_of, rounded};
ghost use Rattle.cut.specs.Cutting.{count_answer, packet_answer, packet_output};
ghost use Rattle.cut.specs.Inner.{packets_of, plan_of, counter_of, from_of, to_of, values_of};

use packet::SegmentCounter;
use sender::{Sender, Sent};
use walk::{
    REFUSED_HEADER_LONG, REFUSED_LARGE, REFUSED_MANY_SEGMENTS, REFUSED_NO_ROOM, REFUSED_NUMBER,
    REFUSED_OUTPUT, REFUSED_SETTINGS, REFUSED_VALUE, REFUSED_WITHDRAWN, Refusal, Settings, Tested,
};
use write::{HeaderValues, LentTexts, PacketValues, Writer};

pub const LIMIT_LEAST: usize = 27;

pub const BODY_MOST: usize = 1048576;

// What a segment has beside H and its part of the body.
const AROUND: usize = packet::PRIMARY + packet::COUNTER;

// What the count answers: a refusal, or the number of packets; and the sender.
#[derive(Clone, Copy)]
pub struct Counted {
    pub refusal: Refusal,
    pub count: usize,
    pub sender: Sender,
}

// What a packet's writing answers: a refusal, or the octets written; and the sender as it was.
#[derive(Clone, Copy)]
pub struct Cut {
    pub refusal: Refusal,
    pub length: usize,
    pub sender: Sender,
}

// A message's plan: whether one packet is enough, the body octets of a packet if it is not, and how many packets.
#[derive(Clone, Copy)]
pub struct Plan {
    pub tested: Tested,
    pub single: bool,
    pub chunk: usize,
    pub count: usize,
}

// ---- the plan

// 15: the settings and P.
#[tactic(auto, unfolding(crate::specs::Cutting::limit_test))]
pub fn test_limit(s: Settings, p: usize, r: Tested) -> Tested
    ensures { result ≡ limit_test s p r }
{
    let a = write::test_settings(s, r);
    let b = walk::unless(a, LIMIT_LEAST <= p, REFUSED_SETTINGS);
    walk::unless(b, p <= write::PACKET_MOST, REFUSED_SETTINGS)
}

// 15, 22, 30, 13, 28.
fn test_message(
    writer: Writer,
    s: Settings,
    p: usize,
    v: HeaderValues,
    texts: LentTexts,
    sender: Sender,
) -> Tested
    ensures { result ≡ value_refusal (is_old writer) s p v (lent_of texts.entry) sender }
{
    let none = Tested { number: 0 };
    let zone_fits = write::zone_fits(writer, v.has);
    let a = test_limit(s, p, none);
    let b = write::test_header(s, v, texts, a);
    let c = walk::unless(
        b,
        sender.sequence_count.0 <= packet::COUNT_MOST,
        REFUSED_VALUE,
    );
    let d = walk::unless(c, zone_fits, REFUSED_WITHDRAWN);
    let e = write::test_parts(texts.lengths.len(), d);
    write::test_utf8(texts, e)
}

// C.
fn chunk_of(p: usize, h: usize) -> usize
    ensures { result ≡ chunk_of p h }
{
    p.saturating_sub(h).saturating_sub(AROUND)
}

// B / C rounded up, 0 if C is.
fn parts_of(b: usize, c: usize) -> usize
    ensures { result ≡ rounded b c }
{
    if c == 0 { 0 } else { b.div_ceil(c) }
}

fn count_of(single: bool, b: usize, c: usize) -> usize
    ensures { result ≡ packets_of single b c }
{
    if single { 1 } else { parts_of(b, c) }
}

// The secondary header as it will stand in a packet.
fn header_of(single: bool, h: usize) -> usize
    ensures { result ≡ pick single h (capped (h + counter_width)) }
{
    if single {
        h
    } else {
        fields::plus(h, packet::COUNTER)
    }
}

// 23, 12, 24, 29, and the numbers that they are judged on.
#[tactic(auto, unfolding(crate::specs::Inner::plan_of, crate::specs::Inner::plan_refusal))]
pub fn plan_of(p: usize, h: usize, b: usize, r: Tested) -> Plan
    ensures { result ≡ plan_of p h b r }
{
    let single = write::packet_size(h, b) <= p;
    let chunk = chunk_of(p, h);
    let count = count_of(single, b, chunk);
    let a = walk::unless(r, b <= BODY_MOST, REFUSED_LARGE);
    let c = walk::unless(
        a,
        header_of(single, h) <= write::HEADER_MOST,
        REFUSED_HEADER_LONG,
    );
    let d = walk::unless(c, single || 1 <= chunk, REFUSED_NO_ROOM);
    let e = walk::unless(
        d,
        single || count <= packet::SEGMENTS_MOST,
        REFUSED_MANY_SEGMENTS,
    );
    Plan {
        tested: e,
        single,
        chunk,
        count,
    }
}

// ---- the numbers of a sender and of a packet

// The counter of segment i, 0 if there are none.
#[tactic(auto, using(crate::proofs::Counting::counter_is))]
fn counter_at(single: bool, first: SegmentCounter, i: usize) -> SegmentCounter
    ensures { result.0 ≡ counter_of single first i }
{
    if single {
        SegmentCounter(0)
    } else {
        sender::counter_after(first, i)
    }
}

// The sequence flags of packet i.
fn flags_at(single: bool, count: usize, i: usize) -> u8
    ensures { result ≡ pick single flags_whole (pick (eqb i 0) flags_first (pick (eqb (suc i) count) flags_last flags_between)) }
{
    if single {
        return packet::UNSEGMENTED;
    }
    if i == 0 {
        return packet::FIRST;
    }
    if i < count && count - i == 1 {
        return packet::LAST;
    }
    packet::CONTINUATION
}

// Where the part of packet i begins.
pub fn from_of(single: bool, chunk: usize, i: usize, b: usize) -> usize
    ensures { result ≡ from_of single chunk i b }
{
    if single {
        0
    } else {
        octets::place(b, chunk, i)
    }
}

// Where it ends.
pub fn to_of(single: bool, from: usize, chunk: usize, b: usize) -> usize
    ensures { result ≡ to_of single from chunk b }
{
    if single {
        b
    } else {
        octets::within(b, from, chunk)
    }
}

// The values of packet i.
#[tactic(auto, unfolding(crate::specs::Inner::values_of))]
pub fn values_at(single: bool, count: usize, sender: Sender, i: usize) -> PacketValues
    ensures { result ≡ values_of single count sender i }
{
    let first = sender.sequence_count;
    let flags = flags_at(single, count, i);
    let number = packet::sequence_count_after(first, i);
    let counter = counter_at(single, sender.counter, i);
    PacketValues {
        flags,
        sequence_count: number,
        counter,
    }
}

// How a message of n packets is sent.
pub fn sent_as(single: bool, n: usize) -> Sent
    ensures { result ≡ pick single Whole (Segments n) }
{
    if single {
        Sent::Whole
    } else {
        Sent::Segments(n)
    }
}

// The count of the old cutter, or of today's, by whether a zone may be written.
pub fn count_by(
    writer: Writer,
    s: Settings,
    p: usize,
    v: HeaderValues,
    texts: LentTexts,
    body: usize,
    sender: Sender,
) -> Counted
    ensures { result ≡ count_answer (is_old writer) s p v (lent_of texts.entry) body sender }
{
    let values = test_message(writer, s, p, v, texts, sender);
    let h = write::header_size(s, v, texts);
    let plan = plan_of(p, h, body, values);
    let tested = plan.tested;
    if tested.number != 0 {
        return Counted {
            refusal: walk::numbered(tested.number),
            count: 0,
            sender,
        };
    }
    let sent = sent_as(plan.single, plan.count);
    let moved = sender.after_message(sent);
    Counted {
        refusal: walk::numbered(0),
        count: plan.count,
        sender: moved,
    }
}

// The number of packets of a message with a body of so many octets, and the sender's numbers after it.
pub fn count(
    s: Settings,
    p: usize,
    v: HeaderValues,
    texts: LentTexts,
    body: usize,
    sender: Sender,
) -> Counted
    ensures { result ≡ count_answer false s p v (lent_of texts.entry) body sender }
{
    count_by(Writer::Today, s, p, v, texts, body, sender)
}

// What is answered: a refusal's number, the octets written, and the sender as it was.
fn told(k: u8, length: usize, sender: Sender) -> Cut
    ensures { result ≡ record { refusal = refusal k; length = length; sender = sender } }
{
    Cut {
        refusal: walk::numbered(k),
        length,
        sender,
    }
}

// Packet number i by the old cutter, or by today's, by whether a zone may be written.
pub fn packet_by(
    writer: Writer,
    s: Settings,
    p: usize,
    v: HeaderValues,
    texts: LentTexts,
    body: &[u8],
    sender: Sender,
    i: usize,
    out: &mut [u8],
) -> Cut
    ensures { let t = lent_of texts.entry in
        (result ≡ packet_answer (is_old writer) s p v t body.now sender i (length out.old))
        × (out.new ≡ packet_output (is_old writer) s p v t body.now sender i out.old)
        × Lends v t body.now }
{
    write::lent_in_octets(texts, body);
    let values = test_message(writer, s, p, v, texts, sender);
    let h = write::header_size(s, v, texts);
    let plan = plan_of(p, h, body.len(), values);
    let o = values_at(plan.single, plan.count, sender, i);
    let from = from_of(plan.single, plan.chunk, i, body.len());
    let to = to_of(plan.single, from, plan.chunk, body.len());
    let part = &body[from..to];
    let size = write::packet_size(write::secondary_size(h, o.flags), part.len());
    let a = walk::unless(plan.tested, i < plan.count, REFUSED_NUMBER);
    let r = walk::unless(a, size <= out.len(), REFUSED_OUTPUT);
    if r.number != 0 {
        return told(r.number, 0, sender);
    }
    let n = size - 7;
    write::put_packet(s, out, v, o, n, texts, part);
    told(0, size, sender)
}

// Writes packet number i of a message, by the sender's numbers as they stand, or refuses and changes nothing.
pub fn packet(
    s: Settings,
    p: usize,
    v: HeaderValues,
    texts: LentTexts,
    body: &[u8],
    sender: Sender,
    i: usize,
    out: &mut [u8],
) -> Cut
    ensures { let t = lent_of texts.entry in
        (result ≡ packet_answer false s p v t body.now sender i (length out.old))
        × (out.new ≡ packet_output false s p v t body.now sender i out.old)
        × Lends v t body.now }
{
    packet_by(Writer::Today, s, p, v, texts, body, sender, i, out)
}
