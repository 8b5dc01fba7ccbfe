// Writing and cutting the short way: each value is tested once, on the number as it is given, and the pieces of a packet are laid without
// a test of room for each octet. The long way is crate `flat`. It makes every refusal; here is only what is written.
//
// The short way is for Varints, and for texts whose octets are characters by themselves and whose lengths are of one octet.
#![tactic(auto)]

ghost use Rattle.std.specs.Prelude.{◌≡◌, IfSome, true, [], ◌∷◌, ◌+◌, ◌*◌, ◌≤◌, ◌<◌, length, leb};
ghost use Rattle.std.proofs.lemmas.List.Edits.{sets};
ghost use Rattle.octets.specs.Octets.{pick, wide, octet_at as number_at};
ghost use Rattle.octets.specs.Laying.{laid, Lays, together};
ghost use Rattle.walk.specs.Walk.{settings_of};
ghost use Rattle.fields.specs.Form.{uinteger_octets, split};
ghost use Rattle.fields.specs.Inner.{blob_pieces, part_pieces, parts_pieces, domain_pieces};
ghost use Rattle.packet.specs.Format.{when, header_octets, segment};
ghost use Rattle.write.specs.Given.{lent_of, head_of};
ghost use Rattle.write.specs.Inner.{primary_pieces, name_pieces, routing_pieces, present_octet, packet_pieces};
ghost use Rattle.flat.specs.Given.{header_of, packet_of, present_of, sender_of};
ghost use Rattle.flat.specs.Answers.{write_numbers, write_out, given, count_numbers, packet_numbers, packet_out};
ghost use Rattle.laying.specs.Short.{InLimits, Numbers, Brief, Texts, Ready, fixed_pieces, plain_pieces, Own, Owned, Writes, CutReady};

use flat::{CUT, HEADER, SENDER};
use packet::{COUNTER, UNSEGMENTED};
use sender::Sender;
use varint::{MOST_16, MOST_32};
use walk::{REFUSED_NUMBER, REFUSED_OUTPUT, Settings, Tested};
use write::LentTexts;

// The longest text whose length is one octet.
const SHORT: usize = 127;

// The largest value of each of a header's numbers; the fifth presence flag is the zone's.
const LIMITS: [u64; HEADER] = [
    1,
    2046,
    21,
    MOST_16,
    MOST_16,
    MOST_16,
    255,
    1,
    3,
    2,
    2047,
    MOST_16,
    u64::MAX,
    1,
    1,
    1,
    1,
    0,
    1,
    1,
    1,
    255,
    255,
    MOST_32,
];

// ---- the tests

// An absent field has no value.
fn only_if(flag: u64, x: u64) -> bool
    ensures { result ≡ true → flag ≡ 0 → x ≡ 0 }
{
    flag != 0 || x == 0
}

fn in_limits(h: &[u64; HEADER]) -> bool
    ensures { result ≡ true → InLimits h.now }
{
    flat::fits(h, &LIMITS)
}

fn numbers_ready(s: Settings, h: &[u64; HEADER]) -> bool
    ensures { result ≡ true → Numbers s h.now }
{
    s.profile == 0
        && 1 <= s.t
        && s.t <= 16
        && in_limits(h)
        && only_if(h[13], h[21])
        && only_if(h[14], h[22])
        && only_if(h[15], h[23])
}

fn brief(flag: u64, n: usize) -> bool
    ensures { result ≡ true → Brief flag n }
{
    if flag == 0 { n == 0 } else { n <= SHORT }
}

// No text is lent.
fn none_lent(texts: LentTexts) -> bool
    ensures { let t = lent_of texts.entry in
        result ≡ true → length t.timestamp + (length t.session_name + (length t.domain
        + (length t.lengths + length t.authentication))) ≡ 0 }
{
    texts.timestamp.is_empty()
        && texts.session_name.is_empty()
        && texts.domain.is_empty()
        && texts.lengths.is_empty()
        && texts.authentication.is_empty()
}

fn texts_ready(s: Settings, h: &[u64; HEADER], texts: LentTexts) -> bool
    requires { Numbers s h.now }
    ensures { result ≡ true → Texts s h.now (lent_of texts.entry) }
{
    if !texts.zone.is_empty() {
        return false;
    }
    if h[16] + h[18] + h[19] + h[20] == 0 {
        return none_lent(texts);
    }
    write::exact_fits(h[16] == 1, texts.timestamp.len(), s.t)
        && brief(h[18], texts.session_name.len())
        && brief(h[19], texts.domain.len())
        && brief(h[20], texts.authentication.len())
        && texts.lengths.len() <= fields::PARTS
        && write::lengths_fit(h[19] == 1, texts.lengths, texts.domain.len())
        && utf8::all_single(texts.session_name)
        && utf8::all_single(texts.domain)
}

// Whether a header goes the short way.
fn ready(s: Settings, h: &[u64; HEADER], texts: LentTexts) -> bool
    ensures { result ≡ true → Ready s h.now (lent_of texts.entry) }
{
    numbers_ready(s, h) && texts_ready(s, h, texts)
}

// ---- the size

fn priority_size(there: bool, s: Settings, x: u64) -> usize
    requires profile_value { s.profile ≡ 0 }
    requires x_bound { x ≤ 4294967295 }
    ensures size { result ≡ pick there (length (uinteger_octets s x)) 0 }
    ensures small { result ≤ 5 }
{
    if there {
        fields::uinteger_size(s, x)
    } else {
        0
    }
}

// H of a header that is ready: a text and its length, a domain and two octets for each part, are counted as they are lent.
fn header_size(s: Settings, h: &[u64; HEADER], texts: LentTexts) -> usize
    requires { Ready s h.now (lent_of texts) }
    ensures size { result ≡ length (header_octets s (head_of (header_of h.now) (lent_of texts.entry))) }
    ensures small { result ≤ 500 }
{
    let flags = (h[13] + h[14] + h[18] + h[19] + h[20]) as usize;
    let priority = priority_size(h[15] == 1, s, h[23]);
    packet::FIXED
        + flags
        + priority
        + texts.timestamp.len()
        + texts.session_name.len()
        + texts.domain.len()
        + 2 * texts.lengths.len()
        + texts.authentication.len()
}

// ---- the octets

// A number of two octets.
fn two(out: &mut [u8], at: usize, v: u64)
    requires { at + 2 ≤ length out.old }
    ensures { out.new ≡ sets out.old at (wide 2 v) }
{
    out[at] = (v / 256 % 256) as u8;
    out[at + 1] = (v % 256) as u8;
}

// One of four.
fn four(out: &mut [u8], at: usize, v: u64)
    requires { at + 4 ≤ length out.old }
    ensures { out.new ≡ sets out.old at (wide 4 v) }
{
    out[at] = (v / 256 / 256 / 256 % 256) as u8;
    out[at + 1] = (v / 256 / 256 % 256) as u8;
    out[at + 2] = (v / 256 % 256) as u8;
    out[at + 3] = (v % 256) as u8;
}

// Identification, sequence flags and count, length field.
fn put_primary(out: &mut [u8], h: &[u64; HEADER], flags: u64, count: u64, n: u64)
    requires in_bounds { 27 ≤ length out.old }
    requires in_limits { InLimits h.now }
    requires own { Own flags count }
    ensures { out.new ≡ sets out.old 0 (together (primary_pieces (header_of h.now) (packet_of flags count 0) n)) }
{
    let id = h[0] * 4096 + 2048 + h[1];
    let sequence = flags * 16384 + count;
    four(out, 0, id * 65536 + sequence);
    two(out, 4, n);
}

// SDU type to area version.
fn put_names(out: &mut [u8], h: &[u64; HEADER])
    requires in_bounds { 27 ≤ length out.old }
    requires in_limits { InLimits h.now }
    ensures { out.new ≡ sets out.old 6 (together (name_pieces (header_of h.now))) }
{
    out[6] = (h[2] % 256) as u8;
    four(out, 7, h[3] * 65536 + h[4]);
    two(out, 11, h[5]);
    out[13] = (h[6] % 256) as u8;
}

// Error to presence octet.
fn put_routing(out: &mut [u8], h: &[u64; HEADER], present: u64)
    requires in_bounds { 27 ≤ length out.old }
    requires in_limits { InLimits h.now }
    requires present_value { present ≡ present_octet (present_of h.now) }
    ensures { out.new ≡ sets out.old 14 (together (routing_pieces (header_of h.now))) }
{
    let mixed = h[7] * 32768 + h[8] * 8192 + h[9] * 2048 + h[10];
    four(out, 14, mixed * 65536 + h[11]);
    four(out, 18, h[12] / 4294967296);
    four(out, 22, h[12] % 4294967296);
    out[26] = (present % 256) as u8;
}

// The presence octet.
fn present_octet(h: &[u64; HEADER]) -> u64
    requires { InLimits h.now }
    ensures { result ≡ present_octet (present_of h.now) }
{
    128 * h[13] + 64 * h[14] + 32 * h[15] + 16 * h[16] + 8 * h[17] + 4 * h[18] + 2 * h[19] + h[20]
}

// All up to the presence octet.
fn put_fixed(out: &mut [u8], h: &[u64; HEADER], flags: u64, count: u64, n: u64, present: u64)
    requires in_bounds { 27 ≤ length out.old }
    requires in_limits { InLimits h.now }
    requires own { Own flags count }
    requires present_value { present ≡ present_octet (present_of h.now) }
    ensures { Lays (laid out.old 0) (fixed_pieces (header_of h.now) (packet_of flags count 0) n) out.new 27 }
{
    put_primary(out, h, flags, count, n);
    put_names(out, h);
    put_routing(out, h, present);
}

// Whether n octets lie before the end from a place on.
fn has_room(len: usize, at: usize, n: usize) -> bool
    ensures { result ≡ leb (at + n) len }
{
    if len < at {
        return false;
    }
    n <= len - at
}

// An octet if it is there.
fn octet_if(there: bool, out: &mut [u8], at: usize, v: u64) -> usize
    ensures { Lays (laid out.old at) (when there (wide 1 v ∷ [])) out.new result }
{
    if there {
        if at < out.len() {
            out[at] = (v % 256) as u8;
            return at + 1;
        }
    }
    at
}

// Four octets if they are there.
fn four_if(there: bool, out: &mut [u8], at: usize, v: u64) -> usize
    ensures { Lays (laid out.old at) (when there (wide 4 v ∷ [])) out.new result }
{
    if there {
        if has_room(out.len(), at, COUNTER) {
            four(out, at, v);
            return at + COUNTER;
        }
    }
    at
}

fn uinteger_if(there: bool, s: Settings, out: &mut [u8], at: usize, v: u64) -> usize
    ensures { Lays (laid out.old at) (when there (uinteger_octets s v ∷ [])) out.new result }
{
    if there {
        return fields::put_uinteger(s, out, at, v);
    }
    at
}

fn block(out: &mut [u8], at: usize, x: &[u8]) -> usize
    ensures { Lays (laid out.old at) (x.now ∷ []) out.new result }
{
    if has_room(out.len(), at, x.len()) {
        octets::copy(out, at, x);
        return at + x.len();
    }
    at
}

fn block_if(there: bool, out: &mut [u8], at: usize, x: &[u8]) -> usize
    ensures { Lays (laid out.old at) (when there (x.now ∷ [])) out.new result }
{
    if there {
        return block(out, at, x);
    }
    at
}

// A text or an id with its length.
fn blob_if(there: bool, s: Settings, out: &mut [u8], at: usize, x: &[u8]) -> usize
    requires profile_value { s.profile ≡ 0 }
    requires x_len_bound { length x.now ≤ 127 }
    ensures { Lays (laid out.old at) (when there (blob_pieces s x.now)) out.new result }
{
    if there {
        if has_room(out.len(), at, x.len() + 1) {
            out[at] = x.len() as u8;
            octets::copy(out, at + 1, x);
            return at + (x.len() + 1);
        }
        return fields::put_blob(s, out, at, x);
    }
    at
}

// A domain part where there is room: an octet of 1, its length, its octets.
fn put_part(s: Settings, out: &mut [u8], at: usize, x: &[u8]) -> usize
    requires profile_value { s.profile ≡ 0 }
    requires x_len_bound { length x.now ≤ 127 }
    requires x_in_bounds { at + (length x.now + 2) ≤ length out.old }
    ensures lays { Lays (laid out.old at) (part_pieces s x.now) out.new result }
    ensures place { result ≡ at + (length x.now + 2) }
{
    out[at] = 1;
    out[at + 1] = x.len() as u8;
    octets::copy(out, at + 2, x);
    at + (x.len() + 2)
}

fn put_parts(s: Settings, out: &mut [u8], at: usize, x: &[u8], lengths: &[u64]) -> usize
    requires profile_value { s.profile ≡ 0 }
    requires x_len_bound { length x.now ≤ 127 }
    requires x_in_bounds { at + (2 * length lengths.now + length x.now) ≤ length out.old }
    ensures { Lays (laid out.old at) (parts_pieces s (split lengths.now x.now)) out.new result }
{
    let mut next = at;
    let mut from = 0;
    for &length in lengths {
        let end = octets::within(x.len(), from, length as usize);
        next = put_part(s, out, next, &x[from..end]);
        from = end;
    }
    next
}

fn domain_if(
    there: bool,
    s: Settings,
    out: &mut [u8],
    at: usize,
    x: &[u8],
    lengths: &[u64],
) -> usize
    requires profile_value { s.profile ≡ 0 }
    requires x_len_bound { length x.now ≤ 127 }
    requires lengths_len_bound { length lengths.now ≤ 16 }
    ensures { Lays (laid out.old at) (when there (domain_pieces s (split lengths.now x.now)))
        out.new result }
{
    if there {
        if has_room(out.len(), at, 1 + (2 * lengths.len() + x.len())) {
            out[at] = lengths.len() as u8;
            return put_parts(s, out, at + 1, x, lengths);
        }
        return fields::put_domain(s, out, at, x, lengths);
    }
    at
}

// A packet without optional fields; the place after it.
fn put_plain(
    out: &mut [u8],
    h: &[u64; HEADER],
    flags: u64,
    count: u64,
    counter: u64,
    n: u64,
    body: &[u8],
) -> usize
    requires in_bounds { 27 ≤ length out.old }
    requires in_limits { InLimits h.now }
    requires own { Own flags count }
    requires value { 0 ≡ present_octet (present_of h.now) }
    ensures { Lays (laid out.old 0) (plain_pieces (header_of h.now) (packet_of flags count counter) n
        body.now) out.new result }
{
    put_fixed(out, h, flags, count, n, 0);
    let a = four_if(flags != 3, out, 27, counter);
    block(out, a, body)
}

// Any packet of a header that is ready.
fn put_full(
    s: Settings,
    out: &mut [u8],
    h: &[u64; HEADER],
    flags: u64,
    count: u64,
    counter: u64,
    n: u64,
    present: u64,
    texts: LentTexts,
    body: &[u8],
) -> usize
    requires in_bounds { 27 ≤ length out.old }
    requires ready { Ready s h.now (lent_of texts) }
    requires own { Own flags count }
    requires present_value { present ≡ present_octet (present_of h.now) }
    ensures { Lays (laid out.old 0) (packet_pieces s (header_of h.now) (packet_of flags count counter)
        (lent_of texts.entry) n
        body.now) out.new result }
{
    put_fixed(out, h, flags, count, n, present);
    let a = octet_if(h[13] == 1, out, 27, h[21]);
    let b = octet_if(h[14] == 1, out, a, h[22]);
    let c = four_if(flags != 3, out, b, counter);
    let d = uinteger_if(h[15] == 1, s, out, c, h[23]);
    let e = block_if(h[16] == 1, out, d, texts.timestamp);
    let f = blob_if(h[18] == 1, s, out, e, texts.session_name);
    let g = domain_if(h[19] == 1, s, out, f, texts.domain, texts.lengths);
    let i = blob_if(h[20] == 1, s, out, g, texts.authentication);
    block(out, i, body)
}

fn put_packet(
    s: Settings,
    out: &mut [u8],
    h: &[u64; HEADER],
    flags: u64,
    count: u64,
    counter: u64,
    n: u64,
    texts: LentTexts,
    body: &[u8],
) -> usize
    requires in_bounds { 27 ≤ length out.old }
    requires ready { Ready s h.now (lent_of texts) }
    requires own { Own flags count }
    ensures { Lays (laid out.old 0) (packet_pieces s (header_of h.now) (packet_of flags count counter)
        (lent_of texts.entry) n
        body.now) out.new result }
{
    let present = present_octet(h);
    if present == 0 {
        return put_plain(out, h, flags, count, counter, n, body);
    }
    put_full(s, out, h, flags, count, counter, n, present, texts, body)
}

// ---- writing

// A packet's own numbers in their ranges.
fn own_ready(flags: u64, count: u64, counter: u64) -> bool
    ensures { result ≡ true → Owned flags count counter }
{
    flags <= 3 && count <= 16383 && write::number_fits(flags != 3, counter, MOST_32)
}

fn counter_size(flags: u64) -> usize
    ensures size { result ≡ pick (segment flags) 4 0 }
    ensures small { result ≤ 4 }
{
    if flags == 3 { 0 } else { COUNTER }
}

// The size of a packet that is written the short way; 0 for the long way.
fn packet_size(
    s: Settings,
    h: &[u64; HEADER],
    texts: LentTexts,
    flags: u64,
    count: u64,
    counter: u64,
    body: &[u8],
    room: usize,
) -> usize
    ensures { 0 < result → Writes s h.now (lent_of texts.entry) flags count counter body.now room result }
{
    if !own_ready(flags, count, counter) {
        return 0;
    }
    if !ready(s, h, texts) {
        return 0;
    }
    let second = header_size(s, h, texts) + counter_size(flags);
    if write::HEADER_MOST < second {
        return 0;
    }
    if write::PACKET_MOST - 6 - write::HEADER_MOST < body.len() {
        return 0;
    }
    let size = packet::PRIMARY + second + body.len();
    if room < size {
        return 0;
    }
    if flags != 3 {
        if body.len() == 0 {
            return 0;
        }
    }
    size
}

// Writing one packet.
pub fn write(
    t: u64,
    profile: u64,
    header: &[u64; HEADER],
    texts: LentTexts,
    flags: u64,
    sequence_count: u64,
    counter: u64,
    body: &[u8],
    out: &mut [u8],
) -> [u64; 2]
    ensures { let x = lent_of texts.entry in let s = settings_of t profile in
        (result ≡ write_numbers s header.now x flags sequence_count counter body.now (length out.old))
        × (out.new ≡ write_out s header.now x flags sequence_count counter body.now out.old) }
{
    let s = flat::settings(t, profile);
    let size = packet_size(
        s,
        header,
        texts,
        flags,
        sequence_count,
        counter,
        body,
        out.len(),
    );
    if size == 0 {
        return flat::write(
            t,
            profile,
            header,
            texts,
            flags,
            sequence_count,
            counter,
            body,
            out,
        );
    }
    let n = (size - 7) as u64;
    put_packet(
        s,
        out,
        header,
        flags,
        sequence_count,
        counter,
        n,
        texts,
        body,
    );
    [0, size as u64]
}

// ---- cutting

// The sender of a message that goes the short way.
fn cut_ready(
    s: Settings,
    p: usize,
    h: &[u64; HEADER],
    texts: LentTexts,
    sender: &[u64; SENDER],
) -> Option<Sender>
    ensures { IfSome result (λ d. CutReady s p h.now (lent_of texts.entry) sender.now × (d ≡ sender_of sender.now)) }
{
    if p < cut::LIMIT_LEAST {
        return None;
    }
    if write::PACKET_MOST < p {
        return None;
    }
    let d = flat::sender_of(sender).ok()?;
    if packet::COUNT_MOST < d.sequence_count.0 {
        return None;
    }
    if !ready(s, h, texts) {
        return None;
    }
    Some(d)
}

// The number of packets of a message, and the sender's numbers after it.
pub fn cut_count(
    t: u64,
    profile: u64,
    p: u64,
    header: &[u64; HEADER],
    texts: LentTexts,
    body: u64,
    sender: &[u64; SENDER],
) -> [u64; CUT]
    ensures { result ≡ count_numbers (settings_of t profile) p header.now
        (lent_of texts.entry) body sender.now }
{
    let s = flat::settings(t, profile);
    let limit = p as usize;
    if let Some(d) = cut_ready(s, limit, header, texts, sender) {
        let h = header_size(s, header, texts);
        let plan = cut::plan_of(limit, h, body as usize, Tested { number: 0 });
        let tested = plan.tested;
        if tested.number == 0 {
            let moved = d.after_message(cut::sent_as(plan.single, plan.count));
            let next = moved.sequence_count;
            let counter = moved.counter;
            return [0, plan.count as u64, next.0 as u64, counter.0 as u64];
        }
    }
    flat::cut_count(t, profile, p, header, texts, body, sender)
}

// Packet number i and its size; 0 for the long way, and then nothing is written.
fn cut_short(
    s: Settings,
    p: usize,
    header: &[u64; HEADER],
    texts: LentTexts,
    body: &[u8],
    sender: &[u64; SENDER],
    i: usize,
    out: &mut [u8],
) -> usize
    ensures done { 0 < result → (let x = lent_of texts.entry in
        (0 ∷ result ∷ given sender.now ≡ packet_numbers s p header.now x body.now sender.now i
        (length out.old))
        × (out.new ≡ packet_out s p header.now x body.now sender.now i out.old)) }
    ensures kept { result ≡ 0 → out.new ≡ out.old }
{
    let Some(d) = cut_ready(s, p, header, texts, sender) else {
        return 0;
    };
    let h = header_size(s, header, texts);
    let plan = cut::plan_of(p, h, body.len(), Tested { number: 0 });
    let o = cut::values_at(plan.single, plan.count, d, i);
    let from = cut::from_of(plan.single, plan.chunk, i, body.len());
    let to = cut::to_of(plan.single, from, plan.chunk, body.len());
    let part = &body[from..to];
    let size = write::packet_size(write::secondary_size(h, o.flags), part.len());
    let a = walk::unless(plan.tested, i < plan.count, REFUSED_NUMBER);
    let r = walk::unless(a, size <= out.len(), REFUSED_OUTPUT);
    if r.number != 0 {
        return 0;
    }
    let flags = o.flags as u64;
    let count = o.sequence_count;
    let counter = o.counter;
    let n = (size - 7) as u64;
    let present = present_octet(header);
    if present == 0 {
        put_plain(
            out,
            header,
            flags,
            count.0 as u64,
            counter.0 as u64,
            n,
            part,
        );
        return size;
    }
    put_full(
        s,
        out,
        header,
        flags,
        count.0 as u64,
        counter.0 as u64,
        n,
        present,
        texts,
        part,
    );
    size
}

// Packet number i of a message.
pub fn cut_packet(
    t: u64,
    profile: u64,
    p: u64,
    header: &[u64; HEADER],
    texts: LentTexts,
    body: &[u8],
    sender: &[u64; SENDER],
    i: u64,
    out: &mut [u8],
) -> [u64; CUT]
    ensures { let x = lent_of texts.entry in let s = settings_of t profile in
        (result ≡ packet_numbers s p header.now x body.now sender.now i (length out.old))
        × (out.new ≡ packet_out s p header.now x body.now sender.now i out.old) }
{
    let s = flat::settings(t, profile);
    let size = cut_short(s, p as usize, header, texts, body, sender, i as usize, out);
    if size != 0 {
        return [0, size as u64, sender[0], sender[1]];
    }
    flat::cut_packet(t, profile, p, header, texts, body, sender, i, out)
}
