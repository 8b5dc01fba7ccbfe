// Reading a packet into a lent answer: each step lays its numbers where the answer is lent and answers the place after its field, or None for
// the long way. The long way is `flat::read`. It makes every refusal; here is only what is accepted.
//
// The fixed part is tested once and then read at its own places. A UInteger is told at once if it is a Varint of one octet or has four.
#![tactic(auto)]

ghost use Rattle.std.specs.Prelude.{◌≡◌, IfSome, true, List, [], ◌∷◌, ℕ, ◌+◌, ◌-◌, ◌≤◌, ◌<◌, length};
ghost use Rattle.std.proofs.lemmas.List.Edits.{sets};
ghost use Rattle.octets.specs.Octets.{pick, octet_at, number as number_of, part as stretch};
ghost use Rattle.utf8.specs.Test.{is_text};
ghost use Rattle.walk.specs.Walk.{settings_of, goes as goes_at, header_bound, uinteger};
ghost use Rattle.fields.specs.declared.Place.{Place};
ghost use Rattle.fields.specs.Fields.{nowhere, opt, block, blob, text, part, no_parts, parts_to, domain};
ghost use Rattle.packet.specs.FixedPart.{flags_of, octet_field, wide_field};
ghost use Rattle.packet.specs.Reading.{primary_of, ids_of, texts_of, segmented, read_packet};
ghost use Rattle.flat.specs.Told.{primary_numbers, name_numbers, routing_numbers, present_numbers, ids_numbers, text_numbers, place_numbers, places_to};
ghost use Rattle.flat.specs.Told.{read_numbers};
ghost use Rattle.filling.specs.Filling.{Within, Found, Into, Single, Quick, one, parts_numbers, NoneFrom, front_numbers};
ghost use Rattle.light.specs.Light.{Ready, fixed_here, no_texts};
ghost use Rattle.filling.specs.Filling.{Ended};

use flat::READ;
use packet::COUNTER;
use walk::{HEADER_END, PROFILE_FIXED, Reader, Settings, UINTEGER};

// How many octets are tested at once for being characters by themselves.
const BLOCK: usize = 32;

// A UInteger, and the place after it.
#[derive(Clone, Copy)]
struct Number {
    next: usize,
    value: usize,
}

// The octets up to the header's limit.
fn limit_of(p: &[u8]) -> usize
    requires { 27 ≤ length p.now }
    ensures { Within p.now result 27 }
{
    p.len().min(HEADER_END)
}

// What the type of an answer says, for the proof: nothing is done.
fn counted(answer: [u64; READ])
    ensures { length answer ≡ 75 }
{}

// Packet type to sequence count, after a refusal of 0.
fn primary_into(p: &[u8], answer: &mut [u64; READ])
    requires { 27 ≤ length p.now }
    ensures { answer.new ≡ sets answer.old 0 (0 ∷ primary_numbers (primary_of p.now)) }
{
    let first = light::octet(p, 0);
    let apid = light::word(p, 0);
    let third = light::octet(p, 2);
    let count = light::word(p, 2);
    answer[0] = 0;
    answer[1] = first / 16 % 2;
    answer[2] = apid % 2048;
    answer[3] = third / 64;
    answer[4] = count % 16384;
}

fn names_into(p: &[u8], answer: &mut [u64; READ])
    requires { 27 ≤ length p.now }
    ensures { answer.new ≡ sets answer.old 5 (name_numbers (fixed_here p.now)) }
{
    let sdu = light::octet(p, 6);
    let area = light::word(p, 7);
    let service = light::word(p, 9);
    let operation = light::word(p, 11);
    let version = light::octet(p, 13);
    answer[5] = sdu % 32;
    answer[6] = area;
    answer[7] = service;
    answer[8] = operation;
    answer[9] = version;
}

fn transaction(p: &[u8]) -> u64
    requires { 27 ≤ length p.now }
    ensures { result ≡ number_of 8 p.now 18 }
{
    light::double(p, 18) * 4294967296 + light::double(p, 22)
}

fn routing_into(p: &[u8], answer: &mut [u64; READ])
    requires { 27 ≤ length p.now }
    ensures { answer.new ≡ sets answer.old 10 (routing_numbers (fixed_here p.now)) }
{
    let high = light::octet(p, 14);
    let low = light::octet(p, 15);
    let qualifier = light::word(p, 16);
    let id = transaction(p);
    answer[10] = high / 128;
    answer[11] = high / 32 % 4;
    answer[12] = high / 8 % 4;
    answer[13] = high % 8 * 256 + low;
    answer[14] = qualifier;
    answer[15] = id;
}

fn flags_into(f: u64, answer: &mut [u64; READ])
    ensures { answer.new ≡ sets answer.old 16 (present_numbers (flags_of f)) }
{
    answer[16] = f / 128 % 2;
    answer[17] = f / 64 % 2;
    answer[18] = f / 32 % 2;
    answer[19] = f / 16 % 2;
    answer[20] = f / 8 % 2;
    answer[21] = f / 4 % 2;
    answer[22] = f / 2 % 2;
    answer[23] = f % 2;
}

fn octet_into(
    there: bool,
    p: &[u8],
    lim: usize,
    at: usize,
    k: usize,
    answer: &mut [u64; READ],
) -> Option<usize>
    requires within { Within p.now lim at }
    requires k_bound { k < 75 }
    ensures { IfSome result (Into p.now (opt there 0 (octet_field header_bound p.now) (goes_at at))
        one k lim answer.old answer.new) }
{
    if !there {
        answer[k] = 0;
        return Some(at);
    }
    if lim <= at {
        return None;
    }
    answer[k] = light::octet(p, at);
    Some(at + 1)
}

fn counter_into(
    there: bool,
    p: &[u8],
    lim: usize,
    at: usize,
    answer: &mut [u64; READ],
) -> Option<usize>
    requires { Within p.now lim at }
    ensures { IfSome result (Into p.now (opt there 0 (wide_field 4 header_bound p.now) (goes_at at))
        one 26 lim answer.old answer.new) }
{
    if !there {
        answer[26] = 0;
        return Some(at);
    }
    if lim < at + COUNTER {
        return None;
    }
    answer[26] = light::double(p, at);
    Some(at + COUNTER)
}

// A UInteger of more octets than one, by its reader.
fn number_long(s: Settings, p: &[u8], lim: usize, at: usize) -> Option<Number>
    requires { Within p.now lim at }
    ensures { IfSome result (λ n. Found p.now (uinteger s header_bound p.now (goes_at at)) lim n.next n.value) }
{
    let mut reader = Reader {
        octets: p,
        settings: s,
        bound: walk::header_bound(),
        at,
    };
    let Ok(value) = reader.uinteger() else {
        return None;
    };
    if lim < reader.at {
        return None;
    }
    Some(Number {
        next: reader.at,
        value: value as usize,
    })
}

// A UInteger, all of it before the limit.
fn number_at(s: Settings, p: &[u8], lim: usize, at: usize) -> Option<Number>
    requires { Within p.now lim at }
    ensures { IfSome result (λ n. Found p.now (uinteger s header_bound p.now (goes_at at)) lim n.next n.value) }
{
    if s.profile == PROFILE_FIXED {
        if lim < at + UINTEGER {
            return None;
        }
        return Some(Number {
            next: at + UINTEGER,
            value: light::double(p, at) as usize,
        });
    }
    if lim <= at {
        return None;
    }
    let one = light::octet(p, at) as usize;
    if 127 < one {
        return number_long(s, p, lim, at);
    }
    Some(Number {
        next: at + 1,
        value: one,
    })
}

fn number_into(
    there: bool,
    s: Settings,
    p: &[u8],
    lim: usize,
    at: usize,
    answer: &mut [u64; READ],
) -> Option<usize>
    requires { Within p.now lim at }
    ensures { IfSome result (Into p.now (opt there 0 (uinteger s header_bound p.now) (goes_at at))
        one 27 lim answer.old answer.new) }
{
    if !there {
        answer[27] = 0;
        return Some(at);
    }
    let n = number_at(s, p, lim, at)?;
    answer[27] = n.value as u64;
    Some(n.next)
}

fn block_into(
    there: bool,
    n: usize,
    p: &[u8],
    lim: usize,
    at: usize,
    answer: &mut [u64; READ],
) -> Option<usize>
    requires within { Within p.now lim at }
    requires n_bound { n ≤ 16 }
    ensures { IfSome result (Into p.now (opt there nowhere (block n header_bound p.now) (goes_at at))
        place_numbers 28 lim answer.old answer.new) }
{
    if !there {
        none_into(28, answer);
        return Some(at);
    }
    if lim < at + n {
        return None;
    }
    place_into(28, at, n, answer);
    Some(at + n)
}

// How far the octets from a place on are characters by themselves, block by block.
fn single_to(p: &[u8], lim: usize, from: usize) -> usize
    requires { Within p.now lim from }
    ensures { Single p.now lim from result }
{
    let mut to = from;
    while BLOCK <= lim - to {
        if utf8::all_single(&p[to..to + BLOCK]) {
            to += BLOCK;
        } else {
            return to;
        }
    }
    to
}

// The same, if texts may follow.
fn single_if(there: bool, p: &[u8], lim: usize, from: usize) -> usize
    requires { Within p.now lim from }
    ensures { Single p.now lim from result }
{
    if there { single_to(p, lim, from) } else { 0 }
}

// Whether octets up to an end are text; those of a run of single ones are.
fn is_text(p: &[u8], lim: usize, from: usize, to: usize, at: usize, end: usize) -> bool
    requires at_le_end { at ≤ end }
    requires end_in_bounds { end ≤ length p.now }
    requires single { Single p.now lim from to }
    ensures { result ≡ true → is_text (stretch p.now at (end - at)) ≡ true }
{
    if from <= at && end <= to {
        return true;
    }
    utf8::is_text(&p[at..end])
}

// A length and so many octets.
fn blob_at(
    s: Settings,
    p: &[u8],
    lim: usize,
    at: usize,
    k: usize,
    answer: &mut [u64; READ],
) -> Option<usize>
    requires within { Within p.now lim at }
    requires k_bound { k + 1 < 75 }
    ensures { IfSome result (Into p.now (blob s header_bound p.now (goes_at at)) place_numbers k lim answer.old answer.new) }
{
    let n = number_at(s, p, lim, at)?;
    if lim - n.next < n.value {
        return None;
    }
    place_into(k, n.next, n.value, answer);
    Some(n.next + n.value)
}

// The same, and the octets are text.
fn text_at(
    s: Settings,
    p: &[u8],
    lim: usize,
    from: usize,
    to: usize,
    at: usize,
    k: usize,
    answer: &mut [u64; READ],
) -> Option<usize>
    requires single { Single p.now lim from to }
    requires within { Within p.now lim at }
    requires k_bound { k + 1 < 75 }
    ensures { IfSome result (Into p.now (text s header_bound p.now (goes_at at)) place_numbers k lim answer.old answer.new) }
{
    let n = number_at(s, p, lim, at)?;
    if lim - n.next < n.value {
        return None;
    }
    let end = n.next + n.value;
    if !is_text(p, lim, from, to, n.next, end) {
        return None;
    }
    place_into(k, n.next, n.value, answer);
    Some(end)
}

fn blob_into(
    there: bool,
    s: Settings,
    p: &[u8],
    lim: usize,
    at: usize,
    answer: &mut [u64; READ],
) -> Option<usize>
    requires { Within p.now lim at }
    ensures { IfSome result (Into p.now (opt there nowhere (blob s header_bound p.now) (goes_at at))
        place_numbers 67 lim answer.old answer.new) }
{
    if !there {
        none_into(67, answer);
        return Some(at);
    }
    blob_at(s, p, lim, at, 67, answer)
}

fn text_into(
    there: bool,
    s: Settings,
    p: &[u8],
    lim: usize,
    from: usize,
    to: usize,
    at: usize,
    k: usize,
    answer: &mut [u64; READ],
) -> Option<usize>
    requires single { Single p.now lim from to }
    requires within { Within p.now lim at }
    requires k_bound { k + 1 < 75 }
    ensures { IfSome result (Into p.now (opt there nowhere (text s header_bound p.now) (goes_at at))
        place_numbers k lim answer.old answer.new) }
{
    if !there {
        none_into(k, answer);
        return Some(at);
    }
    text_at(s, p, lim, from, to, at, k, answer)
}

// A part, by its number's reader.
fn part_into(
    s: Settings,
    p: &[u8],
    lim: usize,
    from: usize,
    to: usize,
    at: usize,
    k: usize,
    answer: &mut [u64; READ],
) -> Option<usize>
    requires single { Single p.now lim from to }
    requires within { Within p.now lim at }
    requires k_bound { k + 1 < 75 }
    ensures { IfSome result (Into p.now (part s header_bound p.now (goes_at at))
        place_numbers k lim answer.old answer.new) }
{
    if lim <= at || light::octet(p, at) != 1 {
        return None;
    }
    text_at(s, p, lim, from, to, at + 1, k, answer)
}

// The end of a part whose length is a Varint, all of it among single octets.
fn quick_end(p: &[u8], lim: usize, from: usize, to: usize, at: usize) -> Option<usize>
    requires single { Single p.now lim from to }
    requires within { Within p.now lim at }
    ensures { IfSome result (Quick p.now from to at) }
{
    if at < from || to < at + 2 || light::octet(p, at) != 1 {
        return None;
    }
    let end = at + 2 + light::octet(p, at + 1) as usize;
    if to < end { None } else { Some(end) }
}

// A part: with Varints most are told at once.
fn part_at(
    s: Settings,
    p: &[u8],
    lim: usize,
    from: usize,
    to: usize,
    at: usize,
    k: usize,
    answer: &mut [u64; READ],
) -> Option<usize>
    requires single { Single p.now lim from to }
    requires within { Within p.now lim at }
    requires k_bound { k + 1 < 75 }
    ensures { IfSome result (Into p.now (part s header_bound p.now (goes_at at))
        place_numbers k lim answer.old answer.new) }
{
    if s.profile == PROFILE_FIXED {
        return part_into(s, p, lim, from, to, at, k, answer);
    }
    let Some(end) = quick_end(p, lim, from, to, at) else {
        return part_into(s, p, lim, from, to, at, k, answer);
    };
    place_into(k, at + 2, end - (at + 2), answer);
    Some(end)
}

// A place and a length.
fn place_into(k: usize, at: usize, length: usize, answer: &mut [u64; READ])
    requires { k + 1 < 75 }
    ensures { answer.new ≡ sets answer.old k (at ∷ length ∷ []) }
{
    answer[k] = at as u64;
    answer[k + 1] = length as u64;
}

// Two zeros where no part stands.
fn none_into(k: usize, answer: &mut [u64; READ])
    requires { k + 1 < 75 }
    ensures { answer.new ≡ sets answer.old k (place_numbers nowhere) }
{
    place_into(k, 0, 0, answer);
}

// No places from a part on.
fn no_places(from: usize, answer: &mut [u64; READ])
    requires { from ≤ 16 }
    ensures { (ps : List Place) (l : List ℕ) → NoneFrom ps from → answer.old ≡ sets l 35 (places_to from ps)
        → answer.new ≡ sets l 35 (places_to 16 ps) }
{
    for k in from..16 {
        none_into(35 + 2 * k, answer);
    }
}

// The places of n parts.
fn parts_into(
    s: Settings,
    p: &[u8],
    lim: usize,
    from: usize,
    to: usize,
    n: usize,
    start: usize,
    answer: &mut [u64; READ],
) -> Option<usize>
    requires single { Single p.now lim from to }
    requires within { Within p.now lim start }
    requires n_bound { n ≤ 16 }
    ensures { IfSome result (Into p.now (parts_to s header_bound p.now n (record { walk = goes_at start; value = no_parts n }))
        (λ d. places_to n d.places) 35 lim answer.old answer.new) }
{
    let mut at = start;
    for k in 0..n {
        at = part_at(s, p, lim, from, to, at, 35 + 2 * k, answer)?;
    }
    Some(at)
}

fn domain_into(
    there: bool,
    s: Settings,
    p: &[u8],
    lim: usize,
    from: usize,
    to: usize,
    at: usize,
    answer: &mut [u64; READ],
) -> Option<usize>
    requires single { Single p.now lim from to }
    requires within { Within p.now lim at }
    ensures { IfSome result (Into p.now (opt there (no_parts 0) (domain s header_bound p.now) (goes_at at))
        parts_numbers 34 lim answer.old answer.new) }
{
    if !there {
        answer[34] = 0;
        no_places(0, answer);
        return Some(at);
    }
    let n = number_at(s, p, lim, at)?;
    if 16 < n.value {
        return None;
    }
    answer[34] = n.value as u64;
    let end = parts_into(s, p, lim, from, to, n.value, n.next, answer)?;
    no_places(n.value, answer);
    Some(end)
}

// Whether a segment has a body.
fn has_body(seg: bool, p: &[u8], at: usize) -> bool
    ensures { result ≡ true → seg ≡ true → at < length p.now }
{
    !seg || at < p.len()
}

fn counter_size(seg: bool) -> usize
    ensures { result ≡ pick seg 4 0 }
{
    if seg { COUNTER } else { 0 }
}

// H and the body; no refusal, which tells nothing; and whether a zone is there. None for the long way.
fn end_into(seg: bool, f: u64, p: &[u8], at: usize, answer: &mut [u64; READ]) -> Option<()>
    requires at_in_bounds { at ≤ length p.now }
    requires seg_value { seg ≡ segmented p.now }
    ensures { IfSome result (λ _. Ended p.now f at answer.old answer.new) }
{
    let h = at.saturating_sub(6).saturating_sub(counter_size(seg));
    answer[69] = h as u64;
    answer[70] = at as u64;
    answer[71] = (p.len() - at) as u64;
    answer[72] = 0;
    answer[73] = 0;
    answer[74] = f / 8 % 2;
    if !has_body(seg, p, at) {
        return None;
    }
    Some(())
}

// No timestamp, no texts, no domain, no authentication id.
fn no_texts(answer: &mut [u64; READ])
    ensures { answer.new ≡ sets answer.old 28 (text_numbers no_texts) }
{
    answer[28..69].fill(0);
}

// All up to the presence octet, of which f are the flags.
fn fixed_into(f: u64, p: &[u8], answer: &mut [u64; READ])
    requires { 27 ≤ length p.now }
    ensures { answer.new ≡ sets answer.old 0 (front_numbers f p.now) }
{
    primary_into(p, answer);
    names_into(p, answer);
    routing_into(p, answer);
    flags_into(f, answer);
}

// Source id, destination id, segment counter, priority.
fn ids_into(
    s: Settings,
    f: u64,
    seg: bool,
    p: &[u8],
    lim: usize,
    answer: &mut [u64; READ],
) -> Option<usize>
    requires { Within p.now lim 27 }
    ensures { IfSome result (Into p.now (ids_of s header_bound seg (flags_of f) p.now (goes_at 27))
        ids_numbers 24 lim answer.old answer.new) }
{
    let a = octet_into(f / 128 % 2 == 1, p, lim, 27, 24, answer)?;
    let b = octet_into(f / 64 % 2 == 1, p, lim, a, 25, answer)?;
    let c = counter_into(seg, p, lim, b, answer)?;
    number_into(f / 32 % 2 == 1, s, p, lim, c, answer)
}

// Timestamp, network zone, session name, domain, authentication id.
fn texts_into(
    s: Settings,
    f: u64,
    p: &[u8],
    lim: usize,
    at: usize,
    answer: &mut [u64; READ],
) -> Option<usize>
    requires t_bound { s.t ≤ 16 }
    requires within { Within p.now lim at }
    ensures { IfSome result (Into p.now (texts_of s header_bound (flags_of f) p.now (goes_at at))
        text_numbers 28 lim answer.old answer.new) }
{
    let a = block_into(f / 16 % 2 == 1, s.t, p, lim, at, answer)?;
    let to = single_if(f / 2 % 8 != 0, p, lim, a);
    let b = text_into(f / 8 % 2 == 1, s, p, lim, a, to, a, 30, answer)?;
    let c = text_into(f / 4 % 2 == 1, s, p, lim, a, to, b, 32, answer)?;
    let d = domain_into(f / 2 % 2 == 1, s, p, lim, a, to, c, answer)?;
    blob_into(f % 2 == 1, s, p, lim, d, answer)
}

// The whole answer; None for the long way.
fn all_into(s: Settings, p: &[u8], answer: &mut [u64; READ]) -> Option<()>
    requires { Ready s p.now }
    ensures { IfSome result (λ _. answer.new ≡ read_numbers (read_packet s p.now)) }
{
    let lim = limit_of(p);
    let f = light::octet(p, 26);
    let seg = light::is_segment(p);
    counted(*answer);
    fixed_into(f, p, answer);
    let d = ids_into(s, f, seg, p, lim, answer)?;
    let j = texts_into(s, f, p, lim, d, answer)?;
    end_into(seg, f, p, j, answer)
}

// The same for a packet whose presence flags are all 0.
fn plain_into(s: Settings, p: &[u8], answer: &mut [u64; READ]) -> Option<()>
    requires ready { Ready s p.now }
    requires p_value { octet_at p.now 26 ≡ 0 }
    ensures { IfSome result (λ _. answer.new ≡ read_numbers (read_packet s p.now)) }
{
    let lim = limit_of(p);
    let seg = light::is_segment(p);
    counted(*answer);
    fixed_into(0, p, answer);
    answer[24] = 0;
    answer[25] = 0;
    let c = counter_into(seg, p, lim, 27, answer)?;
    answer[27] = 0;
    no_texts(answer);
    end_into(seg, 0, p, c, answer)
}

// The short way, if the packet goes it.
fn short_into(s: Settings, p: &[u8], answer: &mut [u64; READ]) -> Option<()>
    ensures { IfSome result (λ _. answer.new ≡ read_numbers (read_packet s p.now)) }
{
    if !light::ready(s, p) {
        return None;
    }
    if light::octet(p, 26) == 0 {
        plain_into(s, p, answer)
    } else {
        all_into(s, p, answer)
    }
}

// Reading a packet into a lent answer.
pub fn read_into(t: u64, profile: u64, packet: &[u8], answer: &mut [u64; READ])
    ensures { answer.new ≡ read_numbers (read_packet (settings_of t profile) packet.now) }
{
    let s = flat::settings(t, profile);
    if short_into(s, packet, answer).is_none() {
        *answer = flat::read(t, profile, packet);
    }
}
