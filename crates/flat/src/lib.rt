// The calls over plain numbers and slices, which `capi` hands to other languages.
//
// Every number is one of 64 bits, and an answer is an array of them, the refusal first. A number is tested against the type of its
// field before it is made narrower: one too wide is 22, after 15 for T, the profile or P. Then the call itself is made, and its answer told.
#![tactic(auto)]

ghost use Rattle.std.specs.Prelude.{◌≡◌, true, false, ◌+◌, ◌≤◌, ◌<◌, ◌∷◌, eqb, length, MatchResult};
ghost use Rattle.sender.specs.declared.Sender.{Sender};
ghost use Rattle.std.proofs.lemmas.List.Edits.{sets};
ghost use Rattle.walk.specs.Walk.{settings_of};
ghost use Rattle.packet.specs.Reading.{read_packet, refused_header};
ghost use Rattle.packet.specs.Decoded.{whole};
ghost use Rattle.walk.specs.Told.{told};
ghost use Rattle.write.specs.Answer.{written};
ghost use Rattle.write.specs.Given.{lent_of};
ghost use Rattle.flat.specs.Given.{fits_to, FlagsFit, header_fits, present_from, header_of, packet_fits, packet_of, sender_fits, sender_of};
ghost use Rattle.flat.specs.Answers.{too_wide, next_numbers, write_refused, write_numbers, write_out, after_packet_numbers};
ghost use Rattle.flat.specs.Answers.{given, after_segment_numbers, cut_refused, count_numbers, packet_numbers, packet_out};
ghost use Rattle.flat.specs.Told.{primary_numbers, name_numbers, routing_numbers, present_numbers, ids_numbers, place_numbers, places_to};
ghost use Rattle.flat.specs.Told.{text_numbers, read_numbers, written_numbers, sender_numbers, counted_numbers, cut_numbers};

use cut::{Counted, Cut};
use fields::Place;
use packet::{
    Apid, Fixed, Header, Ids, Present, Primary, SecondaryApid, SegmentCounter, SequenceCount, Texts,
};
use sender::Sender;
use std::num::TryFromIntError;
use varint::{MOST_16, MOST_32};
use walk::{REFUSED_VALUE, Refused, Settings, Tested};
use write::{HeaderValues, LentTexts, PacketValues};

// How many numbers reading answers.
pub const READ: usize = 75;

// How many numbers a sender has, and how many its calls and those of cutting answer.
pub const SENDER: usize = 2;

pub const AFTER: usize = 3;

pub const CUT: usize = 4;

// The refusal of a number that is too wide for its field.
const TOO_WIDE: u64 = 22;

// How many numbers a header has.
pub const HEADER: usize = 24;

// How many numbers tell of a packet's texts.
const TEXTS: usize = 41;

// Numbers laid over others from a place on. Inner: the crates beside this one lay theirs by it too.
pub fn put<T: Copy>(out: &mut [T], at: usize, from: &[T])
    requires { at + length from.now ≤ length out.old }
    ensures { out.new ≡ sets out.old at from.now }
{
    out[at..at + from.len()].copy_from_slice(from);
}

// ---- the answer of reading

fn primary_numbers(p: Primary) -> [u64; 4]
    ensures { result ≡ primary_numbers p }
{
    [
        p.packet_type as u64,
        p.apid.0 as u64,
        p.flags as u64,
        p.sequence_count.0 as u64,
    ]
}

// SDU type to area version.
fn name_numbers(f: Fixed) -> [u64; 5]
    ensures { result ≡ name_numbers f }
{
    [
        f.sdu as u64,
        f.area as u64,
        f.service as u64,
        f.operation as u64,
        f.version as u64,
    ]
}

// Error to transaction id.
fn routing_numbers(f: Fixed) -> [u64; 6]
    ensures { result ≡ routing_numbers f }
{
    [
        f.error as u64,
        f.qos as u64,
        f.session as u64,
        f.secondary_apid.0 as u64,
        f.qualifier as u64,
        f.transaction,
    ]
}

// Inner: crate `flat_pdu` tells presence flags, places and texts by these too.
pub fn present_numbers(has: Present) -> [u64; 8]
    ensures { result ≡ present_numbers has }
{
    [
        u64::from(has.source),
        u64::from(has.destination),
        u64::from(has.priority),
        u64::from(has.timestamp),
        u64::from(has.zone),
        u64::from(has.session_name),
        u64::from(has.domain),
        u64::from(has.authentication),
    ]
}

fn ids_numbers(ids: Ids) -> [u64; 4]
    ensures { result ≡ ids_numbers ids }
{
    [
        ids.source as u64,
        ids.destination as u64,
        ids.counter.0 as u64,
        ids.priority as u64,
    ]
}

pub fn place_numbers(p: Place) -> [u64; 2]
    ensures { result ≡ place_numbers p }
{
    [p.at as u64, p.length as u64]
}

// Timestamp to authentication id.
pub fn text_numbers(texts: Texts) -> [u64; TEXTS]
    ensures { result ≡ text_numbers texts }
{
    let mut numbers = [0; TEXTS];
    put(&mut numbers, 0, &place_numbers(texts.timestamp));
    put(&mut numbers, 2, &place_numbers(texts.zone));
    put(&mut numbers, 4, &place_numbers(texts.session_name));
    numbers[6] = texts.count as u64;
    for (k, part) in texts.parts.iter().enumerate() {
        put(&mut numbers, 7 + 2 * k, &place_numbers(*part));
    }
    put(&mut numbers, 39, &place_numbers(texts.authentication));
    numbers
}

// The numbers of a header that was read: no refusal, and what is told beside none.
fn header_numbers(h: Header) -> [u64; READ]
    ensures { result ≡ read_numbers (whole h) }
{
    let mut answer = [0; READ];
    put(&mut answer, 1, &primary_numbers(h.primary));
    put(&mut answer, 5, &name_numbers(h.fixed));
    put(&mut answer, 10, &routing_numbers(h.fixed));
    put(&mut answer, 16, &present_numbers(h.has));
    put(&mut answer, 24, &ids_numbers(h.ids));
    put(&mut answer, 28, &text_numbers(h.texts));
    let [body, length] = place_numbers(h.body);
    let end = [h.h as u64, body, length, 0, 0, u64::from(h.withdrawn)];
    put(&mut answer, 69, &end);
    answer
}

// And of a refusal: what it tells, and zeros.
fn refused_numbers(refused: Refused) -> [u64; READ]
    ensures { result ≡ read_numbers (refused_header (told refused)) }
{
    let mut answer = [0; READ];
    answer[0] = refused.number() as u64;
    answer[72] = refused.octets() as u64;
    answer[73] = refused.place() as u64;
    answer
}

// The settings that two numbers stand for. Inner: the crates beside this one make theirs by it too.
pub fn settings(t: u64, profile: u64) -> Settings
    ensures { result ≡ settings_of t profile }
{
    Settings {
        t: t as usize,
        profile,
    }
}

// Reading a packet.
pub fn read(t: u64, profile: u64, packet: &[u8]) -> [u64; READ]
    ensures { result ≡ read_numbers (read_packet (settings_of t profile) packet.now) }
{
    match packet::read(settings(t, profile), packet) {
        Ok(h) => header_numbers(h),
        Err(refused) => refused_numbers(refused),
    }
}

// ---- numbers to values

// A number is too wide for the type of its field.
#[derive(Clone, Copy, Debug, PartialEq, Eq)]
pub struct TooWide;

impl From<TryFromIntError> for TooWide {
    fn from(_error: TryFromIntError) -> TooWide {
        TooWide
    }
}

// Whether each number is at most the width beside it. Inner: crate `laying` tests its limits by it.
pub fn fits(list: &[u64], widths: &[u64]) -> bool
    requires { length widths.now ≤ length list.now }
    ensures { result ≡ fits_to (length widths.now) list.now widths.now }
{
    list.iter().zip(widths).all(|(n, most)| n <= most)
}

fn flag_of(n: u64) -> Result<bool, TooWide>
    ensures { MatchResult result (λ b. (n ≤ 1) × (b ≡ eqb n 1)) (λ _. 1 < n) }
{
    match n {
        0 => Ok(false),
        1 => Ok(true),
        _ => Err(TooWide),
    }
}

// Eight presence flags from a place on. Inner: crate `flat_pdu` reads its flags by it too.
pub fn present_of(l: &[u64], at: usize) -> Result<Present, TooWide>
    requires { at + 8 ≤ length l.now }
    ensures { MatchResult result (λ has. FlagsFit at l.now × (has ≡ present_from at l.now)) (λ _. FlagsFit at l.now → ⊥) }
{
    Ok(Present {
        source: flag_of(l[at])?,
        destination: flag_of(l[at + 1])?,
        priority: flag_of(l[at + 2])?,
        timestamp: flag_of(l[at + 3])?,
        zone: flag_of(l[at + 4])?,
        session_name: flag_of(l[at + 5])?,
        domain: flag_of(l[at + 6])?,
        authentication: flag_of(l[at + 7])?,
    })
}

fn header_of(h: &[u64; HEADER]) -> Result<HeaderValues, TooWide>
    ensures { MatchResult result (λ v. (header_fits h.now ≡ true) × (v ≡ header_of h.now)) (λ _. header_fits h.now ≡ false) }
{
    Ok(HeaderValues {
        packet_type: u8::try_from(h[0])?,
        apid: Apid(u16::try_from(h[1])?),
        sdu: u8::try_from(h[2])?,
        area: u32::try_from(h[3])?,
        service: u32::try_from(h[4])?,
        operation: u32::try_from(h[5])?,
        version: u16::try_from(h[6])?,
        error: u8::try_from(h[7])?,
        qos: u8::try_from(h[8])?,
        session: u8::try_from(h[9])?,
        secondary_apid: SecondaryApid(u16::try_from(h[10])?),
        qualifier: u32::try_from(h[11])?,
        transaction: h[12],
        has: present_of(h, 13)?,
        source: u16::try_from(h[21])?,
        destination: u16::try_from(h[22])?,
        priority: h[23],
    })
}

// A packet's own values.
fn packet_of(flags: u64, sequence_count: u64, counter: u64) -> Result<PacketValues, TooWide>
    ensures { MatchResult result
        (λ o. (packet_fits flags sequence_count counter ≡ true) × (o ≡ packet_of flags sequence_count counter))
        (λ _. packet_fits flags sequence_count counter ≡ false) }
{
    Ok(PacketValues {
        flags: u8::try_from(flags)?,
        sequence_count: SequenceCount(u16::try_from(sequence_count)?),
        counter: SegmentCounter(u32::try_from(counter)?),
    })
}

// Inner: crate `laying` uses it too.
pub fn sender_of(d: &[u64; SENDER]) -> Result<Sender, TooWide>
    ensures { MatchResult result (λ a. (sender_fits d.now ≡ true) × (a ≡ sender_of d.now)) (λ _. sender_fits d.now ≡ false) }
{
    Ok(Sender {
        sequence_count: SequenceCount(u16::try_from(d[0])?),
        counter: SegmentCounter(u32::try_from(d[1])?),
    })
}

// ---- values to numbers

fn sender_numbers(d: Sender) -> [u64; SENDER]
    ensures { result ≡ sender_numbers d }
{
    [d.sequence_count.0 as u64, d.counter.0 as u64]
}

fn counted_numbers(r: Counted) -> [u64; CUT]
    ensures { result ≡ counted_numbers r }
{
    let [count, counter] = sender_numbers(r.sender);
    [r.refusal.number as u64, r.count as u64, count, counter]
}

fn cut_numbers(r: Cut) -> [u64; CUT]
    ensures { result ≡ cut_numbers r }
{
    let [count, counter] = sender_numbers(r.sender);
    [r.refusal.number as u64, r.length as u64, count, counter]
}

// ---- the calls

// The next sequence count.
pub fn next_sequence_count(sequence_count: u64) -> [u64; 2]
    ensures { result ≡ next_numbers sequence_count }
{
    match u16::try_from(sequence_count) {
        Ok(count) => {
            let next = packet::next_sequence_count(SequenceCount(count));
            [0, next.0 as u64]
        }
        Err(_) => [TOO_WIDE, 0],
    }
}

// The refusal of a number that does not fit, after that of the settings.
fn too_wide(r: Tested) -> u64
    ensures { result ≡ too_wide r }
{
    walk::unless(r, false, REFUSED_VALUE).number as u64
}

fn write_too_wide(s: Settings) -> [u64; 2]
    ensures { result ≡ write_refused s }
{
    let none = Tested { number: 0 };
    [too_wide(write::test_settings(s, none)), 0]
}

fn written_numbers(w: Result<usize, Refused>) -> [u64; 2]
    ensures { result ≡ written_numbers (written w) }
{
    match w {
        Ok(length) => [0, length as u64],
        Err(refused) => [refused.number() as u64, 0],
    }
}

// Writing one packet.
pub fn write(
    t: u64,
    profile: u64,
    header: &[u64; HEADER],
    texts: LentTexts,
    flags: u64,
    sequence_count: u64,
    counter: u64,
    body: &[u8],
    out: &mut [u8],
) -> [u64; 2]
    ensures { let x = lent_of texts.entry in let s = settings_of t profile in
        (result ≡ write_numbers s header.now x flags sequence_count counter body.now (length out.old))
        × (out.new ≡ write_out s header.now x flags sequence_count counter body.now out.old) }
{
    let s = settings(t, profile);
    let Ok(values) = header_of(header) else {
        return write_too_wide(s);
    };
    let Ok(own) = packet_of(flags, sequence_count, counter) else {
        return write_too_wide(s);
    };
    written_numbers(write::write(s, values, own, texts, body, out))
}

// A sender's numbers after a step of it, or as they are if they are too wide.
fn moved<F: FnOnce(Sender) -> Sender>(sender: &[u64; SENDER], step: F) -> [u64; AFTER]
    requires { F.IsAlwaysCallable step }
    ensures fits { sender_fits sender.now ≡ true → (d : Sender) × F.post step (sender_of sender.now) d × (result ≡ 0 ∷ sender_numbers d) }
    ensures too_wide { sender_fits sender.now ≡ false → result ≡ 22 ∷ given sender.now }
{
    match sender_of(sender) {
        Ok(d) => {
            let [count, counter] = sender_numbers(step(d));
            [0, count, counter]
        }
        Err(TooWide) => {
            let [count, counter] = *sender;
            [TOO_WIDE, count, counter]
        }
    }
}

// The sender's numbers after an unsegmented packet.
pub fn after_packet(sender: &[u64; SENDER]) -> [u64; AFTER]
    ensures { result ≡ after_packet_numbers sender.now }
{
    moved(sender, Sender::after_packet)
}

// The sender's numbers after a segment.
pub fn after_segment(sender: &[u64; SENDER]) -> [u64; AFTER]
    ensures { result ≡ after_segment_numbers sender.now }
{
    moved(sender, Sender::after_segment)
}

fn cut_too_wide(s: Settings, p: u64, sender: &[u64; SENDER]) -> [u64; CUT]
    ensures { result ≡ cut_refused s p sender.now }
{
    let none = Tested { number: 0 };
    let number = too_wide(cut::test_limit(s, p as usize, none));
    let [count, counter] = *sender;
    [number, 0, count, counter]
}

// The number of packets of a message, and the sender's numbers after it.
pub fn cut_count(
    t: u64,
    profile: u64,
    p: u64,
    header: &[u64; HEADER],
    texts: LentTexts,
    body: u64,
    sender: &[u64; SENDER],
) -> [u64; CUT]
    ensures { result ≡ count_numbers (settings_of t profile) p header.now
        (lent_of texts.entry) body sender.now }
{
    let s = settings(t, profile);
    let Ok(values) = header_of(header) else {
        return cut_too_wide(s, p, sender);
    };
    let Ok(d) = sender_of(sender) else {
        return cut_too_wide(s, p, sender);
    };
    counted_numbers(cut::count(s, p as usize, values, texts, body as usize, d))
}

// Packet number i of a message.
pub fn cut_packet(
    t: u64,
    profile: u64,
    p: u64,
    header: &[u64; HEADER],
    texts: LentTexts,
    body: &[u8],
    sender: &[u64; SENDER],
    i: u64,
    out: &mut [u8],
) -> [u64; CUT]
    ensures { let x = lent_of texts.entry in let s = settings_of t profile in
        (result ≡ packet_numbers s p header.now x body.now sender.now i (length out.old))
        × (out.new ≡ packet_out s p header.now x body.now sender.now i out.old) }
{
    let s = settings(t, profile);
    let Ok(values) = header_of(header) else {
        return cut_too_wide(s, p, sender);
    };
    let Ok(d) = sender_of(sender) else {
        return cut_too_wide(s, p, sender);
    };
    cut_numbers(cut::packet(s, p as usize, values, texts, body, d, i as usize, out))
}
