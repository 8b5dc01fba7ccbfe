// The optional fields that have a length, read and written: texts, the authentication id, the domain.
//
//   text, authentication id:  length | octets
//   domain:                   count  | 1 | length | octets | 1 | length | octets ..
//
// A length and a count are UIntegers, Varints or four octets, as the settings have them.
// A step of reading takes a reader, and answers where the field's content stands; refused, it leaves the reader where it was refused: a
// field of several steps where it began. A writing takes any buffer and any place: piece by
// piece, each whole or not at all, and answers the place after it. A `blob` is octets of any value; a `text` is written the same, and its
// octets are well-formed UTF-8, by crate `utf8`. Reading tests that; who writes has tested it before.
#![tactic(auto)]

ghost use Rattle.std.specs.Prelude.{◌≡◌, ◌+◌, ◌≤◌, IfOk, length, [], ◌∷◌};
ghost use Rattle.octets.specs.Laying.{laid, Lays};
ghost use Rattle.varint.specs.Varint.{write};
ghost use Rattle.walk.specs.Read.{Reads};
ghost use Rattle.fields.specs.Fields.{block, blob, text, marked_text, part};
ghost use Rattle.fields.specs.Form.{uinteger_octets, domain_octets, split, all_text};
ghost use Rattle.fields.specs.Inner.{domain_step, blob_pieces, text_pieces, part_pieces, parts_pieces, domain_pieces, capped_to, capped};

use walk::{PROFILE_FIXED, Reader, Refused, Settings, UINTEGER, ensure};

// The most parts that a domain holds.
pub const PARTS: usize = 16;

// The size that stands for all above the largest packet.
pub const SIZE_MOST: usize = 65543;

// Where a content stands and how long it is; zeros if there is none.
#[derive(Clone, Copy)]
pub struct Place {
    pub at: usize,
    pub length: usize,
}

// A place that is none.
pub const NOWHERE: Place = Place { at: 0, length: 0 };

// How many parts a domain has, and where each stands.
#[derive(Clone, Copy)]
pub struct Domain {
    pub count: usize,
    pub parts: [Place; 16],
}

// The domain that is none.
pub const NO_DOMAIN: Domain = Domain {
    count: 0,
    parts: [NOWHERE; 16],
};

// n octets, as they are.
#[tactic(auto, unfolding(crate::specs::Fields::block))]
pub fn read_block(reader: &mut Reader, n: usize) -> Result<Place, Refused>
    ensures { Reads (block n reader.old.bound reader.old.octets.now) reader.old reader.new result }
{
    let at = reader.at;
    reader.skip(n)?;
    Ok(Place { at, length: n })
}

// A length and as many octets: one field. Refused, the reader stands at its length.
pub fn read_blob(reader: &mut Reader) -> Result<Place, Refused>
    ensures reads { Reads (blob reader.old.settings reader.old.bound reader.old.octets.now) reader.old reader.new result }
    ensures inside { IfOk result (λ x. x.at + x.length ≤ length reader.old.octets.now) }
{
    let start = reader.at;
    let length = reader.uinteger()? as usize;
    let at = reader.at;
    match reader.skip(length) {
        Ok(()) => Ok(Place { at, length }),
        Err(refused) => {
            reader.at = start;
            Err(refused.began(start))
        }
    }
}

// A text: the same, tested for 28 once its octets are there.
pub fn read_text(reader: &mut Reader) -> Result<Place, Refused>
    ensures { Reads (text reader.old.settings reader.old.bound reader.old.octets.now) reader.old reader.new result }
{
    let place = read_blob(reader)?;
    let content = &reader.octets[place.at..place.at + place.length];
    ensure(utf8::is_text(content), Refused::Text)?;
    Ok(place)
}

// An octet of 1, else 11, and a text.
fn read_marked_text(reader: &mut Reader) -> Result<Place, Refused>
    ensures { Reads (marked_text reader.old.settings reader.old.bound reader.old.octets.now) reader.old reader.new result }
{
    let mark = reader.octet()?;
    ensure(mark == 1, Refused::DomainPart)?;
    read_text(reader)
}

// A domain part: one field. Refused, the reader stands at its octet of 1.
fn read_part(reader: &mut Reader) -> Result<Place, Refused>
    ensures { Reads (part reader.old.settings reader.old.bound reader.old.octets.now) reader.old reader.new result }
{
    let first = reader.at;
    match read_marked_text(reader) {
        Ok(place) => Ok(place),
        Err(refused) => {
            reader.at = first;
            Err(refused.began(first))
        }
    }
}

// A count, above sixteen refused by 13, and as many parts.
pub fn read_domain(reader: &mut Reader) -> Result<Domain, Refused>
    ensures { Reads (domain_step reader.old.settings reader.old.bound reader.old.octets.now) reader.old reader.new result }
{
    let count = reader.uinteger()? as usize;
    ensure(count <= PARTS, Refused::ManyParts)?;
    let mut parts = [NOWHERE; 16];
    for k in 0..count {
        parts[k] = read_part(reader)?;
    }
    Ok(Domain { count, parts })
}

// ---- writing: each field at a place of a lent buffer, and the place after it

fn put_varint(out: &mut [u8], at: usize, n: u64) -> usize
    ensures { Lays (laid out.old at) (write n ∷ []) out.new result }
{
    varint::put(out, at, n).unwrap_or(at)
}

pub fn put_uinteger(s: Settings, out: &mut [u8], at: usize, n: u64) -> usize
    ensures { Lays (laid out.old at) (uinteger_octets s n ∷ []) out.new result }
{
    if s.profile == PROFILE_FIXED {
        return octets::lay_number(out, at, UINTEGER, n);
    }
    put_varint(out, at, n)
}

pub fn put_blob(s: Settings, out: &mut [u8], at: usize, x: &[u8]) -> usize
    ensures { Lays (laid out.old at) (blob_pieces s x.now) out.new result }
{
    let start = put_uinteger(s, out, at, x.len() as u64);
    octets::lay(out, start, x)
}

pub fn put_text(s: Settings, out: &mut [u8], at: usize, x: &[u8]) -> usize
    ensures { Lays (laid out.old at) (text_pieces s x.now) out.new result }
{
    put_blob(s, out, at, x)
}

// A domain part: an octet of 1 and a text.
fn put_part(s: Settings, out: &mut [u8], at: usize, x: &[u8]) -> usize
    ensures { Lays (laid out.old at) (part_pieces s x.now) out.new result }
{
    let start = octets::lay_number(out, at, 1, 1);
    put_text(s, out, start, x)
}

// The parts of a text, each as long as its length says, as far as the text goes.
fn put_parts(s: Settings, out: &mut [u8], at: usize, x: &[u8], lengths: &[u64]) -> usize
    ensures { Lays (laid out.old at) (parts_pieces s (split lengths.now x.now)) out.new result }
{
    let mut next = at;
    let mut from: usize = 0;
    let mut k: usize = 0;
    while k < lengths.len() {
        let end = octets::within(x.len(), from, lengths[k] as usize);
        next = put_part(s, out, next, &x[from..end]);
        from = end;
        k += 1;
    }
    next
}

// A count and as many parts.
pub fn put_domain(s: Settings, out: &mut [u8], at: usize, x: &[u8], lengths: &[u64]) -> usize
    ensures { Lays (laid out.old at) (domain_pieces s (split lengths.now x.now)) out.new result }
{
    let start = put_uinteger(s, out, at, lengths.len() as u64);
    put_parts(s, out, start, x, lengths)
}

// ---- sizes: exact below a largest one, which stands for all that are larger, so that no sum overflows; for packets it is 65,543

// A sum, told up to a largest size.
pub fn plus_to(most: usize, a: usize, b: usize) -> usize
    ensures { result ≡ capped_to most (a + b) }
{
    if most <= a {
        return most;
    }
    if most - a <= b {
        return most;
    }
    a + b
}

pub fn plus(a: usize, b: usize) -> usize
    ensures { result ≡ capped (a + b) }
{
    plus_to(SIZE_MOST, a, b)
}

pub fn uinteger_size(s: Settings, n: u64) -> usize
    ensures { result ≡ length (uinteger_octets s n) }
{
    if s.profile == PROFILE_FIXED {
        return UINTEGER;
    }
    varint::size(n)
}

// The size of a text of n octets with its length, told up to a largest size.
pub fn text_size_to(most: usize, s: Settings, n: usize) -> usize
    ensures { result ≡ capped_to most (length (uinteger_octets s n) + n) }
{
    plus_to(most, uinteger_size(s, n as u64), n)
}

pub fn text_size(s: Settings, n: usize) -> usize
    ensures { result ≡ capped (length (uinteger_octets s n) + n) }
{
    text_size_to(SIZE_MOST, s, n)
}

// The size of a domain, likewise.
pub fn domain_size_to(most: usize, s: Settings, x: &[u8], lengths: &[u64]) -> usize
    ensures { result ≡ capped_to most (length (domain_octets s (split lengths.now x.now))) }
{
    let mut size = plus_to(most, 0, uinteger_size(s, lengths.len() as u64));
    let mut from: usize = 0;
    let mut k: usize = 0;
    while k < lengths.len() {
        let end = octets::within(x.len(), from, lengths[k] as usize);
        size = plus_to(
            most,
            size,
            plus_to(most, 1, text_size_to(most, s, end - from)),
        );
        from = end;
        k += 1;
    }
    size
}

pub fn domain_size(s: Settings, x: &[u8], lengths: &[u64]) -> usize
    ensures { result ≡ capped (length (domain_octets s (split lengths.now x.now))) }
{
    domain_size_to(SIZE_MOST, s, x, lengths)
}

// ---- what is text

// Each part of a text, as long as its length says, as far as the text goes, is text by itself.
pub fn parts_are_text(x: &[u8], lengths: &[u64]) -> bool
    ensures { result ≡ all_text (split lengths.now x.now) }
{
    if utf8::all_single(x) {
        return true;
    }
    let mut so_far = true;
    let mut from: usize = 0;
    let mut k: usize = 0;
    while k < lengths.len() {
        let n = lengths[k] as usize;
        let end = octets::within(x.len(), from, n);
        so_far = octets::both(so_far, utf8::is_text(&x[from..end]));
        from = end;
        k += 1;
    }
    so_far
}
