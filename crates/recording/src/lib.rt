// Joining a whole recording in hand, step by step, with a store of its own, under any settings.
//
// `steps` has the step. What comes out is never longer than the recording, so an output of its length is always enough.
#![tactic(auto)]

ghost use Rattle.std.specs.Prelude.{◌≡◌, ◌+◌, ◌≤◌, length, drop};
ghost use Rattle.std.proofs.lemmas.List.Edits.{sets};
ghost use Rattle.walk.specs.Walk.{refusal, begun};
ghost use Rattle.walk.specs.Told.{said};
ghost use Rattle.cells.specs.Rows.{zero_row};
ghost use Rattle.cells.specs.Order.{cell_size};
ghost use Rattle.steps.specs.Stepping.{found_in, room};
ghost use Rattle.recording.specs.Recording.{recorded, settings, empty_store};
ghost use Rattle.recording.specs.Answer.{why_said, answered};
ghost use Rattle.recording.specs.Ending.{past, reach, why_at, refused_by, recorded_of, out_recorded};

use cells::CELL;
use steps::Stands;
use walk::{Refused, Settings};

// The cells of the store that a recording in hand is joined with, and the octets of them all.
pub const CELLS: usize = 32;

pub const STORE: usize = 32768;

// T of a recording of which nothing else is said; it has Varints.
pub const TIMESTAMP: usize = 8;

// Why a recording in hand was left: it ends there; no mark follows; a torn mark or packet follows.
#[derive(Clone, Copy, Debug, PartialEq, Eq)]
pub enum Why {
    Ended,
    Unmarked,
    Torn,
}

// What is told of a recording in hand: why and at which place it stopped, and the octets of the output that are written.
#[derive(Clone, Copy, Debug, PartialEq, Eq)]
pub struct Recorded {
    pub why: Why,
    pub place: usize,
    pub written: usize,
}

// How far the steps have come in a recording and in the output.
#[derive(Clone, Copy)]
struct Reached {
    place: usize,
    written: usize,
}

// The settings of a recording of which nothing else is said.
pub fn usual() -> Settings
    ensures { result ≡ settings }
{
    Settings {
        t: TIMESTAMP,
        profile: walk::PROFILE_VARINT,
    }
}

// 15 for the settings, 21 for an output that is shorter than the recording.
fn check(s: Settings, n: usize, long: usize) -> Result<(), Refused>
    ensures { said result ≡ refusal (refused_by s n long) }
{
    s.check()?;
    if long < n {
        return Err(Refused::Output);
    }
    Ok(())
}

// All steps over a recording, from an empty store on, until one uses up no octet.
fn along(
    s: Settings,
    store: &mut [u8],
    zero: &[u8],
    x: &[u8],
    spare: &mut [u8],
    out: &mut [u8],
) -> Reached
    requires s_value { (begun s).refused ≡ 0 }
    requires zero_value { zero.now ≡ zero_row cell_size }
    requires store_value { store.old ≡ empty_store }
    requires room_in_bounds { 6 + room ≤ length spare.old }
    requires x_in_bounds { length x.now ≤ length out.old }
    ensures place_value { result.place ≡ reach x.now }
    ensures stop_value { past (found_in (drop result.place x.now)) ≡ 0 }
    ensures written_value { result.written ≡ length (recorded s x.now) }
    ensures out_after { out.new ≡ sets out.old 0 (recorded s x.now) }
{
    let n = x.len();
    let mut place: usize = 0;
    let mut written: usize = 0;
    loop {
        let d = steps::step_at(s, store, CELLS, zero, &x[place..n], spare, out, written);
        let used = d.used();
        let more = d.written();
        if used == 0 {
            return Reached {
                place: place,
                written: written,
            };
        }
        place += used;
        written += more;
    }
}

// Why the steps stopped, by what stands there; at a whole packet they do not.
fn why_at(rest: &[u8]) -> Why
    requires { past (found_in rest.now) ≡ 0 }
    ensures { why_said result ≡ why_at (found_in rest.now) }
{
    match steps::look(rest) {
        Stands::Nothing => Why::Ended,
        Stands::Other => Why::Unmarked,
        Stands::Cut => Why::Torn,
        Stands::Whole => Why::Torn,
    }
}

// Joins a whole recording in hand, with 32 cells, and writes its messages one after the other. The output may not be shorter than the
// recording; what is written is never longer.
pub fn join_all(s: Settings, recording: &[u8], out: &mut [u8]) -> Result<Recorded, Refused>
    ensures value { answered result ≡ recorded_of s (length out.old) recording.now }
    ensures out_after { out.new ≡ out_recorded s out.old recording.now }
{
    let n = recording.len();
    check(s, n, out.len())?;
    let zero = [0u8; CELL];
    let mut store = [0u8; STORE];
    let mut spare = [0u8; steps::SPACE];
    let end = along(s, &mut store, &zero, recording, &mut spare, out);
    let place = end.place;
    let why = why_at(&recording[place..n]);
    Ok(Recorded {
        why: why,
        place: place,
        written: end.written,
    })
}
