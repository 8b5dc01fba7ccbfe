// A whole recording joined, and a damaged one salvaged, over plain numbers: what `capi` hands to other languages, as `flat_store` has the
// store's calls.
//
// The answer is an array of numbers, the refusal first; if the call is refused the others are 0.
ghost use Rattle.std.specs.Prelude.{◌≡◌, length};
ghost use Rattle.walk.specs.Walk.{settings_of};
ghost use Rattle.recording.specs.Answer.{why_said, answered as recorded};
ghost use Rattle.recording.specs.Ending.{recorded_of, out_recorded};
ghost use Rattle.salvage.specs.Answer.{answered};
ghost use Rattle.salvage.specs.Listing.{stop};
ghost use Rattle.salvage.specs.Calling.{salvaged, list_after};
ghost use Rattle.flat_store.specs.Recordings.{why_number, recorded_numbers, salvaged_numbers};

use recording::{Recorded, Why};
use salvage::{Salvaged, Stop};
use walk::{Refused, Settings};

fn why_number(w: Why) -> u64
    ensures { result ≡ why_number (why_said w) }
{
    match w {
        Why::Ended => 1,
        Why::Unmarked => 2,
        Why::Torn => 3,
    }
}

fn recorded_numbers(r: Result<Recorded, Refused>) -> [u64; 4]
    ensures { result ≡ recorded_numbers (recorded r) }
{
    match r {
        Ok(told) => [
            0,
            told.written as u64,
            told.place as u64,
            why_number(told.why),
        ],
        Err(refused) => [refused.number() as u64, 0, 0, 0],
    }
}

// A whole recording is joined: the refusal, the octets written, and where and why it stopped: 1 ended, 2 no mark, 3 torn.
pub fn join_recording(t: u64, profile: u64, recording: &[u8], out: &mut [u8]) -> [u64; 4]
    ensures value { result ≡ recorded_numbers (recorded_of (settings_of t profile) (length out.old) recording.now) }
    ensures out_after { out.new ≡ out_recorded (settings_of t profile) out.old recording.now }
{
    let s = Settings {
        t: t as usize,
        profile: profile,
    };
    recorded_numbers(recording::join_all(s, recording, out))
}

fn salvaged_numbers(r: Result<Salvaged, Refused>) -> [u64; 6]
    ensures { result ≡ salvaged_numbers (answered r) }
{
    match r {
        Ok(told) => [
            0,
            told.tested as u64,
            told.entries as u64,
            told.stop.begin as u64,
            told.stop.place as u64,
            octets::bit_of(told.done),
        ],
        Err(refused) => [refused.number() as u64, 0, 0, 0, 0, 0],
    }
}

// A file is salvaged from a state on: the refusal, the places tested, the entries listed, where the open stretch begins, the next place,
// and 1 if the whole file is listed.
pub fn salvage(
    t: u64,
    profile: u64,
    file: &[u8],
    begin: u64,
    place: u64,
    grant: u64,
    list: &mut [u64],
) -> [u64; 6]
    ensures value { result ≡ salvaged_numbers (salvaged (settings_of t profile) file.now (stop begin place) grant (length list.old)) }
    ensures list_after { list.new ≡ list_after (settings_of t profile) file.now (stop begin place) grant list.old }
{
    let s = Settings {
        t: t as usize,
        profile: profile,
    };
    let stop = Stop {
        begin: begin as usize,
        place: place as usize,
    };
    salvaged_numbers(salvage::salvage(s, file, stop, grant as usize, list))
}
