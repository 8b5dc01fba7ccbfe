// The sender's two running numbers: the sequence count of the next packet, and the counter of the next segment.
//
// `after_packet` and `after_segment` hand back the state after one packet, whole or a segment, `after_message` the state after a
// message; they refuse nothing. After the largest of each number comes 0, so there is always a next one. How many packets a message takes
// is for crate `cut`.
#![tactic(auto)]

ghost use Rattle.std.specs.Prelude.{◌≡◌};
ghost use Rattle.sender.specs.Sending.{counter_after, after_packet, after_segment, after_segments, after_message};

use packet::{SegmentCounter, SequenceCount};

// How many counters there are.
const COUNTERS: u64 = 4294967296;

// The sender's two running numbers.
#[derive(Clone, Copy)]
pub struct Sender {
    pub sequence_count: SequenceCount,
    pub counter: SegmentCounter,
}

// How a message is sent: as one unsegmented packet, or as so many segments.
#[derive(Clone, Copy)]
pub enum Sent {
    Whole,
    Segments(usize),
}

// The counter n segments on: 0 follows 4,294,967,295.
pub fn counter_after(c: SegmentCounter, n: usize) -> SegmentCounter
    ensures { result ≡ counter_after n c }
{
    let x = c.0 as u64 + n as u64 % COUNTERS;
    if x < COUNTERS {
        return SegmentCounter(x as u32);
    }
    SegmentCounter((x - COUNTERS) as u32)
}

impl Sender {
    // The state after an unsegmented packet.
    pub fn after_packet(self) -> Sender
        ensures { result ≡ after_packet self }
    {
        let later = packet::next_sequence_count(self.sequence_count);
        let counter = self.counter;
        Sender {
            sequence_count: later,
            counter: counter,
        }
    }

    // The state after n segments: both numbers move.
    fn after_segments(self, n: usize) -> Sender
        ensures { result ≡ after_segments n self }
    {
        let counter = counter_after(self.counter, n);
        let sequence_count = packet::sequence_count_after(self.sequence_count, n);
        Sender {
            sequence_count: sequence_count,
            counter: counter,
        }
    }

    // The state after a segment.
    pub fn after_segment(self) -> Sender
        ensures { result ≡ after_segment self }
    {
        self.after_segments(1)
    }

    // The state after a message.
    pub fn after_message(self, sent: Sent) -> Sender
        ensures { result ≡ after_message sent self }
    {
        match sent {
            Sent::Whole => self.after_packet(),
            Sent::Segments(n) => self.after_segments(n),
        }
    }
}
