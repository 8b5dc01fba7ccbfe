// Standard output: what is written is counted, and a failure told with the place reached.
use crate::counts;
use counts::COUNTS;
use files::Sink;

// Tells a failed write.
fn not_written(to: &Sink, counts: &[u64; COUNTS]) {
    files::failed(
        files::why(to),
        b"writing failed after octet ",
        counts::at(counts, counts::WRITTEN),
    );
}

// Writes all of a slice to standard output, and counts the octets. Whether it was done; if not, that is told.
pub fn put(to: &mut Sink, x: &[u8], counts: &mut [u64; COUNTS]) -> bool {
    let n = files::write(to, x);
    counts::add(counts, counts::WRITTEN, n as u64);
    let is_done = n == x.len();
    if !is_done {
        not_written(to, counts);
    }
    is_done
}

// Ends standard output: a full disk may show only now. Whether it went well; if not, that is told.
pub fn close(rt: HostRuntime, to: &mut Sink, counts: &[u64; COUNTS]) -> bool {
    let is_done = files::finish(rt, to);
    if !is_done {
        not_written(to, counts);
    }
    is_done
}
