//! How many visits are between two reports of progress, far into a search.

use super::memory_devices::ArrayWriter;
use lotos_report::{Messages, ProgressReport, Visited};

/// Three times the greatest number of visits between two reports.
const VISITS: usize = 3_145_728;

/// First each report comes after twice as many visits as the one before, and then each after 1,048,576 more. No visit has
/// 6 steps.
const REPORTS: &[u8] = b"lotosseq: 7 steps, 1024 states; 0 with 6 steps, 1024 with 7 so far
lotosseq: 7 steps, 2048 states; 0 with 6 steps, 2048 with 7 so far
lotosseq: 7 steps, 4096 states; 0 with 6 steps, 4096 with 7 so far
lotosseq: 7 steps, 8192 states; 0 with 6 steps, 8192 with 7 so far
lotosseq: 7 steps, 16384 states; 0 with 6 steps, 16384 with 7 so far
lotosseq: 7 steps, 32768 states; 0 with 6 steps, 32768 with 7 so far
lotosseq: 7 steps, 65536 states; 0 with 6 steps, 65536 with 7 so far
lotosseq: 7 steps, 131072 states; 0 with 6 steps, 131072 with 7 so far
lotosseq: 7 steps, 262144 states; 0 with 6 steps, 262144 with 7 so far
lotosseq: 7 steps, 524288 states; 0 with 6 steps, 524288 with 7 so far
lotosseq: 7 steps, 1048576 states; 0 with 6 steps, 1048576 with 7 so far
lotosseq: 7 steps, 2097152 states; 0 with 6 steps, 2097152 with 7 so far
lotosseq: 7 steps, 3145728 states; 0 with 6 steps, 3145728 with 7 so far
";

#[test]
fn reports_come_after_twice_as_many_visits_up_to_a_million_more(rt: HostRuntime) {
    let mut messages = Messages {
        stream: ArrayWriter::new(4096),
        terminal: false,
        keyboard: false,
    };
    let mut report = ProgressReport::new(&mut messages, Visited::States);
    for _ in 0..VISITS {
        report.visit(7);
    }
    assert_eq!(rt; messages.stream.got(), REPORTS);
}
