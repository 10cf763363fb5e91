//! The message and the status of each way in which a comparison ends, also of those that no run of a test can lead to.

use super::message_texts::expect_end;
use lotos_tool::{CompareRequest, Compared, ComparedPlace, Ended, Interface, Side, Stop};
use std::alloc::AllocError;

/// A request for a comparison with 300 as the bound on the terms and 400 as that on the pairs of sets.
fn compare_request() -> CompareRequest {
    CompareRequest {
        within: false,
        terms: 300,
        states: 400,
        interface: Interface::Whole,
        strong: false,
        progress: false,
        brief: false,
    }
}

/// Why a comparison stopped, its side, the sequence, its message and its status.
const COMPARE_STOPS: &[(Stop, Option<Side>, Option<&str>, &[u8], u8)] = &[
    (
        Stop::States,
        None,
        Some("A exit"),
        b"lotosseq: stopped: more than 400 pairs of sets; --states N allows more\n",
        4,
    ),
    (
        Stop::Terms,
        Some(Side::First),
        Some("<empty>"),
        b"lotosseq: stopped: more than 300 terms at <empty> in the first specification\n",
        4,
    ),
    (
        Stop::Terms,
        Some(Side::Second),
        Some("B A"),
        b"lotosseq: stopped: more than 300 terms at B A in the second specification\n",
        4,
    ),
    (
        Stop::Memory,
        None,
        None,
        b"lotosseq: E99 out of memory\n",
        5,
    ),
    (
        Stop::Write,
        None,
        None,
        b"lotosseq: output cannot be written\n",
        6,
    ),
];

#[test]
fn a_comparison_that_stopped(rt: HostRuntime) -> Result<(), AllocError> {
    let request = compare_request();
    for (cause, side, sequence, message, status) in COMPARE_STOPS {
        let place = match sequence {
            Some(text) => Some(ComparedPlace {
                side: *side,
                sequence: String::from_str(rt.alloc(), *text)?,
            }),
            None => None,
        };
        let ended = Ended::Stopped {
            cause: *cause,
            place,
        };
        expect_end(&rt, &request, &ended, *message, *status);
    }
    Ok(())
}

#[test]
fn a_comparison_that_is_done(rt: HostRuntime) {
    let request = compare_request();
    expect_end(&rt, &request, &Ended::Done(Compared::Differ), b"", 1);
    let one = b"lotosseq: no difference; 1 pair of sets\n";
    expect_end(&rt, &request, &Ended::Done(Compared::Alike(1)), one, 0);
    let many = b"lotosseq: no difference; 300 pairs of sets\n";
    expect_end(&rt, &request, &Ended::Done(Compared::Alike(300)), many, 0);
}
