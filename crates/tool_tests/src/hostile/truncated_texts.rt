//! Every proper prefix of a text that is accepted.

use super::expect_refused;

const TEXT: &[u8] = b"specification S [a,b] : exit behaviour a; b; exit endspec";

/// The least and the greatest length of prefixes with the same message, and the message. A keyword that is cut short is
/// another word; otherwise the text ends too early.
const ROWS: &[(usize, usize, &[u8])] = &[
    (0, 0, b"lotosseq: 1:1: E06 text ends too early\n"),
    (1, 12, b"lotosseq: 1:1: E04 token is not expected\n"),
    (13, 13, b"lotosseq: 1:14: E06 text ends too early\n"),
    (14, 14, b"lotosseq: 1:15: E06 text ends too early\n"),
    (15, 15, b"lotosseq: 1:16: E06 text ends too early\n"),
    (16, 16, b"lotosseq: 1:17: E06 text ends too early\n"),
    (17, 17, b"lotosseq: 1:18: E06 text ends too early\n"),
    (18, 18, b"lotosseq: 1:19: E06 text ends too early\n"),
    (19, 19, b"lotosseq: 1:20: E06 text ends too early\n"),
    (20, 20, b"lotosseq: 1:21: E06 text ends too early\n"),
    (21, 21, b"lotosseq: 1:22: E06 text ends too early\n"),
    (22, 22, b"lotosseq: 1:23: E06 text ends too early\n"),
    (23, 23, b"lotosseq: 1:24: E06 text ends too early\n"),
    (24, 24, b"lotosseq: 1:25: E06 text ends too early\n"),
    (25, 27, b"lotosseq: 1:25: E04 token is not expected\n"),
    (28, 28, b"lotosseq: 1:29: E06 text ends too early\n"),
    (29, 29, b"lotosseq: 1:30: E06 text ends too early\n"),
    (30, 37, b"lotosseq: 1:30: E04 token is not expected\n"),
    (38, 38, b"lotosseq: 1:39: E06 text ends too early\n"),
    (39, 39, b"lotosseq: 1:40: E06 text ends too early\n"),
    (40, 40, b"lotosseq: 1:41: E06 text ends too early\n"),
    (41, 41, b"lotosseq: 1:42: E06 text ends too early\n"),
    (42, 42, b"lotosseq: 1:43: E06 text ends too early\n"),
    (43, 43, b"lotosseq: 1:44: E06 text ends too early\n"),
    (44, 44, b"lotosseq: 1:45: E06 text ends too early\n"),
    (45, 45, b"lotosseq: 1:46: E06 text ends too early\n"),
    (46, 46, b"lotosseq: 1:47: E06 text ends too early\n"),
    (47, 47, b"lotosseq: 1:48: E06 text ends too early\n"),
    (48, 48, b"lotosseq: 1:49: E06 text ends too early\n"),
    (49, 49, b"lotosseq: 1:50: E06 text ends too early\n"),
    (50, 50, b"lotosseq: 1:51: E06 text ends too early\n"),
    (51, 56, b"lotosseq: 1:51: E04 token is not expected\n"),
];

#[test]
fn each_beginning_is_refused(rt: HostRuntime) {
    for (first, last, message) in ROWS {
        for length in *first..=*last {
            let text = &TEXT[..length.min(57)];
            expect_refused(&rt, rt.alloc(), "a beginning", text, *message);
        }
    }
}
