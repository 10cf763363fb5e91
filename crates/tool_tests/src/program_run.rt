//! A complete run of the program with words that fit no command.

use super::runs::{Run, SINGLE_BYTES, UNREAD, expect_parts};

#[test]
fn words_that_fit_no_command_touch_neither_input_nor_output(rt: HostRuntime) {
    let run = Run {
        words: &["lotosseq", "--nothing"],
        text: b"specification S: noexit behaviour stop endspec",
        ..SINGLE_BYTES
    };
    expect_parts(&rt, rt.alloc(), &run, &UNREAD);
}
