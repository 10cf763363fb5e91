//! Runs on inputs that are larger than one or two bytes can count: none may end as out of memory. Such runs with more
//! than 65,535 terms and states are the stored runs of `status_zero` and `status_one`.

mod lines_and_runs;
mod many_warnings;
mod processes;
