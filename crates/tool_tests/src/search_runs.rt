//! Complete runs of searches over all operators, with every option: the output, the message, and the status.

mod bounds;
mod deadlocks_and_elements;
mod enabling_and_parallel;
mod known_gates;
mod label_sets;
mod lengths;
mod limits;
mod marks;
mod operator_rows;
mod refused_sets;
mod repetition;
mod strong;
