//! Tests of the command line through the public items of `lotos_command`: words, and the request, the help or the fault
//! that they make.
#![tactic(auto)]

#[cfg(test)]
mod interface_tests;
#[cfg(test)]
mod number_tests;
#[cfg(test)]
mod request_tests;
