//! Tests of states that are vectors, through the public items of `lotos_network`: what shapes offer, with values that the
//! inference rules give, and with the normal steps of the terms.
#![tactic(auto)]

#[cfg(test)]
mod network;
#[cfg(test)]
mod offer_tests;
#[cfg(test)]
mod shape_parts;
