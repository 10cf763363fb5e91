//! Input and output: where the bytes of a specification come from, and where those of a listing go.
//!
//! A [`Source`] and a [`Sink`] remember whether one of their calls has failed; [`FromRead`] and [`FromWrite`] make them
//! from std's readers and writers. [`read_text`] reads a whole text within a limit, and [`write_bytes`] writes all
//! bytes.
#![tactic(auto)]

mod byte_output;
mod device;
mod text_input;

pub use byte_output::write_bytes;
pub use device::{DeviceFailed, FromRead, FromWrite, Sink, Source};
pub use text_input::{ReadFault, read_text};
