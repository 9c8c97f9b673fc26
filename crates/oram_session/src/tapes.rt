//! The tapes: one from a list, and one from a stream cipher.

mod chacha;
mod list;

pub use chacha::ChaChaTape;
pub use list::ListTape;
