//! Keeps a text with a table of numbers and with records in it, in a file that is changed in place: a keeping costs what has changed of
//! the table and of the records, and the two texts around the table.
//!
//! The file has a head at byte 4,096, the pages of the table from byte 8,192 on, those of the records behind them, and behind the last page
//! the text before the table and the one behind it (`specs/Layout.antt`). A keeping is one batch of a redo log, so a crash at any moment leaves the text that was kept
//! before or the new one, whole.
#![tactic(auto)]

mod head;
mod keeper;
mod kept_text;
mod laws;
mod opening;
mod pages;
mod reading;
mod text;
mod text_history;
mod told;

pub use keeper::TextKeeper;
pub use kept_text::{FORMAT, KeptText, write_first};
pub use laws::{first_life, one_text, rows, written_files_hold};
pub use opening::OpenError;
pub use reading::{Around, Text};
pub use text::{ChangedNumbers, ChangedRecords, TextParts, check_of};
