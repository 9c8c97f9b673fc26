//! The bounds of the log and of the records in their files.

/// The bounds of the log and of the records in their files. All are offsets, in bytes.
#[derive(Clone, Copy, Debug, PartialEq, Eq)]
pub struct Bounds {
    /// Where the log's entries begin. The bytes before belong to the caller: nothing here reads or writes them, except to
    /// copy a whole log.
    pub log_start: u64,
    /// Where the room for the log ends.
    pub log_end: u64,
    /// Where the records' file ends. An entry that reaches past it is damaged.
    pub records_end: u64,
}
