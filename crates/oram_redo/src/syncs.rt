//! Whether a pair of the system's files is synced.

/// Whether the system is asked to bring what was written to the disk.
#[derive(Clone, Copy, Debug, PartialEq, Eq)]
pub enum Syncs {
    /// Each sync is made.
    Made,
    /// No sync is made, and each counts as done. The system's memory keeps what was written when a process ends, whenever that is. So what
    /// contracts say of a crash is true of the end of the process at any moment; after a loss of power, the files may hold anything.
    LeftOut,
}
