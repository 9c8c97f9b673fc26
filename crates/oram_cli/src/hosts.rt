//! What can be wrong with the host of a disk.

/// Why a disk can't use its host.
#[derive(Clone, Copy, Debug, PartialEq, Eq)]
pub enum HostFault {
    /// The host can't be reached, or doesn't answer.
    OutOfReach,
    /// The host has no room.
    NoRoom,
    /// The host keeps another disk.
    AnotherDisk,
    /// The host keeps no disk.
    NoDisk,
    /// The host keeps a disk already, although a new one should be formatted there.
    Taken,
    /// The host refused a message of the formatting, or didn't keep what it was sent.
    Refused,
}
