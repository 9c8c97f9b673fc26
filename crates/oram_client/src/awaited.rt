//! Messages that were sent, and whose answers are still to be read.

use crate::dialer::Trouble;

/// What became of messages that were to be sent ahead of their answers over a connection.
#[derive(Debug, Drop)]
pub enum Sending<L> {
    /// They were sent over this connection, and their answers are due.
    Sent(L),
    /// They have to go otherwise than ahead. Nothing was sent.
    Unsent(L),
    /// Sending them failed, and the connection is closed.
    Failed(Trouble),
}

/// A batch whose messages were to go ahead of their answers.
#[derive(Debug, Drop)]
pub struct AheadBatch<L> {
    /// What the clock read before they were sent, in milliseconds.
    pub begin: Option<u64>,
    pub sending: Sending<L>,
}

/// How far a batch has come whose messages were sent, and whose answers are taken one by one.
#[derive(Debug, Drop)]
pub struct Progress {
    /// How many of the batch's own messages have no answer yet.
    pub left: usize,
    /// Whether the host had no room for one of those that have an answer.
    pub no_room: bool,
    /// The message that puts the batch's stamp as begun, until its answer is read; `None` also if the batch goes without a stamp.
    pub begun: Option<Vec<u8>>,
    /// The message that puts the batch's stamp as done, until its answer is read; `None` also if the batch goes without a stamp.
    pub done: Option<Vec<u8>>,
}

/// A batch that was begun, and the connection over which its answers come.
#[derive(Debug, Drop)]
pub struct BegunBatch<L> {
    pub line: L,
    pub progress: Progress,
}

/// A batch whose answers a link is still to receive.
#[derive(Debug, Drop)]
pub enum Awaited<L> {
    /// All at once: its messages were to go ahead of them.
    Ahead(AheadBatch<L>),
    /// One by one.
    Begun(BegunBatch<L>),
}
