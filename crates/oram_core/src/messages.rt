//! The bodies of the messages that a core sends.
ghost use Rattle.std.specs.Prelude.{◌≡◌, ℕ, List, ◌≤◌, ◌<◌, ◌+◌, ◌^◌, [], ◌∷◌, ◌++◌, length, map, vec_len, vec_capacity, IfOk};
ghost use Rattle.oram_wire.specs.HostMessages.{fetch_body, store_body};
ghost use Rattle.oram_semantics.specs.Events.{failed_reply};
ghost use Rattle.oram_semantics.specs.Messages.{message_place};
ghost use Rattle.oram_core.specs.Rooms.{IsRoom};

use byteorder::{BigEndian, ByteOrder};
use oram_bytes::Bytes;
use oram_semantics::{Reply, ReplyBody, Submission};
use oram_wire::{HEADER_LEN, fetch_header, store_header};
use std::alloc::{AllocError, Global};
use std::collections::VecDeque;

/// Returns the leaf that a FETCH or a STORE names.
pub fn leaf_named(message: &[u8]) -> u32
    requires { 6 ≤ length message.now }
    ensures { result ≡ message_place message.now }
{
    BigEndian::read_u32(&message[2..HEADER_LEN])
}

/// A message in two copies: one to keep in case the message is lost, and one to send.
#[derive(Drop)]
pub struct MessageCopies {
    pub kept: Bytes,
    pub sends: Vec<Bytes>,
}

impl MessageCopies {
    /// Makes the FETCH of a path.
    pub fn fetch(alloc: Global, tree: u8, leaf: u32) -> Result<MessageCopies, AllocError>
        ensures kept { IfOk result (λ s. s.kept ≡ fetch_body tree leaf) }
        ensures sends { IfOk result (λ s. s.sends.items ≡ fetch_body tree leaf ∷ []) }
    {
        let header = fetch_header(tree, leaf);
        let kept = Bytes::copy(alloc, &header)?;
        let mut sends = Vec::with_capacity(alloc, 1)?;
        sends.push(Bytes::copy(alloc, &header)?)?;
        Ok(MessageCopies { kept, sends })
    }
}

/// Makes the beginning of a STORE, with room for its records.
pub fn begun_store(
    alloc: Global,
    tree: u8,
    leaf: u32,
    records_len: usize,
) -> Result<Vec<u8>, AllocError>
    requires { records_len + 6 < 2 ^ 32 }
    ensures items { IfOk result (λ v. (records : List ℕ) → v.items ++ records ≡ store_body tree leaf records) }
    ensures len { IfOk result (λ v. vec_len v ≡ 6) }
    ensures room { IfOk result (λ v. records_len + 6 ≤ vec_capacity v) }
{
    let mut bytes = Vec::with_capacity(alloc, HEADER_LEN + records_len)?;
    bytes.extend_from_slice(&store_header(tree, leaf))?;
    Ok(bytes)
}

/// Room for everything that a step outputs, allocated before anything changes, so that nothing can fail afterwards.
#[derive(Drop)]
pub struct Room {
    sent: Vec<u8>,
    sends: Vec<Bytes>,
    failed: Vec<Reply>,
}

impl Room {
    /// Allocates room for a message of `message_len` bytes, and for the replies to `waiting` commands if the device
    /// fails.
    pub fn new(alloc: Global, message_len: usize, waiting: usize) -> Result<Room, AllocError>
        ensures { IfOk result (IsRoom message_len waiting) }
    {
        let sent = Vec::with_capacity(alloc, message_len)?;
        let sends = Vec::with_capacity(alloc, 1)?;
        let failed = Vec::with_capacity(alloc, waiting)?;
        Ok(Room {
            sent,
            sends,
            failed,
        })
    }

    /// Puts a message into the room, as a copy to keep and one to send.
    pub fn send(self, message: Vec<u8>) -> MessageCopies
        requires { (waiting : ℕ) × IsRoom (length message.items) waiting self }
        ensures kept { result.kept ≡ message.items }
        ensures sends { result.sends.items ≡ message.items ∷ [] }
    {
        let Room {
            mut sent,
            mut sends,
            ..
        } = self;
        if sent.extend_from_slice(&message).is_err() {
            unreachable!()
        }
        if sends.push(Bytes::from_vec(sent)).is_err() {
            unreachable!()
        }
        MessageCopies {
            kept: Bytes::from_vec(message),
            sends,
        }
    }

    /// Makes a reply to each command without a reply, saying that it failed.
    pub fn fail(self, queue: &VecDeque<Submission>) -> Vec<Reply>
        requires { (len : ℕ) × IsRoom len (length queue.now.items) self }
        ensures { result.items ≡ map failed_reply queue.now.items }
    {
        fill_failed(self.failed, queue)
    }
}

/// Makes a reply to each command without a reply, saying that it failed.
pub fn failed_replies(alloc: Global, queue: &VecDeque<Submission>) -> Result<Vec<Reply>, AllocError>
    ensures { IfOk result (λ v. v.items ≡ map failed_reply queue.now.items) }
{
    Ok(fill_failed(Vec::with_capacity(alloc, queue.len())?, queue))
}

/// Fills a vector, which has room for them, with a failed reply to each command.
fn fill_failed(mut replies: Vec<Reply>, queue: &VecDeque<Submission>) -> Vec<Reply>
    requires empty { replies.items ≡ [] }
    requires none { vec_len replies ≡ 0 }
    requires room { length queue.now.items ≤ vec_capacity replies }
    ensures { result.items ≡ map failed_reply queue.now.items }
{
    for at in 0..queue.len() {
        let submission = &queue[at];
        let failed = Reply {
            session: submission.session,
            ticket: submission.ticket,
            body: ReplyBody::Failed,
        };
        if replies.push(failed).is_err() {
            unreachable!()
        }
    }
    replies
}
