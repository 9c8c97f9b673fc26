//! The head of the file: how long the parts of a text are, and the checksum of two of them.
ghost use Rattle.std.specs.Prelude.{◌≡◌, ◌↔◌, ◌<◌, ◌*◌, ◌+◌, ◌^◌, IsSomeAnd, IsTrue, IfOk, IfSome, length};
ghost use Rattle.oram_kept.specs.Layout.{HaveRoom, eight_bytes, head_of, pages_for};
ghost use Rattle.oram_kept.specs.Reading.{Says, SaysRoom, head_bytes, records_place, texts_place};

use crate::pages::{NUMBER_LEN, PAGE_LEN, TABLE_AT, is_check_of, pages_for};
use oram_redo::check_of;
use std::alloc::{AllocError, Global};

/// Where the head begins.
pub(crate) const HEAD_AT: u64 = 4_096;

/// The length of the head in bytes.
pub(crate) const HEAD_LEN: usize = 48;

/// How many bytes of the head have the checksum of them behind them.
const SAID_LEN: usize = 40;

/// What the head says of a text.
#[derive(Clone, Copy, Debug)]
pub(crate) struct Head {
    /// How many bytes stand before the table.
    pub(crate) before: u64,
    /// How many numbers the table has.
    pub(crate) table: u64,
    /// How many bytes stand behind the table.
    pub(crate) after: u64,
    /// How many bytes the records have.
    pub(crate) records: u64,
    /// The checksum of the bytes before the table and behind it.
    pub(crate) check: u64,
}

/// Returns the number in eight bytes, the low byte first.
#[tactic(auto, unfolding(crate::specs::Layout::eight_bytes))]
fn eight_bytes_in(bytes: &[u8]) -> u64
    requires { length bytes.now ≡ 8 }
    ensures { eight_bytes result ≡ bytes.now }
{
    u64::from_le_bytes([
        bytes[0], bytes[1], bytes[2], bytes[3], bytes[4], bytes[5], bytes[6], bytes[7],
    ])
}

impl Head {
    /// Returns the bytes of the head.
    #[tactic(auto, unfolding(crate::specs::Layout::eight_bytes))]
    pub(crate) fn encode(&self, alloc: Global) -> Result<Vec<u8>, AllocError>
        ensures { IfOk result (λ bytes. bytes.items ≡ head_bytes self.now) }
    {
        let numbers = [
            self.before,
            self.table,
            self.after,
            self.records,
            self.check,
        ];
        let mut head = Vec::with_capacity(alloc, HEAD_LEN)?;
        for number in &numbers {
            head.extend_from_slice(&number.to_le_bytes())?;
        }
        let sum = check_of(&head);
        head.extend_from_slice(&sum)?;
        Ok(head)
    }

    /// Returns whether the lengths have room.
    fn has_room(&self) -> bool
        ensures { IsTrue result ↔ SaysRoom self.now }
    {
        let most = u64::from(u32::MAX);
        self.before <= most && self.table <= most && self.after <= most && self.records <= most
    }

    /// Returns what a head says, or `None` if no text has such a head.
    pub(crate) fn read(bytes: &[u8]) -> Option<Head>
        requires { length bytes.now ≡ 48 }
        ensures whole { IfSome result (λ head. bytes.now ≡ head_bytes head) }
        ensures room { IfSome result SaysRoom }
        ensures small { IfSome result (λ head. head.check < 2 ^ 64) }
        ensures found { (p : _) → HaveRoom p → bytes.now ≡ head_of p → IsSomeAnd result (λ head. Says head p) }
    {
        let (said, sum) = bytes.split_at(SAID_LEN);
        if !is_check_of(sum, said) {
            return None;
        }
        let head = Head {
            before: eight_bytes_in(&said[..8]),
            table: eight_bytes_in(&said[8..16]),
            after: eight_bytes_in(&said[16..24]),
            records: eight_bytes_in(&said[24..32]),
            check: eight_bytes_in(&said[32..]),
        };
        if !head.has_room() {
            return None;
        }
        Some(head)
    }

    /// Returns how many bytes the numbers of the table have.
    pub(crate) fn table_len(&self) -> usize
        requires { SaysRoom self.now }
        ensures { result ≡ 4 * self.now.table }
    {
        self.table as usize * NUMBER_LEN
    }

    /// Returns how many bytes the pages of the table take.
    pub(crate) fn table_pages_len(&self) -> usize
        requires { SaysRoom self.now }
        ensures { result ≡ pages_for (4 * self.now.table) * 1024 }
    {
        pages_for(self.table_len()) * PAGE_LEN
    }

    /// Returns how many bytes the pages of the records take.
    pub(crate) fn record_pages_len(&self) -> usize
        requires { SaysRoom self.now }
        ensures { result ≡ pages_for self.now.records * 1024 }
    {
        pages_for(self.records as usize) * PAGE_LEN
    }

    /// Returns the place of the first page of the records.
    pub(crate) fn records_at(&self) -> u64
        requires { SaysRoom self.now }
        ensures { result ≡ records_place self.now }
    {
        TABLE_AT + self.table_pages_len() as u64
    }

    /// Returns the place of the two texts, which stand one behind the other.
    pub(crate) fn texts_at(&self) -> u64
        requires { SaysRoom self.now }
        ensures { result ≡ texts_place self.now }
    {
        self.records_at() + self.record_pages_len() as u64
    }

    /// Returns how many bytes the two texts have.
    pub(crate) fn texts_len(&self) -> usize
        requires { SaysRoom self.now }
        ensures { result ≡ self.now.before + self.now.after }
    {
        self.before as usize + self.after as usize
    }
}
