//! Stamps, and the records in which a host keeps them.
ghost use Rattle.std.specs.Prelude.{◌≡◌, ◌≢◌, ◌++◌, ◌<◌, ◌^◌, ℕ, List, None, IfOk, IfSome, OnOk, length, MatchBool};
ghost use Rattle.std.specs.Int.{w64, to_be_bytes};
ghost use Rattle.oram_stamps.specs.Known.{Covers};
ghost use Rattle.oram_stamps.specs.Stamps.{AreNumbers, mask, place_byte, record_text, shown_text, stamp_text, tag};
ghost use Rattle.oram_stamps.specs.declared.stamp.Shown.{Shown};
ghost use Rattle.oram_stamps.specs.declared.stamp.Stamp.{Stamp};

use sha2::{Digest, Sha256};
use std::alloc::{AllocError, Global};
use std::fmt;

/// The length of a stamp's record in bytes: the stamp, and its tag.
pub const RECORD_LEN: usize = 48;

/// The name of one batch of messages, which belongs to one keeping of a client's state.
#[derive(Clone, Copy, Debug)]
pub struct Stamp {
    /// Greater than that of each batch before.
    pub number: u64,
    /// The check of the process that was kept, masked by [`masked`].
    pub check: u64,
}

/// The key of the tags of a disk's stamps.
#[derive(Clone, Copy)]
pub struct StampKey(pub [u8; 32]);

// The key is not shown.
impl fmt::Debug for StampKey {
    fn fmt<W: fmt::Write>(&self, f: &mut fmt::Formatter<W>) -> fmt::Result {
        f.write_str("StampKey(..)")
    }
}

/// Which of its two stamps a host keeps in a record.
#[derive(Clone, Copy, Debug, PartialEq, Eq)]
pub enum Place {
    /// The stamp of the batch that the host began to receive last.
    Begun,
    /// The stamp of the last batch whose STOREs the host has all answered.
    Done,
}

impl Place {
    fn byte(self) -> u8
        ensures { result ≡ place_byte self }
    {
        match self {
            Place::Begun => 0,
            Place::Done => 1,
        }
    }
}

/// The two stamps that a host shows.
#[derive(Clone, Copy, Debug)]
pub struct Shown {
    pub begun: Stamp,
    pub done: Stamp,
}

impl Stamp {
    /// Returns whether both name the same batch.
    pub fn is(&self, other: &Stamp) -> bool
        ensures { MatchBool result (self.now ≡ other.now) (self.now ≢ other.now) }
    {
        self.number == other.number && self.check == other.check
    }

    /// Returns whether the other one names a batch of the same keeping, and not an earlier one.
    pub(crate) fn covers(&self, other: &Stamp) -> bool
        ensures { MatchBool result (Covers self.now other.now) (¬ Covers self.now other.now) }
    {
        self.check == other.check && self.number <= other.number
    }

    /// Adds the stamp's bytes to a text.
    #[tactic(auto, unfolding(crate::specs::Stamps::stamp_text))]
    pub(crate) fn push_to(&self, text: &mut Vec<u8>) -> Result<(), AllocError>
        ensures added { OnOk result (text.new.items ≡ text.old.items ++ stamp_text self.now) }
        ensures fits { OnOk result (AreNumbers self.now) }
    {
        text.extend_from_slice(&self.number.to_be_bytes())?;
        text.extend_from_slice(&self.check.to_be_bytes())?;
        Ok(())
    }

    /// Reads the stamp at the front of some bytes, and returns the bytes after it.
    #[tactic(auto, unfolding(crate::specs::Stamps::stamp_text))]
    pub(crate) fn read(bytes: &[u8]) -> Option<(Stamp, &[u8])>
        ensures some { IfSome result (λ x. bytes.now ≡ stamp_text x.0 ++ x.1.now) }
        ensures fits { IfSome result (λ x. AreNumbers x.0) }
        ensures none { result ≡ None → length bytes.now < 16 }
    {
        let (number, rest) = next_number(bytes)?;
        let (check, rest) = next_number(rest)?;
        Some((Stamp { number, check }, rest))
    }
}

/// Reads the number at the front of some bytes, and returns the bytes after it.
pub(crate) fn next_number(bytes: &[u8]) -> Option<(u64, &[u8])>
    ensures some { IfSome result (λ x. bytes.now ≡ to_be_bytes w64 x.0 ++ x.1.now) }
    ensures fits { IfSome result (λ x. x.0 < 2 ^ 64) }
    ensures none { result ≡ None → length bytes.now < 8 }
{
    let (number, rest) = bytes.split_first_chunk::<8>()?;
    Some((u64::from_be_bytes(*number), rest))
}

/// Masks the check of a kept process by the key of the disk's stamps. The host sees the masked one. By the check itself it could
/// find out by trying what the file holds, and so which blocks were accessed.
#[tactic(auto, unfolding(crate::specs::Stamps::mask))]
pub fn masked(key: &StampKey, check: u64) -> u64
    ensures { result ≡ mask key.now.0 check }
{
    let mut hasher = Sha256::new();
    hasher.update(1u32.to_be_bytes());
    hasher.update(key.0);
    hasher.update([2u8]);
    hasher.update(check.to_be_bytes());
    let digest = hasher.finalize();
    let mut front = [0; 8];
    front.copy_from_slice(&digest[..8]);
    u64::from_be_bytes(front)
}

/// Computes the tag of a stamp at a place.
#[tactic(auto, unfolding(crate::specs::Stamps::tag))]
fn tag(key: &StampKey, place: Place, stamp: &Stamp) -> [u8; 32]
    ensures { result ≡ tag key.now.0 place stamp.now }
{
    let mut hasher = Sha256::new();
    hasher.update(1u32.to_be_bytes());
    hasher.update(key.0);
    hasher.update([place.byte()]);
    hasher.update(stamp.number.to_be_bytes());
    hasher.update(stamp.check.to_be_bytes());
    hasher.finalize()
}

/// Returns the record of a stamp at a place. Fails only if memory runs out.
#[tactic(auto, unfolding(crate::specs::Stamps::record_text))]
pub fn encode_record(
    alloc: Global,
    key: &StampKey,
    place: Place,
    stamp: &Stamp,
) -> Result<Vec<u8>, AllocError>
    ensures { IfOk result (λ v. v.items ≡ record_text key.now.0 place stamp.now) }
{
    let mut record = Vec::with_capacity(alloc, RECORD_LEN)?;
    stamp.push_to(&mut record)?;
    record.extend_from_slice(&tag(key, place, stamp))?;
    Ok(record)
}

/// Returns whether both are the same bytes.
fn equals(one: &[u8], other: &[u8]) -> bool
    ensures { MatchBool result (one.now ≡ other.now) (one.now ≢ other.now) }
{
    one == other
}

/// Reads the record of a stamp at a place from the front of some bytes, and returns the bytes after it. Returns `None` if they
/// don't begin with a stamp that has the tag for this place.
fn decode_record<'a>(key: &StampKey, place: Place, bytes: &'a [u8]) -> Option<(Stamp, &'a [u8])>
    ensures some { IfSome result (λ x. bytes.now ≡ record_text key.now.0 place x.0 ++ x.1.now) }
    ensures fits { IfSome result (λ x. AreNumbers x.0) }
    ensures none { result ≡ None → (stamp : Stamp) (rest : List ℕ) → AreNumbers stamp → bytes.now ≢ record_text key.now.0 place stamp ++ rest }
{
    let (stamp, rest) = Stamp::read(bytes)?;
    let (shown, rest) = rest.split_first_chunk::<32>()?;
    if equals(shown, &tag(key, place, &stamp)) {
        Some((stamp, rest))
    } else {
        None
    }
}

/// Reads the two stamps that a host shows. Returns `None` unless both have the tags of this key for their places: whoever hasn't
/// the key can only show stamps that the disk's client has made.
pub fn decode_shown(key: &StampKey, bytes: &[u8]) -> Option<Shown>
    ensures some { IfSome result (λ shown. bytes.now ≡ shown_text key.now.0 shown) }
    ensures none { result ≡ None → (shown : Shown) → AreNumbers shown.begun → AreNumbers shown.done → bytes.now ≢ shown_text key.now.0 shown }
{
    let (begun, rest) = decode_record(key, Place::Begun, bytes)?;
    let (done, rest) = decode_record(key, Place::Done, rest)?;
    if !rest.is_empty() {
        return None;
    }
    Some(Shown { begun, done })
}
