//! What a client knows of the stamps that its host has.
ghost use Rattle.std.specs.Prelude.{◌≡◌, ◌↔◌, ◌≤◌, ◌<◌, ◌-◌, ◌^◌, ◌++◌, ◌∷◌, [], ℕ, None, drop, IfOk, IfErr, IfSome, IsTrue, MatchBool, OnOk, OnErr};
ghost use Rattle.oram_stamps.specs.Known.{EndsIn, IsAllowed, IsMismatch, IsSent, IsSettled, IsTakenOver, IsUnknown, MayShow, StandsAt, answered, begun_number, first_stamp, kept, next_number, next_stamp, seen, sent, settled};

use crate::stamp::{Shown, Stamp};
use std::alloc::{AllocError, Global};
use std::marker::Model;

/// Why a host may not show the stamps that it shows.
#[derive(Clone, Copy, Debug, PartialEq, Eq)]
pub enum Mismatch {
    /// This state is older than the host's records: another process has gone on from a newer state, or from a copy of this one.
    OlderState,
    /// The host shows an older file than it has shown before, or stamps that no file of it can have had.
    OlderHost,
}

/// The stamp that a new disk's host has at both places, before the client has kept anything.
pub const FIRST_STAMP: Stamp = Stamp {
    number: 0,
    check: 0,
};

/// What a client knows of the stamps that its host has.
#[derive(Debug, Drop)]
pub struct Known {
    /// The keepings that the host may have, oldest first, each with the least number that a batch of it may have there.
    may: Vec<Stamp>,
    /// Where the keeping stands that the host is known to have begun.
    begun: usize,
    /// Where the keeping stands that the host is known to have done.
    done: usize,
    /// The check of the last keeping, and the greatest number that a batch is known to have had.
    current: Stamp,
}

impl Model for Known {
    ghost use Rattle.std.specs.Prelude.{◌<◌, length};
    ghost use Rattle.oram_stamps.specs.Known.{Stamps};

    ghost Value = { Stamps };

    ghost view = { λ k. record { may = k.may.items; begun = k.begun; done = k.done; current = k.current } };

    ghost invariant = { λ k. 0 < length k.may.items };
}

/// Where two stamps stand in a list.
#[derive(Clone, Copy, Debug)]
struct Places {
    begun: usize,
    done: usize,
}

/// Returns the first place from `from` on at which a list has the keeping of a stamp.
fn place_from(stamps: &[Stamp], from: usize, stamp: &Stamp) -> Option<usize>
    ensures some { IfSome result (λ i. StandsAt stamps.now i stamp.now) }
    ensures since { IfSome result (λ i. from ≤ i) }
    ensures first { IfSome result (λ i. (j : ℕ) → from ≤ j → j < i → ¬ StandsAt stamps.now j stamp.now) }
    ensures none { result ≡ None → (j : ℕ) → from ≤ j → ¬ StandsAt stamps.now j stamp.now }
{
    for i in from..stamps.len() {
        if stamps[i].covers(stamp) {
            return Some(i);
        }
    }
    None
}

/// Returns whether a list has the keeping of a stamp at a place.
fn stands_at(stamps: &[Stamp], place: usize, stamp: &Stamp) -> bool
    ensures { IsTrue result ↔ StandsAt stamps.now place stamp.now }
{
    match stamps.get(place) {
        Some(at) => at.covers(stamp),
        None => false,
    }
}

impl Known {
    /// Returns what the client of a new disk knows: its host has the first stamp at both places.
    pub fn fresh(alloc: Global) -> Result<Known, AllocError>
        ensures { IfOk result (λ k. k ≡ settled first_stamp) }
    {
        Ok(Known {
            may: vec![in alloc; FIRST_STAMP]?,
            begun: 0,
            done: 0,
            current: FIRST_STAMP,
        })
    }

    /// Notes that the process was kept, and has this check.
    pub fn keep(&mut self, check: u64)
        ensures { self.new ≡ kept self.old check }
    {
        self.current.check = check;
    }

    /// Returns the stamp of the next batch. Its number is greater than all that batches are known to have had. So if a batch is sent
    /// again, since the host had no room for a STORE, the host's stamps tell which of the two times its file is from.
    pub fn next_stamp(&self) -> Stamp
        ensures { result ≡ next_stamp self.now }
    {
        Stamp {
            number: self.next_number(),
            check: self.current.check,
        }
    }

    /// Notes that a batch is about to be sent, with [`Known::next_stamp`]. If memory runs out, nothing changes.
    pub fn send(&mut self, alloc: Global) -> Result<(), AllocError>
        ensures ok { OnOk result (IsSent self.old self.new) }
        ensures err { OnErr result (self.new ≡ self.old) }
    {
        let next = self.next_stamp();
        if self.ends_in(&next) {
            self.current = next;
            return Ok(());
        }
        self.add(alloc, next)
    }

    /// Returns whether the last keeping that the host may have is that of a stamp.
    fn ends_in(&self, stamp: &Stamp) -> bool
        ensures { MatchBool result (EndsIn self.now.may stamp.now) (¬ EndsIn self.now.may stamp.now) }
    {
        match self.may.last() {
            Some(last) => last.covers(stamp),
            None => false,
        }
    }

    /// Adds the last keeping, with the stamp of its first batch, to those that the host may have.
    fn add(&mut self, alloc: Global, next: Stamp) -> Result<(), AllocError>
        requires { next ≡ next_stamp self.old }
        ensures ok { OnOk result (self.new ≡ sent self.old) }
        ensures err { OnErr result (self.new ≡ self.old) }
    {
        let mut may = self.since_done().to_vec(alloc)?;
        may.push(next)?;
        self.may = may;
        self.begun = self.begun.saturating_sub(self.done);
        self.done = 0;
        self.current = next;
        Ok(())
    }

    /// Notes that the host has answered all messages of the last batch, and has refused none of them for want of room.
    pub fn settle(&mut self)
        ensures { self.new ≡ answered self.old }
    {
        self.may.truncate(1);
        self.may[0] = self.current;
        self.begun = 0;
        self.done = 0;
    }

    /// Returns whether the host is known to have begun and done a batch of the last keeping. Then a batch without STOREs needs no stamp.
    pub fn is_settled(&self) -> bool
        ensures { IsTrue result ↔ IsSettled self.now }
    {
        stands_at(&self.may, self.begun, &self.current)
            && stands_at(&self.may, self.done, &self.current)
    }

    /// Returns the least number that a batch may have of the keeping that the host is known to have begun.
    fn begun_number(&self) -> u64
        ensures { result ≡ begun_number self.now }
    {
        match self.may.get(self.begun) {
            Some(stamp) => stamp.number,
            None => 0,
        }
    }

    /// Returns whether the host has begun a keeping that this state doesn't know, and that isn't an older one.
    fn is_unknown(&self, begun: &Stamp) -> bool
        ensures { MatchBool result (IsUnknown self.now begun.now) (¬ IsUnknown self.now begun.now) }
    {
        match place_from(&self.may, self.begun, begun) {
            Some(_) => false,
            None => self.begun_number() <= begun.number,
        }
    }

    /// Returns where the stamps stand that a host shows: the first places that they may have.
    fn places_of(&self, shown: &Shown) -> Option<Places>
        ensures allowed { IfSome result (λ at. MayShow self.now shown.now at.begun at.done) }
        ensures first { IfSome result (λ at. (b d : ℕ) → MayShow self.now shown.now b d → (at.begun ≤ b) × (at.done ≤ d)) }
        ensures none { result ≡ None → ¬ IsAllowed self.now shown.now }
    {
        let done = place_from(&self.may, self.done, &shown.done)?;
        let begun = place_from(&self.may, self.begun.max(done), &shown.begun)?;
        Some(Places { begun, done })
    }

    /// Compares the stamps that a host shows with what is known of them. If they may be there, then it is known that they are;
    /// if not, nothing changes.
    pub fn take_over(&mut self, shown: &Shown) -> Result<(), Mismatch>
        ensures ok { OnOk result (IsTakenOver self.old shown.now self.new) }
        ensures err { IfErr result (λ why. IsMismatch self.old shown.now why × (self.new ≡ self.old)) }
    {
        if self.is_unknown(&shown.begun) {
            return Err(Mismatch::OlderState);
        }
        let Some(at) = self.places_of(shown) else {
            return Err(Mismatch::OlderHost);
        };
        self.begun = at.begun;
        self.done = at.done;
        self.current.number = self.greatest_number(shown);
        Ok(())
    }

    /// Returns the greatest number that a batch is known to have had, once the host has shown these stamps.
    fn greatest_number(&self, shown: &Shown) -> u64
        ensures { result ≡ (seen self.now.current shown.now).number }
    {
        let shown = shown.begun.number.max(shown.done.number);
        self.current.number.max(shown)
    }

    /// Makes what a process knows that starts from a file: the host may have batches of it too, from the stamp `current` on.
    pub(crate) fn restarted(
        mut stamps: Vec<Stamp>,
        begun: usize,
        current: Stamp,
    ) -> Result<Known, AllocError>
        ensures { IfOk result (λ k. k ≡ record { may = stamps.items ++ current ∷ []; begun = begun; done = 0; current = current }) }
    {
        stamps.push(current)?;
        Ok(Known {
            may: stamps,
            begun,
            done: 0,
            current,
        })
    }

    /// Returns the number of the next batch.
    pub(crate) fn next_number(&self) -> u64
        ensures { result ≡ next_number self.now.current.number }
    {
        self.current.number.saturating_add(1)
    }

    /// Returns the keepings that the host may have, from the one on that it is known to have done.
    pub(crate) fn since_done(&self) -> &[Stamp]
        ensures { result.now ≡ drop self.now.done self.now.may }
    {
        let from = self.done.min(self.may.len());
        &self.may[from..]
    }

    /// Returns where in that list the keeping stands that the host is known to have begun.
    pub(crate) fn begun_since_done(&self) -> u64
        ensures value { result ≡ self.now.begun - self.now.done }
        ensures fits { self.now.begun - self.now.done < 2 ^ 64 }
    {
        self.begun.saturating_sub(self.done) as u64
    }
}
