//! A summary.
ghost use Rattle.std.specs.Prelude.{◌≡◌, ◌≢◌, ℕ, None, IfSome};
ghost use Rattle.oram_summary.specs.Contents.{sealer_number};
ghost use Rattle.oram_summary.specs.declared.summary.SealerKind.{SealerKind};

use oram_bucket::Block;
use oram_geometry::Device;
use std::marker::Model;

/// The version of the summaries that this crate makes and reads.
pub const VERSION: u64 = 1;

/// The greatest number of blocks of the stash in a summary.
pub const MOST_BLOCKS: usize = 64;

/// How the buckets of a disk are sealed.
#[derive(Clone, Copy, Debug, PartialEq, Eq)]
pub enum SealerKind {
    /// Not at all: the host can read what it keeps.
    Plain,
    /// With the stream of ChaCha20 (RFC 8439).
    ChaCha20,
}

impl SealerKind {
    /// Returns the number that a summary has for it.
    pub(crate) fn number(self) -> u64
        ensures { result ≡ sealer_number self }
    {
        match self {
            SealerKind::Plain => 0,
            SealerKind::ChaCha20 => 1,
        }
    }

    /// Returns the kind that has this number in a summary.
    pub(crate) fn of(number: u64) -> Option<SealerKind>
        ensures some { IfSome result (λ kind. number ≡ sealer_number kind) }
        ensures none { result ≡ None → (kind : SealerKind) → number ≢ sealer_number kind }
    {
        match number {
            0 => Some(SealerKind::Plain),
            1 => Some(SealerKind::ChaCha20),
            _ => None,
        }
    }
}

/// What a client leaves at the host with a checkpoint.
#[derive(Debug, Drop)]
pub struct Summary {
    /// How the buckets are sealed.
    pub sealer: SealerKind,
    pub device: Device,
    /// How many levels of tree 0 are near, counted from the root: the client keeps their records itself.
    pub near_levels: u8,
    /// When the checkpoint was made, in seconds since 1970-01-01 00:00 UTC.
    pub time: u64,
    /// The number of the checkpoint.
    pub number: u64,
    /// The ticket of the next command, so how many commands the disk has accepted.
    pub next_ticket: u64,
    /// The nonce of the next bucket to be sealed.
    pub next_nonce: u64,
    /// The digest of the record of tree 0's root.
    pub root: [u8; 32],
    /// The blocks of tree 0's stash, in increasing order of address.
    pub stash: Vec<Block>,
}

impl Model for Summary {
    ghost use Rattle.oram_summary.specs.Contents.{Contents};

    ghost Value = { Contents };

    ghost view = { λ s. record {
      sealer = s.sealer;
      device = s.device;
      near_levels = s.near_levels;
      time = s.time;
      number = s.number;
      next_ticket = s.next_ticket;
      next_nonce = s.next_nonce;
      root = s.root;
      stash = s.stash.items;
    } };
}
