//! The content of a state file, part by part.

use crate::mode::Mode;
use oram_bytes::Bytes;
use oram_core::{Parts, Pending};
use oram_geometry::Device;
use std::marker::Model;

/// The content of a file.
#[derive(Debug, Drop)]
pub(crate) struct Saved {
    /// The number of bytes that the core's sealer adds.
    pub(crate) overhead: u32,
    pub(crate) parts: Parts,
}

/// The fields at the beginning of each file.
#[derive(Debug, Drop)]
pub(crate) struct Head {
    pub(crate) device: Device,
    pub(crate) overhead: u32,
    pub(crate) mode: Mode,
    pub(crate) tickets: u64,
    pub(crate) nonce: u64,
}

/// The work of a core: the fields that only a core at work has.
#[derive(Debug, Drop)]
pub(crate) struct Work {
    pub(crate) waiting: Vec<Pending>,
    pub(crate) entry_number: u32,
    pub(crate) held_entry: u32,
    pub(crate) held_data: Bytes,
    pub(crate) message: Bytes,
}

impl Model for Work {
    ghost use Rattle.oram_state.specs.StateBytes.{Work as WorkValue};

    ghost Value = { WorkValue };

    ghost view = { λ w. record {
      waiting = w.waiting.items;
      entry_number = w.entry_number;
      held_entry = w.held_entry;
      held_data = w.held_data;
      message = w.message;
    } };
}
