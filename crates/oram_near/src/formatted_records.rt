//! The records of a formatting, made from its digests.
ghost use Rattle.std.specs.Prelude.{◌≡◌};
ghost use Rattle.oram_near.specs.FormattedRecords.{SealedDevice};

use crate::empty_records::EmptyRecords;
use oram_bucket::Sealer;
use oram_empty::EmptyDigests;
use oram_geometry::Device;
use std::alloc::{AllocError, Global};
use std::marker::Model;

/// Makes the records of the formatting of a device with a sealer. The rest behind the near records are the digests of this formatting, as
/// an [`EmptyDigests`] takes them.
#[derive(Drop)]
pub struct FormattedRecords<S: Sealer> {
    device: Device,
    sealer: S,
}

impl<S: Sealer> Model for FormattedRecords<S> {
    ghost use Rattle.oram_near.specs.FormattedRecords.{SealedDevice};

    ghost Value = { SealedDevice S };

    ghost view = { λ e. record { device = e.device; sealer = e.sealer } };
}

impl<S: Sealer> FormattedRecords<S> {
    /// Returns what makes the records of this device's formatting with this sealer.
    pub fn new(device: Device, sealer: S) -> FormattedRecords<S>
        ensures { result ≡ record { device = device; sealer = sealer } }
    {
        FormattedRecords { device, sealer }
    }
}

impl<S: Sealer> EmptyRecords for FormattedRecords<S> {
    ghost use Rattle.oram_geometry.specs.Sizes.{record_len_of};
    ghost use Rattle.oram_empty.specs.KeptDigests.{digests_len, made_record};
    ghost use Rattle.oram_near.specs.FormattedRecords.{are_made, digests_with};

    ghost device = { λ e. e.device };

    ghost record_len = { λ e. record_len_of e.device (S.cipher e.sealer).overhead };

    ghost rest_len = { λ e. digests_len e.device };

    ghost record_at = { λ e rest. made_record (S.cipher e.sealer) (digests_with e.device rest) };

    ghost are_empty_records = { λ e rest whole. are_made (S.cipher e.sealer) e.device rest (S.lawful e.sealer) whole };

    fn append_path(
        &self,
        alloc: Global,
        rest: &[u8],
        tree: u8,
        leaf: u32,
        first: u8,
        path: &mut Vec<u8>,
    ) -> Result<(), AllocError> {
        let Some(digests) = EmptyDigests::from_bytes(&self.device, rest) else {
            unreachable!()
        };
        digests.append_path(alloc, &self.sealer, tree, leaf, first, path)
    }

    fn append_record(
        &self,
        alloc: Global,
        rest: &[u8],
        tree: u8,
        leaf: u32,
        level: u8,
        out: &mut Vec<u8>,
    ) -> Result<(), AllocError> {
        let Some(digests) = EmptyDigests::from_bytes(&self.device, rest) else {
            unreachable!()
        };
        digests.append_record(alloc, &self.sealer, tree, leaf, level, out)
    }
}
