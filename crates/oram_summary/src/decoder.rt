//! Reads the text of a summary.
ghost use Rattle.std.specs.Prelude.{◌≡◌, ◌≢◌, ◌+◌, ◌*◌, ◌<◌, ◌^◌, ◌↔◌, ◌⊎◌, ℕ, length, All, IfOk, IfErr, IsErrOf, IfSome, None, MatchResult, IsTrue, slice_index};
ghost use Rattle.oram_geometry.specs.declared.Sizes.{Sizes};
ghost use Rattle.oram_geometry.specs.Sizes.{IsDevice};
ghost use Rattle.oram_summary.specs.Contents.{Contents};
ghost use Rattle.oram_summary.specs.Text.{HasLength, HasVersion, IsBehindVersion, IsTextOf, sizes_in};

use crate::encoder::HEAD_LEN;
use crate::faults::SummaryFault;
use crate::numbers::{COUNT, read_numbers};
use crate::stash::read_stash;
use crate::summary::{MOST_BLOCKS, SealerKind, Summary, VERSION};
use oram_geometry::Device;
use std::alloc::Global;

/// Returns the device whose sizes are among the numbers of a text. They stand there in the order in which the encoder writes them.
fn device_in(numbers: &[u64; COUNT]) -> Option<Device>
    ensures some { IfSome result (λ device. (device ≡ sizes_in numbers.now) × IsDevice device) }
    ensures none { result ≡ None → ¬ IsDevice (sizes_in numbers.now) }
{
    let device = Device::packed(
        numbers[2], numbers[3], numbers[4], numbers[5], numbers[6], numbers[7],
    );
    device.ok()
}

/// Reads the summary whose text has these numbers and behind them these bytes, of which there are as many as the numbers say. Fails with
/// `Content` if there is no such summary.
fn behind_numbers(
    alloc: Global,
    numbers: &[u64; COUNT],
    bytes: &[u8],
) -> Result<Summary, SummaryFault>
    requires version { slice_index numbers.now 0 ≡ VERSION }
    requires long { length bytes.now ≡ 32 + MOST_BLOCKS * (8 + slice_index numbers.now 3) }
    ensures ok { IfOk result (IsBehindVersion numbers.now bytes.now) }
    ensures only { (c : Contents) → IsBehindVersion numbers.now bytes.now c
        → MatchResult result (λ summary. summary ≡ c) (λ f. f ≡ SummaryFault.OutOfMemory) }
    ensures fault { IfErr result (λ f. (f ≡ SummaryFault.Content) ⊎ (f ≡ SummaryFault.OutOfMemory)) }
{
    let Some(sealer) = SealerKind::of(numbers[1]) else {
        return Err(SummaryFault::Content);
    };
    let Some(device) = device_in(numbers) else {
        return Err(SummaryFault::Content);
    };
    prove!(0 < device.trees());
    let (near_levels, count) = (numbers[8], numbers[13]);
    if near_levels > u64::from(device.depth(0)) || count > MOST_BLOCKS as u64 {
        return Err(SummaryFault::Content);
    }
    let Some((root, rest)) = bytes.split_first_chunk::<32>() else {
        return Err(SummaryFault::Content);
    };
    let stash = match read_stash(alloc, &device, rest, count as usize) {
        Ok(stash) => stash,
        Err(fault) => return Err(fault),
    };
    Ok(Summary {
        sealer,
        device,
        near_levels: near_levels as u8,
        time: numbers[9],
        number: numbers[10],
        next_ticket: numbers[11],
        next_nonce: numbers[12],
        root: *root,
        stash,
    })
}

/// Reads a summary from its text. Fails with `Version` if the text is of another version, and else with `Length` if it isn't as long as
/// it says, and else with `Content` if it is the text of no summary: if it names no sealer, or sizes of no device, or more near levels
/// than there can be, or blocks that can't be a stash.
pub fn decode_summary(alloc: Global, text: &[u8]) -> Result<Summary, SummaryFault>
    ensures ok { IfOk result (IsTextOf text.now) }
    // It returns the summary whose text it is, unless memory runs out.
    ensures only { (c : Contents) → IsTextOf text.now c
        → MatchResult result (λ summary. summary ≡ c) (λ f. f ≡ SummaryFault.OutOfMemory) }

    ensures version { IsErrOf result SummaryFault.Version ↔ (¬ HasVersion text.now) }
    ensures length { IsErrOf result SummaryFault.Length ↔ (HasVersion text.now × (¬ HasLength text.now)) }
    ensures content { IsErrOf result SummaryFault.Content → HasVersion text.now × HasLength text.now × ((c : Contents) → ¬ IsTextOf text.now c) }
    ensures faults { IfErr result (λ f. (f ≢ SummaryFault.Short) × (f ≢ SummaryFault.Tag)) }
{
    if !text.starts_with(&VERSION.to_be_bytes()) {
        return Err(SummaryFault::Version);
    }
    let mut numbers = [0; COUNT];
    let Some(rest) = read_numbers(text, &mut numbers) else {
        return Err(SummaryFault::Length);
    };
    let len = HEAD_LEN as u128 + MOST_BLOCKS as u128 * (8 + u128::from(numbers[3]));
    if text.len() as u128 != len {
        return Err(SummaryFault::Length);
    }
    behind_numbers(alloc, &numbers, rest)
}
