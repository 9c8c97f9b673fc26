//! Writes byte ranges by operations on whole blocks.

ghost use Rattle.std.specs.Prelude.{◌≡◌, ℕ, ◌+◌, ◌-◌, ◌*◌, ◌/◌, ◌%◌, ◌<◌, ◌≤◌, ◌^◌, [], ◌∷◌, ◌++◌, true, drop, length, map, take, IfOk, OnOk};
ghost use Rattle.oram_nbd.specs.Accesses.{AsksFor, cover_len, edges_of, is_part, numbers_from, part_calls, range};
ghost use Rattle.oram_nbd.specs.Beside.{GoesOn, HasArrays, IsStopped};
ghost use Rattle.oram_nbd.specs.Bytes.{bytes_at, written, zeroes};
ghost use Rattle.oram_nbd.specs.Calls.{FailsByLies, IsCall, Reads, Writes};
ghost use Rattle.oram_nbd.specs.Operations.{IsWhole};

use crate::client_watch::ClientWatch;
use crate::disk::BlockDevice;
use crate::faults::DiskFault;
use crate::operations::Operation;
use oram_bytes::Bytes;
use std::alloc::{AllocError, Global};

/// The blocks that a range of bytes touches.
#[derive(Clone, Copy, Debug)]
pub(crate) struct Cover {
    /// The first of them.
    pub(crate) first: u64,
    pub(crate) count: u64,
    /// How many bytes of the first block lie before the range.
    start: usize,
}

impl Cover {
    /// Returns the blocks of the range of `len` bytes from a place on, in blocks of `block` bytes.
    pub(crate) fn over(block: u64, at: u64, len: u64) -> Cover
        requires block { 0 < block }
        requires some { 0 < len }
        requires bound { at + len < 2 ^ 63 }
        ensures first { result.first ≡ at / block }
        ensures count { result.count ≡ cover_len block at len }
        ensures place { block * result.first + result.start ≡ at }
        ensures start { result.start ≡ at % block }
        ensures within { (blocks : ℕ) → at + len ≤ block * blocks → block * result.first + block * result.count ≤ block * blocks }
        ensures covers { result.start + len ≤ block * result.count }
        ensures tight { block * result.count < result.start + len + block }
        ensures some { 0 < result.count }
    {
        let first = at / block;
        let last = (at + len - 1) / block;
        Cover {
            first,
            count: last - first + 1,
            start: (at % block) as usize,
        }
    }

    /// Returns the blocks of a range of a device.
    fn of<D: BlockDevice>(disk: &D, at: u64, len: u64) -> Cover
        requires within { at + len ≤ D.size disk.now }
        requires some { 0 < len }
        ensures first { result.first ≡ at / D.block_len disk.now }
        ensures count { result.count ≡ cover_len (D.block_len disk.now) at len }
        ensures offset { result.start ≡ at % D.block_len disk.now }
        ensures place { D.block_len disk.now * result.first + result.start ≡ at }
        ensures within { D.block_len disk.now * result.first + D.block_len disk.now * result.count ≤ D.size disk.now }
        ensures covers { result.start + len ≤ D.block_len disk.now * result.count }
        ensures tight { D.block_len disk.now * result.count < result.start + len + D.block_len disk.now }
        ensures start { result.start < D.block_len disk.now }
        ensures some { 0 < result.count }
    {
        // For the proof alone: the call's contract says what is known of the device's size.
        let _blocks = disk.blocks();
        Cover::over(u64::from(disk.block_bytes()), at, len)
    }
}

/// Returns over how many blocks the range of an operation lies. A range that would end past 2^63 counts as the most there are.
pub(crate) fn touched_blocks(block: u64, operation: &Operation) -> u64
    requires { 0 < block }
{
    let (at, len) = (operation.place(), operation.len());
    if len == 0 {
        return 0;
    }
    let last = at.saturating_add(len - 1) / block;
    (last - at / block).saturating_add(1)
}

/// Reads `count` blocks, from the block `first` on.
pub(crate) fn read_blocks<D: BlockDevice, H: ClientWatch>(
    alloc: Global,
    disk: &mut D,
    first: u64,
    count: u64,
    watch: &mut H,
) -> Result<Vec<u8>, DiskFault>
    requires { D.block_len disk.old * first + D.block_len disk.old * count ≤ D.size disk.old }
    ensures len { IfOk result (λ v. length v.items ≡ D.block_len disk.old * count) }
    ensures goes { GoesOn D.had D.hears (HasArrays D.holds D.kept) disk.old (λ may_lie old new. Reads (0 < D.block_len disk.old * count) result old new
        × IfOk result (λ v. v.items ≡ bytes_at old.held (D.block_len disk.old * first) (D.block_len disk.old * count)) × FailsByLies result may_lie) disk.new }
    ensures asks { OnOk result (AsksFor D.asked disk.old (numbers_from first count ∷ []) disk.new) }
    ensures call { IsCall D.block_len D.size D.failed (IsStopped D.stops disk.new) disk.old result disk.new }
{
    // For the proof alone: the call's contract says what is known of the device's size.
    let _blocks = disk.blocks();
    let block = u64::from(disk.block_bytes());
    let operation = Operation::Read {
        at: block * first,
        count: block * count,
    };
    let mut given = disk.carry_out(alloc, &[operation], watch)?;
    match given.pop() {
        Some(bytes) => Ok(bytes.into_vec()),
        None => unreachable!(),
    }
}

/// Replaces as many blocks as the payload has, from the block `first` on.
fn write_blocks<D: BlockDevice, H: ClientWatch>(
    alloc: Global,
    disk: &mut D,
    first: u64,
    payload: Bytes,
    watch: &mut H,
) -> Result<(), DiskFault>
    requires within { D.block_len disk.old * first + length payload ≤ D.size disk.old }
    requires whole { (count : ℕ) × (length payload ≡ D.block_len disk.old * count) }
    ensures goes { GoesOn D.had D.hears (HasArrays D.holds D.kept) disk.old (Writes (D.block_len disk.old * first) payload result) disk.new }
    ensures asks { (count : ℕ) → length payload ≡ D.block_len disk.old * count → OnOk result (AsksFor D.asked disk.old (numbers_from first count ∷ []) disk.new) }
    ensures call { IsCall D.block_len D.size D.failed (IsStopped D.stops disk.new) disk.old result disk.new }
{
    // For the proof alone: the call's contract says what is known of the device's size.
    let _blocks = disk.blocks();
    let operation = Operation::Write {
        at: u64::from(disk.block_bytes()) * first,
        payload,
    };
    disk.carry_out(alloc, &[operation], watch)?;
    Ok(())
}

/// The bytes of the blocks of a range that lie outside of it.
#[derive(Debug, Drop)]
struct Edges {
    /// Those of its first block that lie before it.
    before: Bytes,
    /// Those of its last block that lie after it.
    after: Bytes,
}

/// Returns three pieces of bytes as one piece.
fn joined(alloc: Global, first: &[u8], middle: &[u8], last: &[u8]) -> Result<Vec<u8>, AllocError>
    ensures { IfOk result (λ v. v.items ≡ first.now ++ middle.now ++ last.now) }
{
    let len = first
        .len()
        .saturating_add(middle.len())
        .saturating_add(last.len());
    let mut whole = Vec::with_capacity(alloc, len)?;
    whole.extend_from_slice(first)?;
    whole.extend_from_slice(middle)?;
    whole.extend_from_slice(last)?;
    Ok(whole)
}

/// Reads two ranges of whole blocks, of `count` and of `more` bytes, in one call.
fn read_two<D: BlockDevice, H: ClientWatch>(
    alloc: Global,
    disk: &mut D,
    at: u64,
    count: u64,
    last: u64,
    more: u64,
    watch: &mut H,
) -> Result<Vec<Bytes>, DiskFault>
    requires whole { IsWhole (D.block_len disk.old) (Operation.Read at count) }
    requires within { at + count ≤ D.size disk.old }
    requires whole_last { IsWhole (D.block_len disk.old) (Operation.Read last more) }
    requires within_last { last + more ≤ D.size disk.old }
    ensures len { IfOk result (λ given. map length given.items ≡ count ∷ more ∷ []) }
    ensures goes { GoesOn D.had D.hears (HasArrays D.holds D.kept) disk.old (λ may_lie old new. Reads ⊥ result old new
        × IfOk result (λ given. given.items ≡ bytes_at old.held at count ∷ bytes_at old.held last more ∷ []) × FailsByLies result may_lie) disk.new }
    ensures asks { OnOk result (AsksFor D.asked disk.old ((numbers_from (at / D.block_len disk.old) (count / D.block_len disk.old) ++ numbers_from (last / D.block_len disk.old) (more / D.block_len disk.old)) ∷ []) disk.new) }
    ensures call { IsCall D.block_len D.size D.failed (IsStopped D.stops disk.new) disk.old result disk.new }
{
    let reads = [
        Operation::Read { at, count },
        Operation::Read {
            at: last,
            count: more,
        },
    ];
    disk.carry_out(alloc, &reads, watch)
}

/// Returns `block` if `len` isn't 0, and 0 if it is.
///
/// `len` is how many bytes of the block at one end of a range lie outside of the range. If there are any, that block is read,
/// and then written, apart from the others; it has `block` bytes. If there are none, no block is.
fn edge_len(block: u64, len: u64) -> u64
    requires { len < block }
    ensures most { result ≤ block }
    ensures least { len ≤ result }
    ensures none { len ≡ 0 → result ≡ 0 }
    ensures one { 0 < len → result ≡ block }
{
    if len > 0 { block } else { 0 }
}

/// Reads what lies around a range of `len` bytes in the only block of its cover.
fn read_one_edge<D: BlockDevice, H: ClientWatch>(
    alloc: Global,
    disk: &mut D,
    cover: Cover,
    len: u64,
    watch: &mut H,
) -> Result<Edges, DiskFault>
    requires within { D.block_len disk.old * cover.first + D.block_len disk.old ≤ D.size disk.old }
    requires covers { cover.start + len ≤ D.block_len disk.old }
    ensures before { IfOk result (λ e. length e.before ≡ cover.start) }
    ensures after { IfOk result (λ e. cover.start + len + length e.after ≡ D.block_len disk.old) }
    ensures goes { GoesOn D.had D.hears (HasArrays D.holds D.kept) disk.old (λ may_lie old new. Reads ⊥ result old new
        × IfOk result (λ e. let blocks = bytes_at old.held (D.block_len disk.old * cover.first) (D.block_len disk.old) in
        (e.before ≡ take cover.start blocks) × (e.after ≡ drop (cover.start + len) blocks)) × FailsByLies result may_lie) disk.new }
    ensures asks { OnOk result (AsksFor D.asked disk.old ((cover.first ∷ []) ∷ []) disk.new) }
    ensures call { IsCall D.block_len D.size D.failed (IsStopped D.stops disk.new) disk.old result disk.new }
{
    let bytes = read_blocks(alloc, disk, cover.first, 1, watch)?;
    let before = Bytes::copy(alloc, &bytes[..cover.start])?;
    let after = Bytes::copy(alloc, &bytes[cover.start + len as usize..])?;
    Ok(Edges { before, after })
}

/// Reads what lies around a range of `len` bytes in the blocks of its cover, in one call. Only blocks that lie partly outside of
/// the range are read.
fn read_edges<D: BlockDevice, H: ClientWatch>(
    alloc: Global,
    disk: &mut D,
    cover: Cover,
    len: u64,
    watch: &mut H,
) -> Result<Edges, DiskFault>
    requires within { D.block_len disk.old * cover.first + D.block_len disk.old * cover.count ≤ D.size disk.old }
    requires some { 0 < cover.count }
    requires start { cover.start < D.block_len disk.old }
    requires covers { cover.start + len ≤ D.block_len disk.old * cover.count }
    requires tight { D.block_len disk.old * cover.count < cover.start + len + D.block_len disk.old }
    ensures before { IfOk result (λ e. length e.before ≡ cover.start) }
    ensures after { IfOk result (λ e. cover.start + len + length e.after ≡ D.block_len disk.old * cover.count) }
    ensures goes { GoesOn D.had D.hears (HasArrays D.holds D.kept) disk.old (λ may_lie old new. Reads ⊥ result old new
        × IfOk result (λ e. let blocks = bytes_at old.held (D.block_len disk.old * cover.first) (D.block_len disk.old * cover.count) in
        (e.before ≡ take cover.start blocks) × (e.after ≡ drop (cover.start + len) blocks)) × FailsByLies result may_lie) disk.new }
    ensures asks { let rest = D.block_len disk.old * cover.count - (cover.start + len) in 0 < cover.start + rest → OnOk result (AsksFor D.asked disk.old (edges_of cover.first cover.count cover.start rest ∷ []) disk.new) }
    ensures call { IsCall D.block_len D.size D.failed (IsStopped D.stops disk.new) disk.old result disk.new }
{
    // For the proof alone: the call's contract says what is known of the device's size.
    let _blocks = disk.blocks();
    let block = u64::from(disk.block_bytes());
    let at = block * cover.first;
    let end = at + block * cover.count;
    let rest = end - at - (cover.start as u64 + len);
    let ahead = edge_len(block, cover.start as u64);
    let behind = edge_len(block, rest);
    if ahead + behind == 0 {
        return Ok(Edges {
            before: Bytes::from_vec(Vec::new(alloc)),
            after: Bytes::from_vec(Vec::new(alloc)),
        });
    }
    if cover.count == 1 {
        return read_one_edge(alloc, disk, cover, len, watch);
    }
    let given = read_two(alloc, disk, at, ahead, end - behind, behind, watch)?;
    let before = Bytes::copy(alloc, &given[0].as_slice()[..cover.start])?;
    let back = given[1].as_slice();
    let after = Bytes::copy(alloc, &back[(behind - rest) as usize..])?;
    Ok(Edges { before, after })
}

/// Reads a range of bytes.
///
/// The device is called twice, as it is for a write of the same range: the blocks that lie partly outside of the range are read,
/// and then all its blocks are read. So a host that counts accesses can't tell a read of parts of blocks from a write of them.
pub(crate) fn read_range<D: BlockDevice, H: ClientWatch>(
    alloc: Global,
    disk: &mut D,
    offset: u64,
    count: u64,
    watch: &mut H,
) -> Result<Bytes, DiskFault>
    requires within { offset + count ≤ D.size disk.old }
    requires some { 0 < count }
    ensures len { IfOk result (λ given. length given ≡ count) }
    ensures goes { GoesOn D.had D.hears (HasArrays D.holds D.kept) disk.old (λ may_lie old new. Reads (0 < count) result old new
        × IfOk result (λ given. given ≡ bytes_at old.held offset count) × FailsByLies result may_lie) disk.new }
    ensures asks { is_part (D.block_len disk.old) (range offset count) ≡ true → OnOk result (AsksFor D.asked disk.old (part_calls (D.block_len disk.old) (range offset count)) disk.new) }
    ensures call { IsCall D.block_len D.size D.failed (IsStopped D.stops disk.new) disk.old result disk.new }
{
    // For the proof alone: the call's contract says what is known of the device's size.
    let _blocks = disk.blocks();
    let cover = Cover::of(disk, offset, count);
    let _edges = read_edges(alloc, disk, cover, count, watch)?;
    let bytes = read_blocks(alloc, disk, cover.first, cover.count, watch)?;
    let end = cover.start + count as usize;
    let asked = Bytes::copy(alloc, &bytes[cover.start..end])?;
    Ok(asked)
}

/// Writes a range. No byte outside of it changes. On an error, a beginning of the payload may be written.
///
/// The device is called at most twice: the blocks that lie partly outside of the range are read, and then all its blocks are
/// written. They are written even if they have these bytes already: which accesses are made doesn't depend on any bytes.
pub(crate) fn write_range<D: BlockDevice, H: ClientWatch>(
    alloc: Global,
    disk: &mut D,
    offset: u64,
    payload: &[u8],
    watch: &mut H,
) -> Result<(), DiskFault>
    requires { offset + length payload.now ≤ D.size disk.old }
    ensures goes { GoesOn D.had D.hears (HasArrays D.holds D.kept) disk.old (Writes offset payload.now result) disk.new }
    ensures asks { let r = range offset (length payload.now) in is_part (D.block_len disk.old) r ≡ true → 0 < r.len → OnOk result (AsksFor D.asked disk.old (part_calls (D.block_len disk.old) r) disk.new) }
    ensures call { IsCall D.block_len D.size D.failed (IsStopped D.stops disk.new) disk.old result disk.new }
{
    // For the proof alone: the call's contract says what is known of the device's size.
    let _blocks = disk.blocks();
    let len = payload.len() as u64;
    if len == 0 {
        return Ok(());
    }
    let cover = Cover::of(disk, offset, len);
    let edges = read_edges(alloc, disk, cover, len, watch)?;
    let whole = joined(
        alloc,
        edges.before.as_slice(),
        payload,
        edges.after.as_slice(),
    )?;
    write_blocks(alloc, disk, cover.first, Bytes::from_vec(whole), watch)
}

/// Makes a range of `len` bytes zeroes in one call. It has the whole blocks between the edges zeroed, and writes the blocks at
/// the edges.
fn zero_between<D: BlockDevice, H: ClientWatch>(
    alloc: Global,
    disk: &mut D,
    cover: Cover,
    len: u64,
    edges: &Edges,
    watch: &mut H,
) -> Result<(), DiskFault>
    requires within { D.block_len disk.old * cover.first + D.block_len disk.old * cover.count ≤ D.size disk.old }
    requires some { 0 < cover.count }
    requires before { length edges.now.before < D.block_len disk.old }
    requires after { length edges.now.after < D.block_len disk.old }
    requires all { length edges.now.before + len + length edges.now.after ≡ D.block_len disk.old * cover.count }
    requires apart { cover.count ≡ 1 → length edges.now.before + length edges.now.after ≡ 0 }
    ensures goes { GoesOn D.had D.hears (HasArrays D.holds D.kept) disk.old
        (Writes (D.block_len disk.old * cover.first) (edges.now.before ++ zeroes len ++ edges.now.after) result) disk.new }
    ensures asks { OnOk result (AsksFor D.asked disk.old (numbers_from cover.first cover.count ∷ []) disk.new) }
    ensures call { IsCall D.block_len D.size D.failed (IsStopped D.stops disk.new) disk.old result disk.new }
{
    // For the proof alone: the call's contract says what is known of the device's size.
    let _blocks = disk.blocks();
    let block = u64::from(disk.block_bytes());
    let at = block * cover.first;
    let end = at + block * cover.count;
    let ahead = edge_len(block, edges.before.len() as u64);
    let behind = edge_len(block, edges.after.len() as u64);
    let front = vec![in alloc; 0u8; ahead as usize - edges.before.len()]?;
    let back = vec![in alloc; 0u8; behind as usize - edges.after.len()]?;
    let first = joined(alloc, edges.before.as_slice(), &front, &[])?;
    let last = joined(alloc, &[], &back, edges.after.as_slice())?;
    let operations = [
        Operation::Write {
            at,
            payload: Bytes::from_vec(first),
        },
        Operation::Zero {
            at: at + ahead,
            count: end - behind - (at + ahead),
        },
        Operation::Write {
            at: end - behind,
            payload: Bytes::from_vec(last),
        },
    ];
    disk.carry_out(alloc, &operations, watch)?;
    Ok(())
}

/// Makes the bytes of a range zeroes.
///
/// The device is called at most twice: the blocks at the edges are read if they lie partly outside of the range, and then they
/// are written, and the whole blocks between them zeroed.
pub(crate) fn zero_range<D: BlockDevice, H: ClientWatch>(
    alloc: Global,
    disk: &mut D,
    offset: u64,
    count: u64,
    watch: &mut H,
) -> Result<(), DiskFault>
    requires { offset + count ≤ D.size disk.old }
    ensures goes { GoesOn D.had D.hears (HasArrays D.holds D.kept) disk.old (Writes offset (zeroes count) result) disk.new }
    ensures asks { let r = range offset count in is_part (D.block_len disk.old) r ≡ true → 0 < count → OnOk result (AsksFor D.asked disk.old (part_calls (D.block_len disk.old) r) disk.new) }
    ensures call { IsCall D.block_len D.size D.failed (IsStopped D.stops disk.new) disk.old result disk.new }
{
    // For the proof alone: the call's contract says what is known of the device's size.
    let _blocks = disk.blocks();
    if count == 0 {
        return Ok(());
    }
    let cover = Cover::of(disk, offset, count);
    if cover.count == 1 && count < u64::from(disk.block_bytes()) {
        let none = vec![in alloc; 0u8; count as usize]?;
        return write_range(alloc, disk, offset, &none, watch);
    }
    let edges = read_edges(alloc, disk, cover, count, watch)?;
    zero_between(alloc, disk, cover, count, &edges, watch)
}
