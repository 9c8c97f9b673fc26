//! What is kept of a process, as bytes.
//!
//! The text has the STOREs that wait, the oldest first, the note of the link ([`BatchLink`](crate::BatchLink)), the core, and the records
//! of the link: the number of STOREs in eight bytes, each STORE after its length in eight bytes, the note after its length in eight
//! bytes, the number of bytes of the records in eight bytes, the fields of the core's state file, and the records. All numbers are
//! big-endian.
//!
//! Nothing in the text tells whether it is the one that was written: whoever keeps it adds what detects a torn file. The text is
//! handed to a [`Keeper`](crate::Keeper) in four parts, two of which are the core's table and the records, and the check of a process, by
//! which its keepings are told apart, leaves these two out. So writing takes no longer here if they are larger.
ghost use Rattle.std.specs.Prelude.{◌≡◌, ◌≢◌, ◌⊎◌, ◌++◌, ◌<◌, ◌^◌, [], ℕ, List, None, length, IfErr, IfOk, IfSome, IsErrOf, OnOk};
ghost use Rattle.std.specs.Int.{w64, to_be_bytes};
ghost use Rattle.oram_geometry.specs.declared.Sizes.{Sizes};
ghost use Rattle.oram_semantics.specs.State.{State};
ghost use Rattle.oram_core.specs.Changes.{AreTold};
ghost use Rattle.oram_core.specs.Core.{scheme_of};
ghost use Rattle.oram_rounds.specs.Batches.{texts};
ghost use Rattle.oram_rounds.specs.Files.{AreCounted, IsFileOf, IsFileWith, IsShort, IsShortNote, IsWholeWith, check_of, checksum, front_text, kept_text, sized_text, stores_text};
ghost use Rattle.oram_rounds.specs.KeptParts.{whole_text};
ghost use Rattle.oram_rounds.specs.LinkNotes.{LinkNote};
ghost use Rattle.oram_state.specs.StateBytes.{with_table};

use crate::keeper::{KeptParts, LinkRecords};
use crate::lists::push;
use oram_bucket::Sealer;
use oram_core::{Core, TableChanges};
use oram_state::{StateFault, decode_fields, encode_around_table, split_around_table};
use std::alloc::{AllocError, Global};
use std::fmt;
use std::hash::{DefaultHasher, Hasher};

/// The number of bytes of a number in a file.
const NUMBER_LEN: usize = 8;

/// What is kept of a process, but for the records of its link.
#[derive(Drop)]
pub struct KeptCore<S: Sealer> {
    /// The STOREs that the host may not have yet, the oldest first.
    pub stores: Vec<Vec<u8>>,
    /// The note of the link.
    pub note: Vec<u8>,
    pub core: Core<S>,
    /// The check of the process.
    pub check: u64,
}

/// The text of a process around its core's table and in front of its link's records, and the check of the process.
#[derive(Drop)]
pub struct ProcessText {
    /// What stands before the table.
    pub before: Vec<u8>,
    /// What stands between the table and the records.
    pub after: Vec<u8>,
    pub check: u64,
}

impl ProcessText {
    /// Returns the text with the table and the records, and what of them has changed.
    pub fn with_table<'a>(
        &'a self,
        table: &'a [u32],
        changes: TableChanges<'a>,
        records: LinkRecords<'a>,
    ) -> KeptParts<'a>
        ensures before { result.before.now ≡ self.now.before.items }
        ensures table { result.table.now ≡ table.now }
        ensures changes { (old : List ℕ) → AreTold changes.entry old table.now → AreTold result.changes old table.now }
        ensures after { result.after.now ≡ self.now.after.items }
        ensures records { result.records.bytes.now ≡ records.entry.bytes.now }
        ensures record_changes { result.records.changes ≡ records.entry.changes }
    {
        KeptParts {
            before: &self.before,
            table,
            changes,
            after: &self.after,
            records,
        }
    }
}

/// Why bytes can't be read as a process's text.
#[derive(Clone, Copy, Debug, PartialEq, Eq)]
pub enum KeptCoreFault {
    /// The bytes don't begin with STOREs and a note, or have another number of bytes of records than they say.
    Torn,
    /// The bytes have STOREs, a note and records, but what is between these isn't a core with this sealer.
    Core(StateFault),
    /// Memory ran out.
    OutOfMemory,
}

impl fmt::Display for KeptCoreFault {
    fn fmt<W: fmt::Write>(&self, f: &mut fmt::Formatter<W>) -> fmt::Result {
        f.write_str(match self {
            KeptCoreFault::Torn => "the file is torn",
            KeptCoreFault::Core(_) => "the file has no core with this sealer",
            KeptCoreFault::OutOfMemory => "out of memory",
        })
    }
}

impl From<AllocError> for KeptCoreFault {
    ghost use Rattle.oram_rounds.specs.declared.kept_file.KeptCoreFault.TheVariants.{OutOfMemory};

    ghost from_gives = { λ _ f. f ≡ OutOfMemory };

    fn from(_error: AllocError) -> KeptCoreFault {
        KeptCoreFault::OutOfMemory
    }
}

impl From<StateFault> for KeptCoreFault {
    ghost use Rattle.oram_state.specs.declared.fault.StateFault.TheVariants as state;
    ghost use Rattle.oram_rounds.specs.declared.kept_file.KeptCoreFault.TheVariants.{Core, OutOfMemory};

    ghost from_gives = { λ fault f. (fault ≡ state.OutOfMemory → f ≡ OutOfMemory) × (fault ≢ state.OutOfMemory → f ≡ Core fault) };

    fn from(fault: StateFault) -> KeptCoreFault {
        match fault {
            StateFault::OutOfMemory => KeptCoreFault::OutOfMemory,
            fault => KeptCoreFault::Core(fault),
        }
    }
}

/// Computes the check of a process: `front` is what stands before the core's fields in its text, and `before` and `after` are these
/// fields before and after the table.
#[tactic(auto, unfolding(crate::specs::Files::checksum), using(crate::proofs::KeptText::written_thrice))]
fn check_of(front: &[u8], before: &[u8], after: &[u8]) -> u64
    ensures { result ≡ checksum (front.now ++ (before.now ++ after.now)) }
{
    let mut hasher = DefaultHasher::new();
    hasher.write(front);
    hasher.write(before);
    hasher.write(after);
    hasher.finish()
}

/// Adds the number of some bytes to a text.
fn push_len(text: &mut Vec<u8>, bytes: &[u8]) -> Result<(), AllocError>
    ensures written { OnOk result (text.new.items ≡ text.old.items ++ to_be_bytes w64 (length bytes.now)) }
    ensures short { IsShort bytes.now }
{
    text.extend_from_slice(&(bytes.len() as u64).to_be_bytes())?;
    Ok(())
}

/// Adds a STORE, or a note, to a text after its length.
fn push_sized(text: &mut Vec<u8>, bytes: &[u8]) -> Result<(), AllocError>
    ensures written { OnOk result (text.new.items ≡ text.old.items ++ sized_text bytes.now) }
    ensures short { IsShort bytes.now }
{
    push_len(text, bytes)?;
    text.extend_from_slice(bytes)?;
    Ok(())
}

/// Adds the number of STOREs to a text, and the STOREs.
fn push_stores(text: &mut Vec<u8>, stores: &[Vec<u8>]) -> Result<(), AllocError>
    ensures written { OnOk result (text.new.items ≡ text.old.items ++ stores_text (texts stores.now)) }
    ensures counted { OnOk result (AreCounted (texts stores.now)) }
{
    text.extend_from_slice(&(stores.len() as u64).to_be_bytes())?;
    for store in stores {
        push_sized(text, store)?;
    }
    Ok(())
}

/// Adds what stands before the core's fields to an empty text.
fn push_front(
    text: &mut Vec<u8>,
    stores: &[Vec<u8>],
    note: &[u8],
    records: &[u8],
) -> Result<(), AllocError>
    requires { text.old.items ≡ [] }
    ensures written { OnOk result (text.new.items ≡ front_text (texts stores.now) (record { text = note.now; records = records.now })) }
    ensures counted { OnOk result (AreCounted (texts stores.now)) }
    ensures short { OnOk result (IsShortNote (record { text = note.now; records = records.now })) }
{
    push_stores(text, stores)?;
    push_sized(text, note)?;
    push_len(text, records)?;
    Ok(())
}

/// Returns how many bytes stand before the table in a text with these STOREs, this note and these fields before the table.
fn before_len(stores: &[Vec<u8>], note: &[u8], fields: &[u8]) -> usize {
    let mut len = (3 * NUMBER_LEN)
        .saturating_add(note.len())
        .saturating_add(fields.len());
    for store in stores {
        len = len.saturating_add(NUMBER_LEN).saturating_add(store.len());
    }
    len
}

/// Returns the text of the STOREs that wait, of the note of their link, and of the core that sent them, around the core's table and in
/// front of the link's records, and the check of this process. Fails only if memory runs out.
pub fn encode_kept<S: Sealer>(
    alloc: Global,
    stores: &[Vec<u8>],
    note: &[u8],
    records: &[u8],
    core: &Core<S>,
) -> Result<ProcessText, AllocError>
    ensures file { let v = scheme_of S.cipher core.now in IfOk result (λ text.
        IsFileWith v (whole_text text core.now.state.table records.now) (texts stores.now) (record { text = note.now; records = records.now }) core.now.state) }
    ensures check { let v = scheme_of S.cipher core.now in IfOk result (λ text.
        text.check ≡ check_of v (texts stores.now) (record { text = note.now; records = records.now }) core.now.state) }
{
    let fields = encode_around_table(alloc, core)?;
    let mut before = Vec::with_capacity(alloc, before_len(stores, note, &fields.before))?;
    push_front(&mut before, stores, note, records)?;
    let check = check_of(&before, &fields.before, &fields.after);
    before.extend_from_slice(&fields.before)?;
    Ok(ProcessText {
        before,
        after: fields.after,
        check,
    })
}

/// Reads the number at the front of some bytes, and returns the bytes after it.
fn next_number(bytes: &[u8]) -> Option<(u64, &[u8])>
    ensures some { IfSome result (λ x. bytes.now ≡ to_be_bytes w64 x.0 ++ x.1.now) }
    ensures small { IfSome result (λ x. x.0 < 2 ^ 64) }
    ensures none { result ≡ None → length bytes.now < 8 }
{
    let (number, rest) = bytes.split_first_chunk::<NUMBER_LEN>()?;
    Some((u64::from_be_bytes(*number), rest))
}

/// Reads the STORE or the note at the front of some bytes, and returns the bytes after it.
fn next_sized(bytes: &[u8]) -> Option<(&[u8], &[u8])>
    ensures some { IfSome result (λ x. bytes.now ≡ sized_text x.0.now ++ x.1.now) }
    ensures short { IfSome result (λ x. IsShort x.0.now) }
    ensures none { result ≡ None → (sized rest : List ℕ) → IsShort sized → bytes.now ≢ sized_text sized ++ rest }
{
    let (len, rest) = next_number(bytes)?;
    if len > rest.len() as u64 {
        return None;
    }
    Some(rest.split_at(len as usize))
}

/// Reads the STOREs at the front of a text, and returns the bytes after them.
fn read_stores(alloc: Global, bytes: &[u8]) -> Result<(Vec<Vec<u8>>, &[u8]), KeptCoreFault>
    ensures counted { IfOk result (λ x. AreCounted (texts x.0.items)) }
    ensures ok { IfOk result (λ x. bytes.now ≡ stores_text (texts x.0.items) ++ x.1.now) }
    ensures torn { IsErrOf result KeptCoreFault.Torn → (stores : List (List ℕ)) (rest : List ℕ) → AreCounted stores → bytes.now ≢ stores_text stores ++ rest }
    ensures fault { IfErr result (λ e. (e ≡ KeptCoreFault.Torn) ⊎ (e ≡ KeptCoreFault.OutOfMemory)) }
{
    let Some((count, mut rest)) = next_number(bytes) else {
        return Err(KeptCoreFault::Torn);
    };
    let mut stores = Vec::new(alloc);
    for _ in 0..count {
        let Some((store, behind)) = next_sized(rest) else {
            return Err(KeptCoreFault::Torn);
        };
        push(&mut stores, store.to_vec(alloc)?)?;
        rest = behind;
    }
    Ok((stores, rest))
}

/// The parts of a process's text in front of its records.
#[derive(Drop)]
struct Parts<'a> {
    stores: Vec<Vec<u8>>,
    note: &'a [u8],
    /// How many bytes the records have, as the text says.
    records_len: u64,
    /// What stands before the core's fields.
    front: &'a [u8],
    /// The core's fields, unread.
    fields: &'a [u8],
}

/// Takes a text apart, up to its records.
fn split_kept(alloc: Global, text: &[u8]) -> Result<Parts<'_>, KeptCoreFault>
    ensures counted { IfOk result (λ parts. AreCounted (texts parts.stores.items)) }
    ensures short { IfOk result (λ parts. IsShort parts.note.now) }
    ensures small { IfOk result (λ parts. parts.records_len < 2 ^ 64) }
    ensures front { IfOk result (λ parts. parts.front.now ≡ stores_text (texts parts.stores.items) ++ (sized_text parts.note.now ++ to_be_bytes w64 parts.records_len)) }
    ensures ok { IfOk result (λ parts. text.now ≡ parts.front.now ++ parts.fields.now) }
    ensures torn { IsErrOf result KeptCoreFault.Torn → (stores : List (List ℕ)) (note : LinkNote) (fields : List ℕ) → AreCounted stores → IsShortNote note
        → text.now ≢ front_text stores note ++ fields }
    ensures fault { IfErr result (λ e. (e ≡ KeptCoreFault.Torn) ⊎ (e ≡ KeptCoreFault.OutOfMemory)) }
{
    let (stores, rest) = read_stores(alloc, text)?;
    let Some((note, rest)) = next_sized(rest) else {
        return Err(KeptCoreFault::Torn);
    };
    let Some((records_len, fields)) = next_number(rest) else {
        return Err(KeptCoreFault::Torn);
    };
    let (front, _) = text.split_at(text.len() - fields.len());
    Ok(Parts {
        stores,
        note,
        records_len,
        front,
        fields,
    })
}

/// Takes a text apart that has these records behind it.
fn split_before<'a>(
    alloc: Global,
    text: &'a [u8],
    records: &[u8],
) -> Result<Parts<'a>, KeptCoreFault>
    ensures counted { IfOk result (λ parts. AreCounted (texts parts.stores.items)) }
    ensures short { IfOk result (λ parts. IsShortNote (record { text = parts.note.now; records = records.now })) }
    ensures front { IfOk result (λ parts. parts.front.now ≡ front_text (texts parts.stores.items) (record { text = parts.note.now; records = records.now })) }
    ensures ok { IfOk result (λ parts. text.now ≡ parts.front.now ++ parts.fields.now) }
    ensures torn { IsErrOf result KeptCoreFault.Torn → (stores : List (List ℕ)) (note : LinkNote) (fields : List ℕ) → AreCounted stores → IsShortNote note
        → length note.records ≡ length records.now → text.now ≢ front_text stores note ++ fields }
    ensures fault { IfErr result (λ e. (e ≡ KeptCoreFault.Torn) ⊎ (e ≡ KeptCoreFault.OutOfMemory)) }
{
    let parts = split_kept(alloc, text)?;
    if parts.records_len != records.len() as u64 {
        return Err(KeptCoreFault::Torn);
    }
    Ok(parts)
}

/// Reads a process whose core has this sealer, from its text up to the records. The records stand behind that text.
///
/// Fails with `Torn` if the text doesn't begin with STOREs and a note, or says another number of bytes of records; with `Core` if no core
/// with this sealer stands before the records; and with `OutOfMemory` if memory runs out.
pub fn decode_kept<S: Sealer>(
    alloc: Global,
    sealer: S,
    text: &[u8],
    records: &[u8],
) -> Result<KeptCore<S>, KeptCoreFault>
    ensures sealer { IfOk result (λ kept. kept.core.sealer ≡ sealer) }
    ensures ok { IfOk result (λ kept. IsFileWith (scheme_of S.cipher kept.core) (text.now ++ records.now) (texts kept.stores.items)
        (record { text = kept.note.items; records = records.now }) kept.core.state) }
    // A text is that of only one process, so the check is the one that `encode_kept` gave.
    ensures check { IfOk result (λ kept. kept.check ≡ check_of (scheme_of S.cipher kept.core) (texts kept.stores.items)
        (record { text = kept.note.items; records = records.now }) kept.core.state) }
    // It returns the process that was kept, unless memory runs out.
    ensures same { (d : Sizes) (stores : List (List ℕ)) (core : State) → (it : IsFileOf (S.cipher sealer).overhead d (text.now ++ records.now) stores core)
        → it.note.records ≡ records.now
        → IfOk result (λ kept. (texts kept.stores.items ≡ stores) × (kept.core.device ≡ d) × (kept.core.state ≡ core) × (kept.note.items ≡ it.note.text)) }
    ensures only { (d : Sizes) (stores : List (List ℕ)) (core : State) → (it : IsFileOf (S.cipher sealer).overhead d (text.now ++ records.now) stores core)
        → it.note.records ≡ records.now → IfErr result (λ fault. fault ≡ KeptCoreFault.OutOfMemory) }
    ensures torn { IsErrOf result KeptCoreFault.Torn → ¬ IsWholeWith text.now records.now }
    ensures core { (fault : StateFault) → IsErrOf result (KeptCoreFault.Core fault) → IsWholeWith text.now records.now × (fault ≡ StateFault.Content) }
{
    let parts = split_before(alloc, text, records)?;
    let note = parts.note.to_vec(alloc)?;
    match decode_fields(alloc, sealer, parts.fields) {
        Ok(core) => {
            let (before, after) = split_around_table(parts.fields, &core);
            let check = check_of(parts.front, before, after);
            Ok(KeptCore {
                stores: parts.stores,
                note,
                core,
                check,
            })
        }
        Err(fault) => Err(KeptCoreFault::from(fault)),
    }
}
