//! A round: commands are kept, and then carried out together.
ghost use Rattle.std.specs.Prelude.{◌≡◌, ◌⊎◌, [], ◌∷◌, ◌++◌, List, ℕ, All, true, false, length, IfErr, IfOk, IsErrOf, IsOkAnd, OnErr, OnOk};
ghost use Rattle.std.specs.List.{flat_map};
ghost use Rattle.oram_semantics.specs.Progress.Status.{Stalling};
ghost use Rattle.oram_semantics.specs.State.{status_in};
ghost use Rattle.oram_semantics.specs.declared.events.ReplyBody.{ReplyBody};
ghost use Rattle.oram_core.specs.Changes.{nothing_noted};
ghost use Rattle.oram_core.specs.Core.{IsNotedSince, IsSameDevice, scheme_of};
ghost use Rattle.oram_core.specs.PlainSteps.{done};
ghost use Rattle.oram_session.specs.Honesty.{HasFailed};
ghost use Rattle.oram_session.specs.CoreWork.{IsBodyOf, HasNoWork, IsUnderWay};
ghost use Rattle.oram_rounds.specs.KeptParts.{whole_text};
ghost use Rattle.oram_rounds.specs.LinkNotes.{AreRecordsTold};
ghost use Rattle.oram_rounds.specs.Keeping.{DoesAllNoted, IsKeptWithNote, MayBeKeptWithNote};
ghost use Rattle.oram_rounds.specs.Process.{Act, GoesAheadFirst, IsBrokenResumption, IsBrokenRound, IsResumption, IsRound, process, replies_of};
ghost use Rattle.oram_rounds.specs.Process.Act.{Keeps};
ghost use Rattle.oram_rounds.specs.Rounds.{waiting};

use crate::batch::BatchLink;
use crate::exchanges::carry_out_ahead;
use crate::keeper::{KeepError, Keeper, LinkRecords};
use crate::kept_file::{ProcessText, encode_kept};
use crate::round_fault::RoundFault;
use crate::round_link::RoundLink;
use oram_bucket::Sealer;
use oram_core::{Core, Reaction, Reply};
use oram_host::ServeFault;
use oram_session::{has_no_work, reopen};
use std::alloc::Global;

/// Hands a process's text to the keeper, with the table of its core and the records of its link, and with what of these has changed.
fn hand_over<S: Sealer, K: Keeper>(
    core: &Core<S>,
    text: &ProcessText,
    records: LinkRecords<'_>,
    keeper: &mut K,
) -> Result<(), KeepError>
    requires noted { IsNotedSince (K.kept_table keeper.old) core.now }
    requires told { AreRecordsTold records.changes (K.kept_records keeper.old) records.bytes.now }
    ensures there { OnOk result (K.reads_back keeper.new (whole_text text.now core.now.state.table records.entry.bytes.now)) }
    ensures only { OnOk result ((bytes : List ℕ) → K.reads_back keeper.new bytes → bytes ≡ whole_text text.now core.now.state.table records.entry.bytes.now) }
    ensures failed { OnErr result ((bytes : List ℕ) → K.reads_back keeper.new bytes
        → (bytes ≡ whole_text text.now core.now.state.table records.entry.bytes.now) ⊎ K.reads_back keeper.old bytes) }
    ensures table { OnOk result (K.kept_table keeper.new ≡ core.now.state.table) }
    ensures table_before { OnErr result (K.kept_table keeper.new ≡ K.kept_table keeper.old) }
    ensures records { OnOk result (K.kept_records keeper.new ≡ records.entry.bytes.now) }
    ensures records_before { OnErr result (K.kept_records keeper.new ≡ K.kept_records keeper.old) }
{
    keeper.keep(&text.with_table(core.table(), core.changes(), records))
}

/// Keeps the core, the STOREs that wait, and the note and the records of the link below. The STOREs may leave from then on, and the link
/// below learns the check of what was kept. The keeper is told which entries of the core's table and which records have changed, and
/// core and link count changes anew once these are kept.
pub fn keep<S: Sealer, B: BatchLink, K: Keeper>(
    alloc: Global,
    core: &mut Core<S>,
    link: &mut RoundLink<B>,
    keeper: &mut K,
) -> Result<(), RoundFault>
    requires noted { IsNotedSince (K.kept_table keeper.old) core.old }
    requires told { B.tells link.old.inner (K.kept_records keeper.old) }
    // From then on the changes of the core's table are counted from the table that is kept now. After a fault they still are
    // counted from the one before.
    ensures forgotten { OnOk result ((core.new ≡ record core.old { noted = nothing_noted }) × (K.kept_table keeper.new ≡ core.old.state.table)) }
    ensures unchanged { OnErr result ((core.new ≡ core.old) × (K.kept_table keeper.new ≡ K.kept_table keeper.old)) }
    // The link goes on telling of each record that differs from those that are kept.
    ensures told { B.tells link.new.inner (K.kept_records keeper.new) }
    // What is read back then is the file of the core, of these STOREs and of this note.
    ensures ok { let v = scheme_of S.cipher core.old in
        OnOk result (IsKeptWithNote v B.notes B.learns K.reads_back (process core.old.state link.old keeper.old) (process core.old.state link.new keeper.new)
        × (link.new ≡ record link.old { inner = link.new.inner; kept = waiting link.old; held = []; ahead = [] })) }
    // After a fault it is that file, or what was there before.
    ensures err { let v = scheme_of S.cipher core.old in
        OnErr result (MayBeKeptWithNote v B.notes B.learns K.reads_back (process core.old.state link.old keeper.old) (process core.old.state link.new keeper.new)
        × (link.new ≡ link.old)) }
    ensures memory { IsErrOf result RoundFault.OutOfMemory → keeper.new ≡ keeper.old }
    ensures fault { IfErr result (λ e. (e ≡ RoundFault.NotKept) ⊎ (e ≡ RoundFault.OutOfMemory)) }
{
    let note = link.note(alloc)?;
    let records = link.records();
    let text = encode_kept(alloc, link.waiting(), &note, records.bytes, core)?;
    hand_over(core, &text, records, keeper)?;
    core.forget_changes();
    link.keep(alloc, text.check);
    Ok(())
}

/// Keeps the commands that are at work, carries them out, and returns their replies in order. These may be given at once:
/// what is kept has the commands, so a process that begins with it carries them out again, with the same effect.
///
/// The first FETCH of each command goes ahead as soon as all of them are kept, and the core works while their answers arrive. So with one tree a
/// round waits for the host once. With more trees it waits once, and then once more for each command and each tree but the last.
pub fn perform<S: Sealer, B: BatchLink, K: Keeper>(
    alloc: Global,
    core: &mut Core<S>,
    link: &mut RoundLink<B>,
    keeper: &mut K,
    reaction: Reaction,
) -> Result<Vec<Reply>, RoundFault>
    requires under_way { IsUnderWay (done reaction core.old.state) }
    requires noted { IsNotedSince (K.kept_table keeper.old) core.old }
    requires told { B.tells link.old.inner (K.kept_records keeper.old) }
    ensures noted { IsNotedSince (K.kept_table keeper.new) core.new }
    ensures told { B.tells link.new.inner (K.kept_records keeper.new) }
    ensures kept { IsSameDevice core.old core.new }
    ensures ok { let v = scheme_of S.cipher core.old in
        IfOk result (λ replies. (acts : List Act) × (flat_map replies_of acts ≡ replies.items)
        × DoesAllNoted v B.notes B.learns K.reads_back B.batches (process core.old.state link.old keeper.old) (Keeps true ∷ acts)
        (process core.new.state link.new keeper.new)
        × GoesAheadFirst acts) }
    ensures count { IfOk result (λ replies. length replies.items ≡ length core.old.state.queue) }
    ensures no_work { OnOk result (HasNoWork core.new.state) }
    ensures block { IfOk result (λ replies. All (λ reply. IsBodyOf core.old.device reply.body) replies.items) }
    ensures failed { IfOk result (λ replies. All (λ reply. reply.body ≡ ReplyBody.Failed → HasFailed core.new.state) replies.items) }
    // After a fault either nothing was kept and nothing sent, or the commands are kept. Then nothing was sent either, or the
    // FETCHes went ahead first.
    ensures err { let v = scheme_of S.cipher core.old in
        OnErr result ((acts : List Act) × IsBrokenRound acts
        × DoesAllNoted v B.notes B.learns K.reads_back B.batches (process core.old.state link.old keeper.old) acts
        (process core.new.state link.new keeper.new)) }
    ensures not_kept { let v = scheme_of S.cipher core.old in
        IsErrOf result RoundFault.NotKept → (core.new ≡ core.old) × (link.new ≡ link.old)
        × DoesAllNoted v B.notes B.learns K.reads_back B.batches (process core.old.state link.old keeper.old) (Keeps false ∷ [])
        (process core.new.state link.new keeper.new) }
    ensures stalled { IsErrOf result RoundFault.Stalled → status_in core.new.state ≡ Stalling }
{
    keep(alloc, core, link, keeper)?;
    let fetches = core.next_fetches(alloc)?;
    match carry_out_ahead(alloc, core, link, fetches, reaction) {
        Ok(replies) => Ok(replies),
        Err(ServeFault::Stalled) => Err(RoundFault::Stalled),
        Err(_) => Err(RoundFault::OutOfMemory),
    }
}

/// Carries out the commands that wait in a core that was read back, or was left by a fault, and returns their replies in
/// order. Its message counts as lost and is sent again, once the core is kept anew.
pub fn resume<S: Sealer, B: BatchLink, K: Keeper>(
    alloc: Global,
    core: &mut Core<S>,
    link: &mut RoundLink<B>,
    keeper: &mut K,
) -> Result<Vec<Reply>, RoundFault>
    requires noted { IsNotedSince (K.kept_table keeper.old) core.old }
    requires told { B.tells link.old.inner (K.kept_records keeper.old) }
    ensures noted { IsNotedSince (K.kept_table keeper.new) core.new }
    ensures told { B.tells link.new.inner (K.kept_records keeper.new) }
    ensures kept { IsSameDevice core.old core.new }
    ensures no_work { OnOk result (HasNoWork core.new.state) }
    // In an idle or failed core nothing waits.
    ensures none { HasNoWork core.old.state → IsOkAnd result (λ replies. replies.items ≡ [])
        × (core.new ≡ core.old) × (link.new ≡ link.old) × (keeper.new ≡ keeper.old) }
    // In any other core, each command has its reply.
    ensures count { ¬ HasNoWork core.old.state → IfOk result (λ replies. length replies.items ≡ length core.old.state.queue) }
    // It was done in a round, which began with the FETCHes.
    ensures ok { let v = scheme_of S.cipher core.old in
        IfOk result (λ replies. (acts : List Act) × (flat_map replies_of acts ≡ replies.items)
        × DoesAllNoted v B.notes B.learns K.reads_back B.batches (process core.old.state link.old keeper.old) acts
        (process core.new.state link.new keeper.new)
        × (¬ HasNoWork core.old.state → IsResumption IsRound acts)) }
    ensures block { IfOk result (λ replies. All (λ reply. IsBodyOf core.old.device reply.body) replies.items) }
    ensures err { let v = scheme_of S.cipher core.old in
        OnErr result ((acts : List Act)
        × DoesAllNoted v B.notes B.learns K.reads_back B.batches (process core.old.state link.old keeper.old) acts
        (process core.new.state link.new keeper.new)
        × IsBrokenResumption acts) }
    ensures not_kept { let v = scheme_of S.cipher core.old in
        IsErrOf result RoundFault.NotKept → (acts : List Act)
        × DoesAllNoted v B.notes B.learns K.reads_back B.batches (process core.old.state link.old keeper.old) (acts ++ Keeps false ∷ [])
        (process core.new.state link.new keeper.new) }
    ensures stalled { IsErrOf result RoundFault.Stalled → status_in core.new.state ≡ Stalling }
{
    if has_no_work(core) {
        return Ok(Vec::new(alloc));
    }
    let reaction = reopen(alloc, core)?;
    perform(alloc, core, link, keeper, reaction)
}
