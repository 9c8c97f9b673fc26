//! Carries out the commands that are at work in a core.
ghost use Rattle.std.specs.Prelude.{◌≡◌, ◌≢◌, ◌⊎◌, ◌+◌, ◌∷◌, [], ℕ, List, All, length, IfErr, IfOk, IsErrOf, OnErr, OnOk};
ghost use Rattle.std.specs.List.{AllByRecursion, flat_map};
ghost use Rattle.oram_semantics.specs.Progress.Status.{Stalling};
ghost use Rattle.oram_semantics.specs.State.{status_in};
ghost use Rattle.oram_semantics.specs.declared.events.Reply.{Reply};
ghost use Rattle.oram_semantics.specs.declared.events.ReplyBody.{ReplyBody};
ghost use Rattle.oram_core.specs.Core.{IsSameDevice, NotesChanges, scheme_of};
ghost use Rattle.oram_core.specs.PlainSteps.{done};
ghost use Rattle.oram_session.specs.Honesty.{HasFailed};
ghost use Rattle.oram_session.specs.CoreWork.{IsBodyOf, HasNoWork, IsUnderWay};
ghost use Rattle.oram_link_laws.specs.Runs.{Exchange};
ghost use Rattle.oram_rounds.specs.Arrivals.{AreArriving, GoesAheadAndTalks, TalksMeanwhile, TalksUntilCut, WasBegun};
ghost use Rattle.oram_rounds.specs.Batches.{texts};
ghost use Rattle.oram_rounds.specs.PathMessages.{IsPathFetch};
ghost use Rattle.oram_rounds.specs.Process.{HasTalked, TalksAll, Act, next_bodies, replies_of};
ghost use Rattle.oram_rounds.specs.Process.Act.{GoesAhead};
ghost use Rattle.oram_rounds.specs.Rounds.{Round};

use crate::arrivals::Arrivals;
use crate::batch::BatchLink;
use crate::delivery::deliver;
use crate::round_link::RoundLink;
use oram_bucket::Sealer;
use oram_core::{Core, Reaction, Reply};
use oram_host::ServeFault;
use oram_session::{MOST_RETRIES, reopen};
use std::alloc::Global;

/// Exchanges messages until each command at work has its reply, and returns the replies in order. A message that stalls is
/// sent again, three times at most.
///
/// Fails with `Stalled` if a message stalled each time, and with `OutOfMemory` if memory ran out, here or in the link. Whatever
/// the fault, replies that came before it are dropped.
pub fn carry_out_all<S: Sealer, B: BatchLink>(
    alloc: Global,
    core: &mut Core<S>,
    link: &mut RoundLink<B>,
    mut reaction: Reaction,
) -> Result<Vec<Reply>, ServeFault>
    requires { IsUnderWay (done reaction core.old.state) }
    ensures kept { IsSameDevice core.old core.new }
    ensures noted { NotesChanges core.old core.new }
    ensures ok { let v = scheme_of S.cipher core.old in
        IfOk result (λ replies. HasTalked v B.batches (core.old.state, link.old) replies.items (core.new.state, link.new)) }
    ensures count { IfOk result (λ replies. length replies.items ≡ length core.old.state.queue) }
    ensures no_work { OnOk result (HasNoWork core.new.state) }
    ensures block { IfOk result (λ replies. All (λ reply. IsBodyOf core.old.device reply.body) replies.items) }
    ensures failed { IfOk result (λ replies. All (λ reply. reply.body ≡ ReplyBody.Failed → HasFailed core.new.state) replies.items) }
    ensures err { let v = scheme_of S.cipher core.old in
        OnErr result ((replies : List Reply) × HasTalked v B.batches (core.old.state, link.old) replies (core.new.state, link.new)) }
    ensures stalled { IsErrOf result ServeFault.Stalled → status_in core.new.state ≡ Stalling }
    ensures fault { IfErr result (λ e. (e ≡ ServeFault.Stalled) ⊎ (e ≡ ServeFault.OutOfMemory)) }
{
    let mut replies = Vec::new(alloc);
    while let Some(message) = reaction.sends.pop() {
        reaction = deliver(alloc, core, link, message.as_slice(), MOST_RETRIES)?;
        replies.append(&mut reaction.replies)?;
    }
    Ok(replies)
}

/// Carries out commands as long as the core's messages can be answered without waiting for anything but the next answer that is to come: STOREs,
/// which are held back, and the FETCHes that went ahead. Adds the replies to `replies`, in order. Returns the core's reaction with the message that
/// is to be sent then, if there is one.
fn work_along<S: Sealer, B: BatchLink>(
    alloc: Global,
    core: &mut Core<S>,
    link: &mut RoundLink<B>,
    arrivals: &mut Arrivals,
    mut reaction: Reaction,
    replies: &mut Vec<Reply>,
) -> Result<Reaction, ServeFault>
    requires under_way { IsUnderWay (done reaction core.old.state) }
    requires paths { AllByRecursion (IsPathFetch link.old.device) arrivals.old.due }
    requires no_replies { replies.old.items ≡ [] }
    ensures kept { IsSameDevice core.old core.new }
    ensures noted { NotesChanges core.old core.new }
    ensures paths { AllByRecursion (IsPathFetch link.new.device) arrivals.new.due }
    ensures ok { let v = scheme_of S.cipher core.old in
        OnOk result ((l : Round B) (fetches : List (List ℕ)) → AreArriving B.batches B.streams l fetches [] arrivals.old link.old
        → (put : List Exchange) × AreArriving B.batches B.streams l fetches put arrivals.new link.new
        × TalksMeanwhile v B.batches core.old.state link.old put replies.new.items core.new.state link.new) }
    ensures err { let v = scheme_of S.cipher core.old in
        OnErr result ((l : Round B) (fetches : List (List ℕ)) → AreArriving B.batches B.streams l fetches [] arrivals.old link.old
        → (put : List Exchange) × AreArriving B.batches B.streams l fetches put arrivals.new link.new
        × TalksUntilCut v B.batches core.old.state link.old put core.new.state link.new) }
    ensures going { IfOk result (λ r. IsUnderWay (done r core.new.state) ⊎ (HasNoWork core.new.state × (core.new.state.queue ≡ []) × (r.sends.items ≡ []))) }
    ensures count { OnOk result (length replies.new.items + length core.new.state.queue ≡ length core.old.state.queue) }
    ensures block { OnOk result (All (λ reply. IsBodyOf core.old.device reply.body) replies.new.items) }
    ensures failed { OnOk result (All (λ reply. reply.body ≡ ReplyBody.Failed → HasFailed core.new.state) replies.new.items) }
    ensures fault { IfErr result (λ e. e ≡ ServeFault.OutOfMemory) }
{
    loop {
        let Some(message) = reaction.sends.last() else {
            return Ok(reaction);
        };
        if !link.answers(alloc, arrivals, message.as_slice()) {
            return Ok(reaction);
        }
        match deliver(alloc, core, link, message.as_slice(), 0) {
            Ok(heard) => reaction = heard,
            Err(ServeFault::Stalled) => return Ok(reopen(alloc, core)?),
            Err(_) => return Err(ServeFault::OutOfMemory),
        }
        replies.append(&mut reaction.replies)?;
    }
}

/// Carries out commands while the answers to their FETCHes arrive, which were begun together with the STOREs that are kept. Returns their replies
/// in order.
fn carry_out_begun<S: Sealer, B: BatchLink>(
    alloc: Global,
    core: &mut Core<S>,
    link: &mut RoundLink<B>,
    fetches: Vec<Vec<u8>>,
    reaction: Reaction,
) -> Result<Vec<Reply>, ServeFault>
    requires under_way { IsUnderWay (done reaction core.old.state) }
    requires some { texts fetches.items ≢ [] }
    requires paths { AllByRecursion (IsPathFetch link.old.device) (texts fetches.items) }
    ensures kept { IsSameDevice core.old core.new }
    ensures noted { NotesChanges core.old core.new }
    ensures ok { let v = scheme_of S.cipher core.old in
        IfOk result (λ replies. (l : Round B) → WasBegun B.streams l (texts fetches.items) link.old
        → GoesAheadAndTalks v B.batches (core.old.state, l) (texts fetches.items) replies.items (core.new.state, link.new)) }
    ensures count { IfOk result (λ replies. length replies.items ≡ length core.old.state.queue) }
    ensures no_work { OnOk result (HasNoWork core.new.state) }
    ensures block { IfOk result (λ replies. All (λ reply. IsBodyOf core.old.device reply.body) replies.items) }
    ensures failed { IfOk result (λ replies. All (λ reply. reply.body ≡ ReplyBody.Failed → HasFailed core.new.state) replies.items) }
    ensures err { let v = scheme_of S.cipher core.old in
        OnErr result ((l : Round B) → WasBegun B.streams l (texts fetches.items) link.old
        → (replies : List Reply) × GoesAheadAndTalks v B.batches (core.old.state, l) (texts fetches.items) replies (core.new.state, link.new)) }
    ensures stalled { IsErrOf result ServeFault.Stalled → status_in core.new.state ≡ Stalling }
    ensures fault { IfErr result (λ e. (e ≡ ServeFault.Stalled) ⊎ (e ≡ ServeFault.OutOfMemory)) }
{
    let mut arrivals = Arrivals::of(fetches);
    let mut replies = Vec::new(alloc);
    let worked = work_along(alloc, core, link, &mut arrivals, reaction, &mut replies);
    link.settle(alloc, arrivals);
    let reaction = worked?;
    if reaction.sends.is_empty() {
        return Ok(replies);
    }
    let mut last = carry_out_all(alloc, core, link, reaction)?;
    replies.append(&mut last)?;
    Ok(replies)
}

/// Sends FETCHes ahead of the core, which are those that it asks for next, with the STOREs that are kept behind them. Then exchanges messages until each
/// command at work has its reply, as [`carry_out_all`] does, and returns the replies in order. The core works while the answers arrive, if the
/// link below can give them one by one.
pub(crate) fn carry_out_ahead<S: Sealer, B: BatchLink>(
    alloc: Global,
    core: &mut Core<S>,
    link: &mut RoundLink<B>,
    fetches: Vec<Vec<u8>>,
    reaction: Reaction,
) -> Result<Vec<Reply>, ServeFault>
    requires under_way { IsUnderWay (done reaction core.old.state) }
    requires next { texts fetches.items ≡ next_bodies core.old.device core.old.state }
    requires ahead { link.old.ahead ≡ [] }
    requires held { link.old.held ≡ [] }
    ensures kept { IsSameDevice core.old core.new }
    ensures noted { NotesChanges core.old core.new }
    ensures ok { let v = scheme_of S.cipher core.old in
        IfOk result (λ replies. GoesAheadAndTalks v B.batches (core.old.state, link.old) (texts fetches.items) replies.items (core.new.state, link.new)) }
    ensures count { IfOk result (λ replies. length replies.items ≡ length core.old.state.queue) }
    ensures no_work { OnOk result (HasNoWork core.new.state) }
    ensures block { IfOk result (λ replies. All (λ reply. IsBodyOf core.old.device reply.body) replies.items) }
    ensures failed { IfOk result (λ replies. All (λ reply. reply.body ≡ ReplyBody.Failed → HasFailed core.new.state) replies.items) }
    ensures err { let v = scheme_of S.cipher core.old in
        OnErr result ((replies : List Reply) × GoesAheadAndTalks v B.batches (core.old.state, link.old) (texts fetches.items) replies (core.new.state, link.new)) }
    ensures stalled { IsErrOf result ServeFault.Stalled → status_in core.new.state ≡ Stalling }
    ensures fault { IfErr result (λ e. (e ≡ ServeFault.Stalled) ⊎ (e ≡ ServeFault.OutOfMemory)) }
{
    if link.begin_ahead(alloc, &fetches) {
        return carry_out_begun(alloc, core, link, fetches, reaction);
    }
    link.go_ahead(alloc, fetches);
    carry_out_all(alloc, core, link, reaction)
}
