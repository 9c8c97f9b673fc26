//! Exchanges the core's messages over a link.
ghost use Rattle.std.specs.Prelude.{◌≡◌, ◌<◌, ◌⊎◌, [], ◌∷◌, ◌++◌, List, All, length, IfOk, IfErr, IsErrOf, OnOk, OnErr};
ghost use Rattle.std.specs.List.{flat_map};
ghost use Rattle.oram_semantics.specs.Run.{shown_by};
ghost use Rattle.oram_semantics.specs.State.{State, status_in};
ghost use Rattle.oram_semantics.specs.Progress.Status.{Waiting, Stalling};
ghost use Rattle.oram_semantics.specs.declared.events.Reply.{Reply};
ghost use Rattle.oram_core.specs.Core.{IsSameDevice, scheme_of};
ghost use Rattle.oram_core.specs.PlainSteps.{done};
ghost use Rattle.oram_core.specs.Steps.{Steps, Heard};
ghost use Rattle.oram_session.specs.Outcome.{Outcome};
ghost use Rattle.oram_session.specs.CoreWork.{HasNoWork, IsUnderWay, IsBodyOf};
ghost use Rattle.oram_session.specs.Exchanges.{Delivery, IsSent, IsCutOff, IsAnswered, IsGivenUp, AllSent, AllSentFrom, event_of, retries_after};
ghost use Rattle.oram_session.specs.Turns.{most_retries};

use crate::link::Link;
use oram_bucket::Sealer;
use oram_bytes::Bytes;
use oram_core::{Core, Event, Note, Reaction, Reply};
use oram_host::ServeFault;
use std::alloc::{AllocError, Global};

/// The greatest number of times that a message is sent again.
pub const MOST_RETRIES: u32 = 3;

/// Calls the link once with `message`, and gives the outcome to the core: the answer, or a loss if the call failed.
fn attempt<S: Sealer, L: Link>(
    alloc: Global,
    core: &mut Core<S>,
    link: &mut L,
    message: &[u8],
) -> Result<Reaction, AllocError>
    ensures kept { IsSameDevice core.old core.new }
    ensures ok { let v = scheme_of S.cipher core.old in
        IfOk result (λ r. (o : Outcome) × L.calls link.old message.now o link.new
        × Steps v core.old.state (event_of o) (shown_by r) core.new.state) }
    ensures err { OnErr result ((core.new ≡ core.old) × ((o : Outcome) × L.calls link.old message.now o link.new)) }
{
    let event = match link.call(alloc, message) {
        Ok(bytes) => Event::Answer(Bytes::from_vec(bytes)),
        Err(_) => Event::Lost,
    };
    core.step(alloc, &event)
}

/// Sends the outstanding message until it is answered, and sends it again at most `most` times.
///
/// Fails with `Stalled` if every call had a fault or found the host without room. The core's last message then counts as
/// lost.
pub fn exchange<S: Sealer, L: Link>(
    alloc: Global,
    core: &mut Core<S>,
    link: &mut L,
    message: &[u8],
    most: u32,
) -> Result<Reaction, ServeFault>
    requires waits { status_in core.old.state ≡ Waiting }
    requires message { message.now ≡ core.old.state.message }
    ensures kept { IsSameDevice core.old core.new }
    ensures ok { let v = scheme_of S.cipher core.old in
        IfOk result (λ r. (x : Delivery) × IsSent v L.calls most (core.old.state, link.old) x (core.new.state, link.new)
        × IsAnswered x × (x.replies ≡ r.replies.items)) }
    ensures heard { let v = scheme_of S.cipher core.old in
        IfOk result (λ r. Heard v core.old.state (done r core.new.state)) }
    ensures stalled { let v = scheme_of S.cipher core.old in
        IsErrOf result ServeFault.Stalled → (x : Delivery)
        × IsSent v L.calls most (core.old.state, link.old) x (core.new.state, link.new) × IsGivenUp most x }
    ensures left { IsErrOf result ServeFault.Stalled → status_in core.new.state ≡ Stalling }
    ensures memory { let v = scheme_of S.cipher core.old in
        IsErrOf result ServeFault.OutOfMemory → (x : Delivery)
        × IsCutOff v L.calls most (core.old.state, link.old) x (core.new.state, link.new) }
    ensures fault { IfErr result (λ e. (e ≡ ServeFault.Stalled) ⊎ (e ≡ ServeFault.OutOfMemory)) }
{
    let mut retries = 0;
    loop {
        let reaction = attempt(alloc, core, link, message)?;
        if !matches!(reaction.note, Note::Stalled) {
            return Ok(reaction);
        }
        if retries == most {
            return Err(ServeFault::Stalled);
        }
        let _resent = core.step(alloc, &Event::Retry)?;
        retries += 1;
    }
}

/// Exchanges messages until no command is left, and returns the reaction to the last answer. Sends the first message
/// again at most `first` times, and each later one at most `MOST_RETRIES` times.
pub(crate) fn exchange_all<S: Sealer, L: Link>(
    alloc: Global,
    core: &mut Core<S>,
    link: &mut L,
    mut reaction: Reaction,
    first: u32,
) -> Result<Reaction, ServeFault>
    requires { IsUnderWay (done reaction core.old.state) }
    ensures kept { IsSameDevice core.old core.new }
    ensures ok { let v = scheme_of S.cipher core.old in
        IfOk result (λ r. (xs : List Delivery) × (length (flat_map (λ y. y.replies) xs) ≡ length core.old.state.queue)
        × ((early : List Reply) × (flat_map (λ y. y.replies) xs ≡ early ++ r.replies.items))
        × AllSentFrom v L.calls first most_retries (core.old.state, link.old) xs (core.new.state, link.new)) }
    ensures no_work { OnOk result (HasNoWork core.new.state) }
    ensures replied { IfOk result (λ r. 0 < length r.replies.items) }
    ensures block { IfOk result (λ r. All (λ reply. IsBodyOf core.old.device reply.body) r.replies.items) }
    ensures stalled { let v = scheme_of S.cipher core.old in
        IsErrOf result ServeFault.Stalled → (xs : List Delivery) × (mid : State × L) × (last : Delivery)
        × AllSentFrom v L.calls first most_retries (core.old.state, link.old) xs mid
        × IsSent v L.calls (retries_after first most_retries xs) mid last (core.new.state, link.new)
        × IsGivenUp (retries_after first most_retries xs) last }
    ensures left { IsErrOf result ServeFault.Stalled → status_in core.new.state ≡ Stalling }
    ensures memory { let v = scheme_of S.cipher core.old in
        IsErrOf result ServeFault.OutOfMemory → (xs : List Delivery) × (mid : State × L) × (last : Delivery)
        × AllSentFrom v L.calls first most_retries (core.old.state, link.old) xs mid
        × IsCutOff v L.calls (retries_after first most_retries xs) mid last (core.new.state, link.new) }
    ensures fault { IfErr result (λ e. (e ≡ ServeFault.Stalled) ⊎ (e ≡ ServeFault.OutOfMemory)) }
{
    let mut most = first;
    while let Some(message) = reaction.sends.pop() {
        reaction = exchange(alloc, core, link, message.as_slice(), most)?;
        most = MOST_RETRIES;
    }
    Ok(reaction)
}

/// Exchanges messages until the one command at work has its reply.
pub fn carry_out<S: Sealer, L: Link>(
    alloc: Global,
    core: &mut Core<S>,
    link: &mut L,
    reaction: Reaction,
) -> Result<Reply, ServeFault>
    requires under_way { IsUnderWay (done reaction core.old.state) }
    requires alone { length core.old.state.queue ≡ 1 }
    ensures kept { IsSameDevice core.old core.new }
    ensures ok { let v = scheme_of S.cipher core.old in
        IfOk result (λ reply. (xs : List Delivery)
        × AllSent v L.calls most_retries (core.old.state, link.old) xs (core.new.state, link.new)
        × (flat_map (λ y. y.replies) xs ≡ reply ∷ [])) }
    ensures no_work { OnOk result (HasNoWork core.new.state) }
    ensures block { IfOk result (λ reply. IsBodyOf core.old.device reply.body) }
    ensures stalled { let v = scheme_of S.cipher core.old in
        IsErrOf result ServeFault.Stalled → (xs : List Delivery) × (mid : State × L) × (last : Delivery)
        × AllSent v L.calls most_retries (core.old.state, link.old) xs mid
        × IsSent v L.calls most_retries mid last (core.new.state, link.new) × IsGivenUp most_retries last }
    ensures memory { let v = scheme_of S.cipher core.old in
        IsErrOf result ServeFault.OutOfMemory → (xs : List Delivery) × (mid : State × L) × (last : Delivery)
        × AllSent v L.calls most_retries (core.old.state, link.old) xs mid
        × IsCutOff v L.calls most_retries mid last (core.new.state, link.new) }
    ensures fault { IfErr result (λ e. (e ≡ ServeFault.Stalled) ⊎ (e ≡ ServeFault.OutOfMemory)) }
{
    let mut last = exchange_all(alloc, core, link, reaction, MOST_RETRIES)?;
    match last.replies.pop() {
        Some(reply) => Ok(reply),
        None => unreachable!(),
    }
}
