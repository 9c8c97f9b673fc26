//! Sends one message of a core until it is answered.
ghost use Rattle.std.specs.Prelude.{◌≡◌, ◌≢◌, ◌⊎◌, [], ◌∷◌, Err, IfErr, IfOk, IsErrOf, OnErr};
ghost use Rattle.oram_semantics.specs.Run.{shown_by};
ghost use Rattle.oram_semantics.specs.State.{status_in};
ghost use Rattle.oram_semantics.specs.Progress.Status.{Stalling, Waiting};
ghost use Rattle.oram_core.specs.Core.{IsSameDevice, NotesChanges, scheme_of};
ghost use Rattle.oram_core.specs.PlainSteps.{done};
ghost use Rattle.oram_core.specs.Steps.{Heard, Steps};
ghost use Rattle.oram_session.specs.Exchanges.{Delivery, IsAnswered, IsCutOff, IsGivenUp, IsSent, event_of};
ghost use Rattle.oram_session.specs.Outcome.{Outcome};
ghost use Rattle.oram_session.specs.declared.link.LinkFault.TheVariants.{OutOfMemory};

use oram_bucket::Sealer;
use oram_bytes::Bytes;
use oram_core::{Core, Event, Note, Reaction};
use oram_host::ServeFault;
use oram_session::{Link, LinkFault};
use std::alloc::{AllocError, Global};

/// Calls the link once with `message`, and gives the outcome to the core: the answer, or a loss if the call failed. Running out
/// of memory isn't a loss: it ends the attempt, and the core is told nothing.
fn attempt<S: Sealer, L: Link>(
    alloc: Global,
    core: &mut Core<S>,
    link: &mut L,
    message: &[u8],
) -> Result<Reaction, AllocError>
    ensures kept { IsSameDevice core.old core.new }
    ensures noted { NotesChanges core.old core.new }
    ensures ok { let v = scheme_of S.cipher core.old in
        IfOk result (λ r. (o : Outcome) × L.calls link.old message.now o link.new
        × Steps v core.old.state (event_of o) (shown_by r) core.new.state × (o ≢ Err OutOfMemory)) }
    ensures err { OnErr result ((core.new ≡ core.old) × ((o : Outcome) × L.calls link.old message.now o link.new)) }
{
    let event = match link.call(alloc, message) {
        Ok(bytes) => Event::Answer(Bytes::from_vec(bytes)),
        Err(LinkFault::OutOfMemory) => return Err(AllocError),
        Err(_) => Event::Lost,
    };
    core.step(alloc, &event)
}

/// Sends the outstanding message until it is answered, and sends it again at most `most` times, like `exchange` in
/// `oram_session`. But if memory runs out in the link, the message doesn't count as lost: that ends the delivery. Sessions of
/// `oramd` count each fault of their link as a loss, including this one, so the two functions are kept apart.
///
/// Fails with `Stalled` if every call had a fault or found the host without room. The core's last message then counts as
/// lost.
pub(crate) fn deliver<S: Sealer, L: Link>(
    alloc: Global,
    core: &mut Core<S>,
    link: &mut L,
    message: &[u8],
    most: u32,
) -> Result<Reaction, ServeFault>
    requires waits { status_in core.old.state ≡ Waiting }
    requires message { message.now ≡ core.old.state.message }
    ensures kept { IsSameDevice core.old core.new }
    ensures noted { NotesChanges core.old core.new }
    ensures ok { let v = scheme_of S.cipher core.old in
        IfOk result (λ r. (x : Delivery) × IsSent v L.calls most (core.old.state, link.old) x (core.new.state, link.new)
        × IsAnswered x × (x.replies ≡ r.replies.items)) }
    ensures heard { let v = scheme_of S.cipher core.old in
        IfOk result (λ r. Heard v core.old.state (done r core.new.state)) }
    ensures stalled { let v = scheme_of S.cipher core.old in
        IsErrOf result ServeFault.Stalled → (x : Delivery)
        × IsSent v L.calls most (core.old.state, link.old) x (core.new.state, link.new) × IsGivenUp most x }
    ensures left { IsErrOf result ServeFault.Stalled → status_in core.new.state ≡ Stalling }
    ensures memory { let v = scheme_of S.cipher core.old in
        IsErrOf result ServeFault.OutOfMemory → (x : Delivery)
        × IsCutOff v L.calls most (core.old.state, link.old) x (core.new.state, link.new) }
    ensures fault { IfErr result (λ e. (e ≡ ServeFault.Stalled) ⊎ (e ≡ ServeFault.OutOfMemory)) }
{
    let mut retries = 0;
    loop {
        let reaction = attempt(alloc, core, link, message)?;
        if !matches!(reaction.note, Note::Stalled) {
            return Ok(reaction);
        }
        if retries == most {
            return Err(ServeFault::Stalled);
        }
        let _resent = core.step(alloc, &Event::Retry)?;
        retries += 1;
    }
}
