//! Carries out the commands that wait in a core that was read back.
ghost use Rattle.std.specs.Prelude.{◌≡◌, ◌⊎◌, [], ◌∷◌, List, length, Ok, IfOk, IfErr, IsErrOf, OnOk, OnErr};
ghost use Rattle.std.specs.List.{flat_map};
ghost use Rattle.oram_semantics.specs.Progress.Status.{Stalling};
ghost use Rattle.oram_semantics.specs.State.{status_in};
ghost use Rattle.oram_semantics.specs.declared.events.Event.TheVariants.{Reopen, Retry};
ghost use Rattle.oram_core.specs.Core.{IsSameDevice, NotesChanges, scheme_of};
ghost use Rattle.oram_core.specs.PlainSteps.{done};
ghost use Rattle.oram_session.specs.Exchanges.{Runs, Delivery};
ghost use Rattle.oram_session.specs.CoreWork.{HasNoWork, IsUnderWay, has_no_work_in};
ghost use Rattle.oram_session.specs.Resumption.{HasGoneOn, HasStalled, IsCutShort};

use crate::exchanges::{MOST_RETRIES, exchange_all};
use crate::link::Link;
use oram_bucket::Sealer;
use oram_core::{Core, Event, Reaction};
use oram_host::ServeFault;
use std::alloc::{AllocError, Global};

/// Returns whether the core is idle or has failed.
pub fn has_no_work<S: Sealer>(core: &Core<S>) -> bool
    ensures { result ≡ has_no_work_in (status_in core.now.state) }
{
    core.is_idle() || core.failure().is_some()
}

/// Tells a core at work that it was reopened, and makes it send its message again.
pub fn reopen<S: Sealer>(alloc: Global, core: &mut Core<S>) -> Result<Reaction, AllocError>
    requires { ¬ HasNoWork core.old.state }
    ensures kept { IsSameDevice core.old core.new }
    ensures noted { NotesChanges core.old core.new }
    ensures ok { let v = scheme_of S.cipher core.old in
        OnOk result (Runs v core.old.state (Reopen ∷ Retry ∷ []) [] core.new.state) }
    ensures under_way { IfOk result (λ r. IsUnderWay (done r core.new.state)) }
    ensures queue { OnOk result (core.new.state.queue ≡ core.old.state.queue) }
    ensures err { let v = scheme_of S.cipher core.old in
        OnErr result (Runs v core.old.state (Reopen ∷ []) [] core.new.state) }
{
    let _stalled = core.step(alloc, &Event::Reopen)?;
    core.step(alloc, &Event::Retry)
}

/// Carries out the commands that wait, drops their replies, and returns the number of these commands. Takes any core,
/// including one that was read back from its state file.
///
/// The outstanding message counts as lost, which is its first stall, and is sent again. After that, a call that has a
/// fault or finds the host without room is made again, until one message has stalled four times. After the faults
/// `Stalled` and `OutOfMemory` another call can carry out the rest.
pub fn resume<S: Sealer, L: Link>(
    alloc: Global,
    core: &mut Core<S>,
    link: &mut L,
) -> Result<u64, ServeFault>
    ensures kept { IsSameDevice core.old core.new }
    ensures no_work { OnOk result (HasNoWork core.new.state) }

    // In an idle or failed core there is nothing to carry out.
    ensures none { HasNoWork core.old.state → (result ≡ Ok 0) × (core.new ≡ core.old) × (link.new ≡ link.old) }

    // In any other core, each command that waits gets its reply.
    ensures count { ¬ HasNoWork core.old.state → IfOk result (λ k. k ≡ length core.old.state.queue) }
    ensures ok { let v = scheme_of S.cipher core.old in
        ¬ HasNoWork core.old.state → IfOk result (λ k. (xs : List Delivery) × (length (flat_map (λ y. y.replies) xs) ≡ k)
        × HasGoneOn v L.calls (core.old.state, link.old) xs (core.new.state, link.new)) }

    // One message stalled four times, or memory ran out. Everything done before stays done.
    ensures stalled { let v = scheme_of S.cipher core.old in
        IsErrOf result ServeFault.Stalled → HasStalled v L.calls (core.old.state, link.old) (core.new.state, link.new) }
    ensures left { IsErrOf result ServeFault.Stalled → status_in core.new.state ≡ Stalling }
    ensures memory { let v = scheme_of S.cipher core.old in
        IsErrOf result ServeFault.OutOfMemory → IsCutShort v L.calls (core.old.state, link.old) (core.new.state, link.new) }
    ensures fault { IfErr result (λ e. (e ≡ ServeFault.Stalled) ⊎ (e ≡ ServeFault.OutOfMemory)) }
{
    if has_no_work(core) {
        return Ok(0);
    }
    let waiting = core.waiting() as u64;
    let reaction = reopen(alloc, core)?;
    exchange_all(alloc, core, link, reaction, MOST_RETRIES - 1)?;
    Ok(waiting)
}
