//! A core with its link, its keeper and its tape.

ghost use Rattle.std.specs.Prelude.{◌≡◌, ◌≢◌, ◌⊎◌, ◌<◌, false, List, [], All, map, IsOk, IfOk, IfErr, IsErrOf, IsTrue, MatchResult, OnOk};
ghost use Rattle.oram_core.specs.Core.{IsSameDevice};
ghost use Rattle.oram_semantics.specs.Events.{address_of};
ghost use Rattle.oram_rounds.specs.Process.{Act};
ghost use Rattle.oram_rounds.specs.ProcessSteps.ProcessStep.{Acts};
ghost use Rattle.oram_session.specs.Honesty.{HasFailed};
ghost use Rattle.oram_session.specs.CoreWork.{HasNoWork};
ghost use Rattle.oram_nbd.specs.Beside.{GoesOn, HasArrays};
ghost use Rattle.oram_nbd.specs.Calls.{FailsByLies, Saves, SavesPart};
ghost use Rattle.oram_volume.specs.CarriedOut.{AsksRound, Had, IsAfterFirst, Stops, TakesSteps, after_commands, bodies_from};
ghost use Rattle.oram_volume.specs.RangeCommands.{FitsDevice};
ghost use Rattle.oram_volume.specs.HeldArrays.{HostHears, HoldsArray, KeepsArray, running};

use oram_bucket::Sealer;
use oram_core::{Command, Core, Reply, ReplyBody};
use oram_nbd::DiskFault;
use oram_rounds::{
    BatchLink, Keeper, RoundFault, RoundLink, Submitted, perform, resume, submit_all,
};
use oram_session::Tape;
use std::alloc::Global;
use std::marker::Model;

/// A volume has one client.
const SESSION: u32 = 0;

/// A device whose state is kept, as a disk of whole blocks.
///
/// The link has to be made for the core's device, the keeper has to keep this process alone, and the tape has to be the
/// device's own, with as many trees. The disk stops if the host is out of reach, if the process can't be kept, or if no access
/// is left; if the host doesn't answer as it has to, the disk fails for good. The core has noted each entry of its table that differs
/// from the table that the keeper kept last; [`Core::note_any_change`] sees to that. The link below tells of each of its records that
/// differs from those that the keeper kept last.
#[derive(Drop)]
pub struct Volume<S: Sealer, B: BatchLink, K: Keeper, T: Tape> {
    pub core: Core<S>,
    pub link: RoundLink<B>,
    pub keeper: K,
    pub tape: T,
}

impl<S: Sealer, B: BatchLink, K: Keeper, T: Tape> Model for Volume<S, B, K, T> {
    ghost use Rattle.oram_core.specs.Core.{IsNotedSince};
    ghost use Rattle.oram_volume.specs.Parts.{VolumeParts};

    ghost Value = { VolumeParts S B K T };

    ghost view = { λ v. record { core = v.core; link = v.link; keeper = v.keeper; tape = v.tape } };

    ghost invariant = { λ v. IsNotedSince (K.kept_table v.keeper) v.core × B.tells v.link.inner (K.kept_records v.keeper) };
}

/// Returns the fault of a disk for the fault of a round.
fn disk_fault(fault: RoundFault) -> DiskFault
    ensures failed { result ≢ DiskFault.Failed }
    ensures stopped { result ≡ DiskFault.Stopped → (fault ≡ RoundFault.Stalled) ⊎ (fault ≡ RoundFault.NotKept) }
    ensures memory { result ≡ DiskFault.OutOfMemory → fault ≡ RoundFault.OutOfMemory }
{
    match fault {
        RoundFault::Stalled | RoundFault::NotKept => DiskFault::Stopped,
        RoundFault::OutOfMemory => DiskFault::OutOfMemory,
    }
}

/// Returns whether a reply says that the device has failed.
fn has_failure(replies: &[Reply]) -> bool
    ensures yes { IsTrue result → All (λ reply. reply.body ≢ ReplyBody.Failed) replies.now → ⊥ }
    ensures no { result ≡ false → All (λ reply. reply.body ≢ ReplyBody.Failed) replies.now }
{
    for reply in replies {
        if reply.body == ReplyBody::Failed {
            return true;
        }
    }
    false
}

/// Returns the result of a round of `count` commands if the core accepts none of them: no replies if there are no commands,
/// and else `Stopped`.
fn unanswered(alloc: Global, count: usize) -> Result<Vec<Reply>, DiskFault>
    ensures ok { IfOk result (λ replies. (replies.items ≡ []) × (count ≡ 0)) }
    ensures err { IfErr result (λ e. (e ≡ DiskFault.Stopped) × (0 < count)) }
{
    if count == 0 {
        return Ok(Vec::new(alloc));
    }
    Err(DiskFault::Stopped)
}

impl<S: Sealer, B: BatchLink, K: Keeper, T: Tape> Volume<S, B, K, T> {
    /// Carries out the commands that wait from before. Each round does so first.
    pub fn resume(&mut self, alloc: Global) -> Result<(), DiskFault>
        ensures kept { IsSameDevice self.old.core self.new.core }
        ensures tape { T.words self.new.tape ≡ T.words self.old.tape }
        ensures no_work { OnOk result (HasNoWork self.new.core.state) }
        ensures calm { HasNoWork self.old.core.state → IsOk result × (self.new.core ≡ self.old.core) }
        // It holds the same array. What was kept before still is, or this array is kept now.
        ensures goes { GoesOn (Had B.batches K.reads_back) HostHears (HasArrays HoldsArray (KeepsArray K.reads_back)) (running S.cipher T.words self.old)
            (λ _ old new. (new.held ≡ old.held) × SavesPart (λ array part. part ≡ array) old new) (running S.cipher T.words self.new) }
        ensures fault { IfErr result (λ e. e ≢ DiskFault.Failed) }
        // It takes no command.
        ensures takes_none { (acts : List Act) × TakesSteps B.batches K.reads_back (running S.cipher T.words self.old) (map Acts acts) (running S.cipher T.words self.new) }
        // It stops where a message stalls or the process can't be kept, and nowhere else.
        ensures stopped { IsErrOf result DiskFault.Stopped → Stops B.batches K.reads_back (running S.cipher T.words self.old) (running S.cipher T.words self.new) }
    {
        match resume(alloc, &mut self.core, &mut self.link, &mut self.keeper) {
            Ok(_) => Ok(()),
            Err(fault) => Err(disk_fault(fault)),
        }
    }

    /// Carries out commands in one round, after what waits, and returns their replies, in their order. If there are commands,
    /// an `Ok` says that what they have done is kept. After an `Err` the first ones, some or none of them, are carried out or
    /// will be. The next process would then hold what it would have held before the call, or what the first ones, some or none,
    /// leave.
    pub(crate) fn carry_out_all(
        &mut self,
        alloc: Global,
        commands: Vec<Command>,
    ) -> Result<Vec<Reply>, DiskFault>
        requires { All (FitsDevice self.old.core.device) commands.items }
        ensures kept { IsSameDevice self.old.core self.new.core }
        ensures tape { T.words self.new.tape ≡ T.words self.old.tape }
        ensures goes { GoesOn (Had B.batches K.reads_back) HostHears (HasArrays HoldsArray (KeepsArray K.reads_back)) (running S.cipher T.words self.old)
            (λ may_lie old new. let d = self.old.core.device in MatchResult result
            (λ replies. (map (λ reply. reply.body) replies.items ≡ bodies_from d commands.items old.held) × (new.held ≡ after_commands d commands.items old.held))
            (λ _. IsAfterFirst d commands.items old.held new.held) × FailsByLies result may_lie
            × Saves result (commands.items ≢ []) (IsAfterFirst d commands.items) old new)
            (running S.cipher T.words self.new) }
        ensures asks { OnOk result (AsksRound B.batches K.reads_back (running S.cipher T.words self.old) (map address_of commands.items) (running S.cipher T.words self.new)) }
        ensures refused { OnOk result (HasFailed self.old.core.state → ⊥) }
        ensures failing { IsErrOf result DiskFault.Failed → HasFailed self.new.core.state }
        ensures still { HasFailed self.old.core.state → HasFailed self.new.core.state }
        ensures stopped { IsErrOf result DiskFault.Stopped → Stops B.batches K.reads_back (running S.cipher T.words self.old) (running S.cipher T.words self.new) }
    {
        self.resume(alloc)?;
        if self.core.failure().is_some() {
            return Err(DiskFault::Failed);
        }
        let count = commands.len();
        let Submitted { notes: _, begun } = submit_all(
            alloc,
            &mut self.core,
            &mut self.tape,
            SESSION,
            commands,
        )?;
        let Some(first) = begun else {
            return unanswered(alloc, count);
        };
        let performed = perform(
            alloc,
            &mut self.core,
            &mut self.link,
            &mut self.keeper,
            first,
        );
        match performed {
            Ok(replies) if has_failure(&replies) => return Err(DiskFault::Failed),
            Ok(replies) if replies.len() < count => return Err(DiskFault::Stopped),
            Ok(replies) => return Ok(replies),
            Err(fault) => return Err(disk_fault(fault)),
        }
    }
}
