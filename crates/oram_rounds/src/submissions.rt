//! Commands that are submitted together, to be carried out in one round.
ghost use Rattle.std.specs.Prelude.{◌≡◌, ◌↔◌, ◌++◌, List, length, map, count_by, if◌then◌else◌, Option, Some, None, IfOk, MatchOption, OnErr};
ghost use Rattle.oram_semantics.specs.Run.{is_accepted, shown_by};
ghost use Rattle.oram_semantics.specs.declared.events.Command.{Command};
ghost use Rattle.oram_semantics.specs.declared.events.Event.TheVariants.{Submit};
ghost use Rattle.oram_semantics.specs.declared.events.Note.TheVariants.{Accepted};
ghost use Rattle.oram_core.specs.Core.{IsSameDevice, NotesChanges, scheme_of};
ghost use Rattle.oram_core.specs.PlainSteps.{done};
ghost use Rattle.oram_core.specs.Steps.{Steps};
ghost use Rattle.oram_session.specs.CoreWork.{HasNoWork, IsUnderWay};
ghost use Rattle.oram_rounds.specs.Start.{SubmittedCommand, AreSubmitted};

use oram_bucket::Sealer;
use oram_bytes::Words;
use oram_core::{Command, Core, Event, Note, Reaction};
use oram_session::Tape;
use std::alloc::{AllocError, Global};

/// What became of commands that were submitted together.
#[derive(Debug, Drop)]
pub struct Submitted {
    /// What the core said to each command, in their order.
    pub notes: Vec<Note>,
    /// The reaction to the first command that was accepted, which has the message to the host; `None` if none was.
    pub begun: Option<Reaction>,
}

/// Submits a command with the first `count` words that the tape has for the next ticket. Other commands may wait at the core.
fn submit_next<S: Sealer, T: Tape>(
    alloc: Global,
    core: &mut Core<S>,
    tape: &mut T,
    count: usize,
    session: u32,
    command: Command,
) -> Result<Reaction, AllocError>
    ensures kept { IsSameDevice core.old core.new }
    ensures noted { NotesChanges core.old core.new }
    ensures quiet { core.new.noted ≡ core.old.noted }
    ensures ok { let v = scheme_of S.cipher core.old in
        IfOk result (λ r. Steps v core.old.state (Submit session command (T.words tape.old core.old.state.next count)) (shown_by r) core.new.state) }
    ensures tape { T.words tape.new ≡ T.words tape.old }
    ensures err { OnErr result (core.new ≡ core.old) }
{
    let words = Words::from_vec(tape.draw(alloc, core.next_ticket(), count)?);
    let event = Event::Submit {
        session,
        command,
        words,
    };
    core.step(alloc, &event)
}

/// Returns the reaction to the first command that was accepted: `begun` if an earlier one was, and otherwise `next` if this one
/// was.
fn first_accepted(begun: Option<Reaction>, next: Reaction) -> Option<Reaction>
    ensures { MatchOption begun (result ≡ if is_accepted next.note then Some next else None) (λ first. result ≡ Some first) }
{
    if begun.is_some() {
        return begun;
    }
    match next.note {
        Note::Accepted(_) => Some(next),
        _ => None,
    }
}

/// Submits commands one after the other, each with the tape's words of its ticket, to a core at which none waits. The first one
/// that is accepted is at work from then on, and the others wait after it; [`perform`](crate::perform) carries them all out.
///
/// Fails if memory runs out. The first commands may have been submitted by then, and those that were accepted still wait:
/// [`resume`](crate::resume) carries them out.
pub fn submit_all<S: Sealer, T: Tape>(
    alloc: Global,
    core: &mut Core<S>,
    tape: &mut T,
    session: u32,
    commands: Vec<Command>,
) -> Result<Submitted, AllocError>
    requires { HasNoWork core.old.state }
    ensures kept { IsSameDevice core.old core.new }
    ensures noted { NotesChanges core.old core.new }
    ensures tape { T.words tape.new ≡ T.words tape.old }
    ensures ok { let v = scheme_of S.cipher core.old in
        IfOk result (λ s. (submitted : List SubmittedCommand) × (map (λ a. a.command) submitted ≡ commands.items) × (map (λ a. a.shown.note) submitted ≡ s.notes.items)
        × AreSubmitted v (T.words tape.old) session core.old.state submitted core.new.state) }
    ensures begun { IfOk result (λ s. MatchOption s.begun (HasNoWork core.new.state) (λ first. IsUnderWay (done first core.new.state))) }
    // `begun` is the reaction to the first command that was accepted, if one was. Otherwise the core is as it was.
    ensures first { IfOk result (λ s. MatchOption s.begun (core.new ≡ core.old) (λ first. first.note ≡ Accepted core.old.state.next)) }
    ensures none { IfOk result (λ s. s.begun ≡ None ↔ count_by is_accepted s.notes.items ≡ 0) }
    // All that were accepted wait now.
    ensures count { IfOk result (λ s. length core.new.state.queue ≡ count_by is_accepted s.notes.items) }
    // Only the first commands, as many as were submitted before memory ran out.
    ensures err { let v = scheme_of S.cipher core.old in
        OnErr result ((submitted : List SubmittedCommand) × (rest : List Command) × (map (λ a. a.command) submitted ++ rest ≡ commands.items)
        × AreSubmitted v (T.words tape.old) session core.old.state submitted core.new.state) }
{
    let count = 2 * usize::from(core.device().trees());
    let mut notes = Vec::new(alloc);
    let mut begun = None;
    for command in commands {
        let reaction = submit_next(alloc, core, tape, count, session, command)?;
        notes.push(reaction.note)?;
        begun = first_accepted(begun, reaction);
    }
    Ok(Submitted { notes, begun })
}
