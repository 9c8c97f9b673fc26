//! A device at work, with its host.
ghost use Rattle.std.specs.Prelude.{◌≡◌, ◌⊎◌, ℕ, ◌<◌, true, false, List, take, is_some, IfOk, IfErr, OnOk, MatchBool, Some, None, ⊤};
ghost use Rattle.std.specs.Io.KnownBytes.{Appends};
ghost use Rattle.std.specs.List.{FoldsTo};
ghost use Rattle.oram_geometry.specs.Sizes.{IsDevice};
ghost use Rattle.oram_host.specs.Flips.{IsByteless};
ghost use Rattle.oram_host.specs.Swaps.{LacksPair};
ghost use Rattle.oram_semantics.specs.Run.{Shown};
ghost use Rattle.oramsim.specs.Printer as printing;
ghost use Rattle.oramsim.specs.Script.{Point, Running, IsAnswered, IsDrained, IsNewRun, IsUnfit, Obeys, HostAnswers, Starts, after_turn};
ghost use Rattle.oramsim.specs.Script as spec;
ghost use Rattle.oramsim.specs.Correspondence.{AreWhole, GivesUp, GivesUpAt, RunsOn, RunsOnAt, IsFaithful, IsFaithfulAt, IsHalted, IsHonestAt, IsPlayed, IsUnder, IsWholeMachine, IsAtRun, StaysFaithful, still_wanted};

use crate::line::Line;
use crate::printer::{FaultText, ReadyText, reaction_text};
use crate::script::SimFault;
use oram_bucket::PlainSeal;
use oram_bytes::Bytes;
use oram_core::{Core, Event};
use oram_geometry::{Device, ShapeFault};
use oram_host::Server;
use oram_state::{StateFault, decode_state, encode_state};
use oram_tree::FormatFault;
use oram_wire::write;
use std::alloc::{AllocError, Global};
use std::io::Write;

/// Writes all of the text, or a beginning of it if the writer fails.
pub fn put<W: Write>(writer: &mut W, text: &[u8]) -> Result<(), SimFault>
    ensures ok { OnOk result (Appends (W.contents writer.old) (W.contents writer.new) text.now) }
    ensures cut { (count : ℕ) × Appends (W.contents writer.old) (W.contents writer.new) (take count text.now) }
    ensures fault { IfErr result (λ e. e ≡ SimFault.Write) }
{
    match write(writer, text) {
        Ok(()) => Ok(()),
        Err(_) => Err(SimFault::Write),
    }
}

/// A device at work, with its host and the message that has no answer yet.
#[derive(Drop)]
pub struct Machine {
    pub core: Core<PlainSeal>,
    pub server: Server,
    /// The kept copy of the server, if there is one.
    pub snapshot: Option<Server>,
    pub outstanding: Option<Bytes>,
}

/// Makes one step of the core and prints what it shows. Returns the message that it sends, if any.
fn play<W: Write>(
    alloc: Global,
    writer: &mut W,
    core: &mut Core<PlainSeal>,
    event: &Event,
) -> Result<Option<Bytes>, SimFault>
    ensures device { core.new.device ≡ core.old.device }
    ensures err { IfErr result (λ e. IsHalted e core.old.device core.old.state event.now core.new.state (W.contents writer.old) (W.contents writer.new)) }
    ensures ok { IfOk result (λ sent. (x : Shown) × IsPlayed core.old.device core.old.state event.now x sent core.new.state
        × Appends (W.contents writer.old) (W.contents writer.new) (printing.reaction_text x)) }
{
    let mut reaction = core.step(alloc, event)?;
    let text = reaction_text(alloc, &reaction)?;
    put(writer, text.as_bytes())?;
    Ok(reaction.sends.pop())
}

/// Returns which message is still outstanding after an event: none after an answer or a loss.
fn left_at(event: &Event, outstanding: Option<Bytes>) -> Option<Bytes>
    ensures { result ≡ spec.left_at event.now outstanding }
{
    match event {
        Event::Submit { .. } | Event::Retry => outstanding,
        Event::Answer(_) | Event::Lost | Event::Reopen => None,
    }
}

/// Saves a core and reads it back. A file doesn't say which entries of the table have changed.
fn read_back(alloc: Global, core: &Core<PlainSeal>) -> Result<Core<PlainSeal>, AllocError>
    requires { core.now.device.leaf_load ≡ 1 }
    ensures { IfOk result (λ again. again ≡ record core.now { noted = again.noted }) }
{
    let file = encode_state(alloc, core)?;
    match decode_state(alloc, PlainSeal, &file) {
        Ok(again) => Ok(again),
        Err(fault) => match fault {
            StateFault::OutOfMemory => Err(AllocError),
            // What was just written is a core's file.
            _ => unreachable!(),
        },
    }
}

impl Machine {
    /// Gives the device an event.
    pub fn tell<W: Write>(
        &mut self,
        alloc: Global,
        writer: &mut W,
        event: &Event,
    ) -> Result<(), SimFault>
        requires { IsWholeMachine self.old }
        ensures whole { OnOk result (IsWholeMachine self.new) }
        ensures left { OnOk result (spec.is_answer event.now ≡ true → is_some self.old.outstanding ≡ true → still_wanted self.new < still_wanted self.old) }
        ensures ok { (r : Running) → IsAtRun r self.old → OnOk result ((x : Shown) × RunsOn r (after_turn r event.now x) self.new (W.contents writer.old) (W.contents writer.new)
            × StaysFaithful r self.old.core.state event.now x self.new.core.state) }
        ensures err { (r : Running) → IsAtRun r self.old → IfErr result (λ e. GivesUp r (IsHonestAt r self.old.core.state event.now) (λ later. (later ≡ r) ⊎ spec.AtEvent r event.now later) e
            (W.contents writer.old) (W.contents writer.new)) }
    {
        let sent = play(alloc, writer, &mut self.core, event)?;
        let left = left_at(event, self.outstanding.take());
        self.outstanding = sent.or(left);
        Ok(())
    }

    /// Returns the bytes of the host's answer to the outstanding message, or no bytes if none is outstanding.
    fn answer_of_host(&mut self, alloc: Global) -> Result<Bytes, AllocError>
        ensures bytes { IfOk result (λ bytes. HostAnswers self.old.server self.old.outstanding bytes self.new.server) }
        ensures core { self.new.core ≡ self.old.core }
        ensures outstanding { self.new.outstanding ≡ self.old.outstanding }
        ensures snapshot { self.new.snapshot ≡ self.old.snapshot }
    {
        let Some(message) = &self.outstanding else {
            return Ok(Bytes::from_vec(Vec::new(alloc)));
        };
        let bytes = self.server.answer(alloc, message.as_slice())?;
        Ok(Bytes::from_vec(bytes))
    }

    /// Lets the host answer the outstanding message. If none is outstanding, the device gets an answer of no bytes.
    pub fn answer<W: Write>(&mut self, alloc: Global, writer: &mut W) -> Result<(), SimFault>
        requires { IsWholeMachine self.old }
        ensures whole { OnOk result (IsWholeMachine self.new) }
        ensures left { OnOk result (is_some self.old.outstanding ≡ true → still_wanted self.new < still_wanted self.old) }
        ensures ok { (r : Running) → IsAtRun r self.old → OnOk result ((x : Shown) × (later : Running) × IsAnswered r x later
            × RunsOn r later self.new (W.contents writer.old) (W.contents writer.new) × (IsFaithful r self.old.core.state → IsFaithful later self.new.core.state)) }
        ensures err { (r : Running) → IsAtRun r self.old → IfErr result (λ e. GivesUp r (IsFaithful r self.old.core.state) (λ later. (later ≡ r) ⊎ ((x : Shown) × IsAnswered r x later)) e
            (W.contents writer.old) (W.contents writer.new)) }
    {
        let bytes = self.answer_of_host(alloc)?;
        self.tell(alloc, writer, &Event::Answer(bytes))
    }

    /// Lets the host answer until no message is outstanding.
    pub fn drain<W: Write>(&mut self, alloc: Global, writer: &mut W) -> Result<(), SimFault>
        requires { IsWholeMachine self.old }
        ensures whole { OnOk result (IsWholeMachine self.new) }
        ensures ok { (r : Running) → IsAtRun r self.old → OnOk result ((xs : List Shown) × (later : Running)
            × FoldsTo IsDrained r xs later × (later.message ≡ None)
            × RunsOn r later self.new (W.contents writer.old) (W.contents writer.new) × (IsFaithful r self.old.core.state → IsFaithful later self.new.core.state)) }
        ensures err { (r : Running) → IsAtRun r self.old → IfErr result (λ e. GivesUp r (IsFaithful r self.old.core.state) (λ later. (xs : List Shown) × FoldsTo IsDrained r xs later) e
            (W.contents writer.old) (W.contents writer.new)) }
    {
        while self.outstanding.is_some() {
            self.answer(alloc, writer)?;
        }
        Ok(())
    }

    /// Gives the host the outstanding message, and loses its answer.
    pub fn lose_answer<W: Write>(&mut self, alloc: Global, writer: &mut W) -> Result<(), SimFault>
        requires { IsWholeMachine self.old }
        ensures whole { OnOk result (IsWholeMachine self.new) }
        ensures ok { (r : Running) → IsAtRun r self.old → OnOk result ((later : Running) × Obeys r Line.Late later
            × RunsOn r later self.new (W.contents writer.old) (W.contents writer.new) × (IsFaithful r self.old.core.state → IsFaithful later self.new.core.state)) }
        ensures err { (r : Running) → IsAtRun r self.old → IfErr result (λ e. GivesUp r (IsFaithful r self.old.core.state) (λ later. (later ≡ r) ⊎ Obeys r Line.Late later) e
            (W.contents writer.old) (W.contents writer.new)) }
    {
        let _unheard = self.answer_of_host(alloc)?;
        self.tell(alloc, writer, &Event::Lost)
    }

    /// Saves the core, reads it back and goes on with that one. The outstanding message is lost with the old core.
    pub fn reopen<W: Write>(&mut self, alloc: Global, writer: &mut W) -> Result<(), SimFault>
        requires { IsWholeMachine self.old }
        ensures whole { OnOk result (IsWholeMachine self.new) }
        ensures ok { (r : Running) → IsAtRun r self.old → OnOk result ((later : Running) × Obeys r Line.Reopen later
            × RunsOn r later self.new (W.contents writer.old) (W.contents writer.new) × (IsFaithful r self.old.core.state → IsFaithful later self.new.core.state)) }
        ensures err { (r : Running) → IsAtRun r self.old → IfErr result (λ e. GivesUp r (IsFaithful r self.old.core.state) (λ later. (later ≡ r) ⊎ Obeys r Line.Reopen later) e
            (W.contents writer.old) (W.contents writer.new)) }
    {
        self.core = read_back(alloc, &self.core)?;
        self.tell(alloc, writer, &Event::Reopen)
    }

    /// Keeps a copy of the host.
    pub fn keep(&mut self, alloc: Global) -> Result<(), AllocError>
        requires { IsWholeMachine self.old }
        ensures whole { OnOk result (IsWholeMachine self.new) }
        ensures ok { (r : Running) → IsAtRun r self.old → OnOk result ((later : Running) × Obeys r Line.Snapshot later × IsAtRun later self.new
            × (IsFaithful r self.old.core.state → IsFaithful later self.new.core.state)) }
    {
        self.snapshot = Some(self.server.copy(alloc)?);
        Ok(())
    }

    /// Replaces the host by its kept copy. Returns false if there is none.
    pub fn restore(&mut self, alloc: Global) -> Result<bool, AllocError>
        requires { IsWholeMachine self.old }
        ensures whole { OnOk result (IsWholeMachine self.new) }
        ensures ok { (r : Running) → IsAtRun r self.old → IfOk result (λ done. MatchBool done ((later : Running) × Obeys r Line.Restore later × IsAtRun later self.new)
            (r.copy ≡ None)) }
    {
        let Some(kept) = &self.snapshot else {
            return Ok(false);
        };
        self.server = kept.copy(alloc)?;
        Ok(true)
    }

    /// Flips the lowest bit of a byte of a record that the host keeps. Returns false if there is no such byte.
    pub fn tamper(&mut self, tree: u64, node: u64, offset: u64) -> bool
        requires { IsWholeMachine self.old }
        ensures whole { IsWholeMachine self.new }
        ensures ok { (r : Running) → IsAtRun r self.old → MatchBool result ((later : Running) × Obeys r (Line.Tamper tree node offset) later × IsAtRun later self.new)
            (IsByteless r.host tree node offset) }
    {
        self.server.flip(tree, node, offset)
    }

    /// Swaps two records that the host keeps. Returns false if one isn't there, or their lengths differ.
    pub fn swap(&mut self, tree_a: u64, node_a: u64, tree_b: u64, node_b: u64) -> bool
        requires { IsWholeMachine self.old }
        ensures whole { IsWholeMachine self.new }
        ensures ok { (r : Running) → IsAtRun r self.old → MatchBool result
            ((later : Running) × Obeys r (Line.Swap tree_a node_a tree_b node_b) later × IsAtRun later self.new)
            (LacksPair r.host tree_a node_a tree_b node_b) }
    {
        self.server.swap(tree_a, node_a, tree_b, node_b)
    }

    /// Does what a line says. Returns false if the line can't be done: it makes a second device, names a byte or a pair
    /// of records that isn't there, or restores a copy that wasn't kept.
    pub fn obey<W: Write>(
        &mut self,
        alloc: Global,
        writer: &mut W,
        line: Line,
    ) -> Result<bool, SimFault>
        requires { IsWholeMachine self.old }
        ensures whole { OnOk result (IsWholeMachine self.new) }
        ensures ok { (r : Running) → IsAtRun r self.old → result ≡ Ok true → (later : Running) × Obeys r line later
            × RunsOn r later self.new (W.contents writer.old) (W.contents writer.new) × (spec.is_meddling line ≡ false → IsFaithful r self.old.core.state → IsFaithful later self.new.core.state) }
        ensures bad { (r : Running) → IsAtRun r self.old → result ≡ Ok false → IsUnfit r line × (W.contents writer.new ≡ W.contents writer.old) }
        ensures err { (r : Running) → IsAtRun r self.old → IfErr result (λ e. GivesUp r ((spec.is_meddling line ≡ false) × IsFaithful r self.old.core.state) (IsUnder r line) e
            (W.contents writer.old) (W.contents writer.new)) }
    {
        match line {
            Line::CoreEvent(event) => {
                self.tell(alloc, writer, &event)?;
                Ok(true)
            }
            Line::Answer => {
                self.answer(alloc, writer)?;
                Ok(true)
            }
            Line::Drain => {
                self.drain(alloc, writer)?;
                Ok(true)
            }
            Line::Late => {
                self.lose_answer(alloc, writer)?;
                Ok(true)
            }
            Line::Reopen => {
                self.reopen(alloc, writer)?;
                Ok(true)
            }
            Line::Snapshot => {
                self.keep(alloc)?;
                Ok(true)
            }
            Line::Tamper { tree, node, offset } => Ok(self.tamper(tree, node, offset)),
            Line::Swap {
                tree_a,
                node_a,
                tree_b,
                node_b,
            } => Ok(self.swap(tree_a, node_a, tree_b, node_b)),
            Line::Restore => Ok(self.restore(alloc)?),
            Line::Device { .. } => Ok(false),
        }
    }
}

/// Formats a device on a host that keeps nothing yet. Such a host refuses a formatting only if it is out of memory.
fn formatted(alloc: Global, device: Device) -> Result<Machine, FormatFault>
    requires ranges { IsDevice device }
    requires load { device.leaf_load ≡ 1 }
    ensures whole { IfOk result (λ machine. IsWholeMachine machine) }
    ensures ok { IfOk result (λ machine. (r : Running) × IsNewRun device r × IsAtRun r machine × IsFaithful r machine.core.state) }
    ensures err { IfErr result (λ fault. fault ≡ FormatFault.OutOfMemory) }
{
    let mut server = Server::new(alloc);
    let core = Core::format(alloc, device, PlainSeal, &mut server)?;
    Ok(Machine {
        core,
        server,
        snapshot: None,
        outstanding: None,
    })
}

/// Makes a device and prints how many trees it has, or prints why its numbers make no device.
pub fn begin<W: Write>(
    alloc: Global,
    writer: &mut W,
    device: Result<Device, ShapeFault>,
) -> Result<Option<Machine>, SimFault>
    requires { IfOk device (λ d. d.leaf_load ≡ 1) }
    ensures whole { IfOk result (λ machine. AreWhole machine) }
    ensures ok { (head : List ℕ) → IfOk result (λ machine. (q : Point) × Starts head device q
        × RunsOnAt (record { stage = None; head = head }) q machine (W.contents writer.old) (W.contents writer.new) × IsFaithfulAt q.stage machine) }
    ensures err { (head : List ℕ) → IfErr result (λ e. GivesUpAt (record { stage = None; head = head }) ⊤ (λ q. (q ≡ record { stage = None; head = head }) ⊎ Starts head device q) e
        (W.contents writer.old) (W.contents writer.new)) }
{
    match device {
        Ok(device) => {
            let trees = device.trees();
            let Ok(machine) = formatted(alloc, device) else {
                return Err(SimFault::OutOfMemory);
            };
            let text = format!(in alloc; "{}", ReadyText(trees))?;
            put(writer, text.as_bytes())?;
            Ok(Some(machine))
        }
        Err(fault) => {
            let text = format!(in alloc; "{}", FaultText(fault))?;
            put(writer, text.as_bytes())?;
            Ok(None)
        }
    }
}
