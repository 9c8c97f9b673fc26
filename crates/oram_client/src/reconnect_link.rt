//! A link that tries until its host answers.
ghost use Rattle.std.specs.Prelude.{◌≡◌, ◌≢◌, ◌⊎◌, ◌++◌, ◌*◌, ◌-◌, ◌<◌, ◌≤◌, ◌^◌, [], ◌∷◌, List, None, Some, min, IfOk, IfErr, IfSome, MatchBool, MatchOption, MatchResult};
ghost use Rattle.oram_link_laws.specs.Runs.{Exchange};
ghost use Rattle.oram_rounds.specs.Batches.{BatchOutcome, batch_outcome_of, texts};
ghost use Rattle.oram_client.specs.Attempts.{attempt_of, link_outcome};
ghost use Rattle.oram_client.specs.Pipelined.{EndsAwaited, EndsTry, GoesOn, NoneAhead};
ghost use Rattle.oram_client.specs.Reconnect.{HasLine, IsPaused, IsReached, IsTimedOut, IsTried, IsTroubleIn, MakesTries, ReconnectBatch, dialer_kind, limits};
ghost use Rattle.oram_client.specs.Streaming.{HoldsBegun, NoneBegun};
ghost use Rattle.oram_client.specs.declared.awaited.Awaited.TheVariants.{Ahead, Begun};

use crate::awaited::{AheadBatch, Awaited, BegunBatch, Progress, Sending};
use crate::dialer::{Dial, HostWatch, Limits, Trouble};
use crate::no_room::has_no_room;
use crate::reconnect_time::time_left;
use crate::trouble_reporter::TroubleReporter;
use oram_pipeline::PipelinedLink;
use oram_rounds::{BatchLink, LinkRecords};
use oram_session::LinkFault;
use std::alloc::{AllocError, Global};
use std::marker::Model;

/// The pause before the second try, in milliseconds. Each later pause is twice as long as the one before.
const FIRST_PAUSE: u64 = 100;

/// The longest pause, in milliseconds.
const MOST_PAUSE: u64 = 5_000;

/// The shortest time for which a host may be silent over a connection, in milliseconds.
const LEAST_SILENCE: u64 = 1_000;

/// The longest time for which a host may be silent over a connection, in milliseconds.
const MOST_SILENCE: u64 = 60_000;

/// The shortest time that a host has for a batch, in milliseconds. A batch of many STOREs takes seconds over a slow line, also if
/// the reconnect timeout is shorter.
const LEAST_BATCH: u64 = 20_000;

/// How long messages that have no answers yet go on waiting, in milliseconds.
#[derive(Clone, Copy, Debug)]
struct Wait {
    /// The next pause.
    pause: u64,
    /// How much time is left of the reconnect timeout.
    left: u64,
}

/// A link that opens its connection again after losing it.
///
/// A batch is tried until all of it is answered, or until the reconnect timeout has passed. If a batch over a connection has a
/// fault, the link closes that connection and sends the whole batch over a new one; if the host has no room for one of the
/// messages, it sends the whole batch again over the same connection. So no answer counts before the host has carried out all
/// STOREs of the batch. If memory runs out, the batch isn't tried again: the link returns this fault at once, and stays
/// usable. The link pauses before each try but the first. Sending a batch again changes nothing at an honest host, which
/// carries it out once more, in the same order and with the same result; a session repeats a message after a fault in the same
/// manner. The reconnect timeout is time by the clock from the beginning of the batch: while nobody uses the link, it doesn't
/// run. Once it has passed, or the host turned out to keep another disk or none, later batches try nothing.
///
/// While a connection is open, the messages of a batch can be sent ahead of their answers ([`PipelinedLink`]). Their answers are then
/// what the first try comes to. If they don't come, the whole batch is sent again as any other. Its reconnect timeout runs from the moment
/// when its messages were sent, also while the caller does something else.
///
/// Over an open connection a batch can also be begun, and its answers taken one by one ([`BatchLink::begin`]). Such a batch isn't tried again: if
/// it breaks off, the connection is closed, and the caller gets the fault.
#[derive(Debug, Drop)]
pub struct ReconnectLink<D: Dial, W> {
    dialer: D,
    news: TroubleReporter<W>,
    line: Option<D::Line>,
    /// In milliseconds.
    reconnect_timeout: u64,
    /// Why the link gave up.
    trouble: Option<Trouble>,
    /// A batch whose answers are still to be received. It has the open connection then, and `line` is `None`.
    awaited: Option<Awaited<D::Line>>,
}

impl<D: Dial, W> Model for ReconnectLink<D, W> {
    ghost use Rattle.oram_client.specs.Reconnect.{ReconnectState};

    ghost Value = { ReconnectState D D.Line };

    ghost view = { λ l. record { dialer = l.dialer; line = l.line; reconnect_timeout = l.reconnect_timeout; trouble = l.trouble; awaited = l.awaited } };
}

/// Returns why an attempt has to be made again; `None` if there is something to give to the caller: the answers, or that
/// memory ran out.
fn trouble_in(came: &Result<Vec<Vec<u8>>, Trouble>) -> Option<Trouble>
    ensures { IsTroubleIn (attempt_of came.now) result }
{
    match came {
        Ok(answers) => has_no_room(answers).then_some(Trouble::NoRoom),
        Err(trouble) => {
            if trouble.lacks_memory() {
                None
            } else {
                Some(*trouble)
            }
        }
    }
}

/// Returns what the caller receives for an attempt.
fn link_outcome(came: Result<Vec<Vec<u8>>, Trouble>) -> Result<Vec<Vec<u8>>, LinkFault>
    ensures { batch_outcome_of result ≡ link_outcome (attempt_of came) }
{
    match came {
        Ok(answers) => Ok(answers),
        Err(trouble) => Err(trouble.fault()),
    }
}

/// Returns what [`ReconnectLink::reach`] returns for the answers to its message, if the link hasn't given up.
fn reached(answers: Result<Vec<Vec<u8>>, LinkFault>) -> Result<(), Trouble>
    ensures { IsReached (batch_outcome_of answers) None result }
{
    match answers {
        Ok(_) => Ok(()),
        Err(fault) => Err(Trouble::OutOfReach(fault)),
    }
}

impl<D: Dial, W: HostWatch> ReconnectLink<D, W> {
    /// Makes a link with no connection yet and with a reconnect timeout of `seconds`. Allocates nothing.
    pub fn new(_alloc: Global, dialer: D, watch: W, seconds: u64) -> ReconnectLink<D, W>
        ensures { result ≡ record { dialer = dialer; line = None; reconnect_timeout = min (seconds * 1000) (2 ^ 64 - 1); trouble = None; awaited = None } }
    {
        ReconnectLink {
            dialer,
            news: TroubleReporter::new(watch),
            line: None,
            reconnect_timeout: seconds.saturating_mul(1_000),
            trouble: None,
            awaited: None,
        }
    }

    /// Returns why the link has given up, once it has.
    pub fn trouble(&self) -> Option<Trouble>
        ensures { result ≡ self.now.trouble }
    {
        self.trouble
    }

    /// Waits until the host answers. A program calls this at its start, to know that the host is there and keeps the
    /// disk. It sends a message of no bytes, which a host refuses. Fails with the trouble for which the link has given
    /// up, or if memory ran out.
    pub fn reach(&mut self, alloc: Global) -> Result<(), Trouble>
        ensures { (outcome : BatchOutcome) × (exchanges : List Exchange)
            × ReconnectBatch (dialer_kind D.opens D.fails D.pauses D.reads D.carries) self.old ([] ∷ []) outcome exchanges self.new
            × IsReached outcome self.new.trouble result }
    {
        let answers = self.pass(alloc, &[], &[Vec::new(alloc)]);
        match self.trouble {
            None => reached(answers),
            Some(trouble) => Err(trouble),
        }
    }

    /// Takes out the open connection, or opens a new one. Afterwards the link itself holds none.
    fn take_line(&mut self, alloc: Global, left: u64) -> Result<D::Line, Trouble>
        ensures ok { IfOk result (λ line. HasLine D.opens D.fails D.carries
            self.old.dialer self.old.line (limits self.old.reconnect_timeout left) line self.new.dialer) }
        ensures err { IfErr result (λ trouble. (self.old.line ≡ None)
            × D.fails self.old.dialer (limits self.old.reconnect_timeout left) trouble self.new.dialer) }
        ensures same { self.new ≡ record self.old { dialer = self.new.dialer; line = None } }
    {
        match self.line.take() {
            Some(line) => Ok(line),
            None => {
                let limits = Limits {
                    opening: left.max(1),
                    silence: self.reconnect_timeout.clamp(LEAST_SILENCE, MOST_SILENCE),
                    batch: self.reconnect_timeout.max(LEAST_BATCH),
                };
                self.dialer.dial(alloc, limits)
            }
        }
    }

    /// Sends all messages once, over the open connection or a new one. After a fault the connection is closed.
    fn attempt(
        &mut self,
        alloc: Global,
        first: &[Vec<u8>],
        last: &[Vec<u8>],
        left: u64,
    ) -> Result<Vec<Vec<u8>>, Trouble>
        ensures tried { (exchanges : List Exchange) × IsTried D.opens D.fails D.carries
            self.old.dialer self.old.line (limits self.old.reconnect_timeout left) (texts first.now ++ texts last.now) (attempt_of result) exchanges
            self.new.dialer self.new.line }
        ensures same { self.new ≡ record self.old { dialer = self.new.dialer; line = self.new.line } }
    {
        let mut line = self.take_line(alloc, left)?;
        match self.dialer.carry(alloc, &mut line, first, last) {
            Ok(answers) => {
                self.line = Some(line);
                Ok(answers)
            }
            Err(trouble) => Err(trouble),
        }
    }

    /// Pauses after `trouble`, and returns how the messages go on waiting; `None` if no time is left.
    fn wait(&mut self, begin: Option<u64>, wait: Wait, trouble: Trouble) -> Option<Wait>
        requires some { 0 < wait.pause }
        requires most { wait.pause ≤ MOST_PAUSE }
        ensures waits { MatchOption result (IsTimedOut D.pauses D.reads self.old.reconnect_timeout begin self.old.dialer wait.left trouble self.new.dialer)
            (λ next. IsPaused D.pauses D.reads self.old.reconnect_timeout begin
            self.old.dialer wait.pause wait.left trouble self.new.dialer next.pause next.left) }
        ensures next { IfSome result (λ next. (next.left < wait.left) × (0 < next.pause) × (next.pause ≤ MOST_PAUSE)) }
        ensures same { self.new ≡ record self.old { dialer = self.new.dialer } }
    {
        let now = self.dialer.now();
        let left = time_left(self.reconnect_timeout, begin, wait.left, trouble, now);
        if left == 0 {
            return None;
        }
        let pause = wait.pause.min(left);
        self.dialer.pause(pause);
        Some(Wait {
            pause: (2 * wait.pause).min(MOST_PAUSE),
            left: left - pause,
        })
    }

    /// Reads the clock.
    fn now(&mut self) -> Option<u64>
        ensures read { D.reads self.old.dialer result self.new.dialer }
        ensures same { self.new ≡ record self.old { dialer = self.new.dialer } }
    {
        self.dialer.now()
    }

    /// Gives up for good because of `trouble`.
    fn give_up(&mut self, trouble: Trouble)
        ensures { self.new ≡ record self.old { trouble = Some trouble } }
    {
        self.trouble = Some(trouble);
    }

    fn report_trouble(&mut self, trouble: Trouble)
        ensures { self.new ≡ self.old }
    {
        self.news.report_trouble(trouble);
    }

    /// Reports why a batch broke off that was begun, unless memory ran out here.
    fn report_break(&mut self, trouble: Trouble)
        ensures { self.new ≡ self.old }
    {
        if !trouble.lacks_memory() {
            self.news.report_trouble(trouble);
        }
    }

    /// Reports that the host has answered, if it has.
    fn report_answer(&mut self, came: &Result<Vec<Vec<u8>>, Trouble>)
        ensures { self.new ≡ self.old }
    {
        if came.is_ok() {
            self.news.report_answer();
        }
    }

    /// Goes on after the first try of a batch has come to `came`: tries until there are answers to give, memory runs out, or no time is
    /// left. The tries began when the clock read `begin`.
    fn go_on(
        &mut self,
        alloc: Global,
        begin: Option<u64>,
        first_came: Result<Vec<Vec<u8>>, Trouble>,
        first: &[Vec<u8>],
        last: &[Vec<u8>],
    ) -> Result<Vec<Vec<u8>>, LinkFault>
        requires { self.old.trouble ≡ None }
        ensures tried { GoesOn (dialer_kind D.opens D.fails D.pauses D.reads D.carries) begin
            self.old (texts first.now ++ texts last.now) (attempt_of first_came) (batch_outcome_of result) self.new }
        ensures reconnect_timeout { self.new.reconnect_timeout ≡ self.old.reconnect_timeout }
    {
        let mut came = first_came;
        let mut wait = Wait {
            pause: FIRST_PAUSE,
            left: self.reconnect_timeout,
        };
        loop {
            let Some(trouble) = trouble_in(&came) else {
                self.report_answer(&came);
                return link_outcome(came);
            };
            self.report_trouble(trouble);
            match self.wait(begin, wait, trouble) {
                Some(next) => wait = next,
                None => {
                    self.give_up(trouble);
                    return link_outcome(came);
                }
            }
            came = self.attempt(alloc, first, last, wait.left);
        }
    }

    /// Tries until there are answers to give, memory runs out, or no time is left.
    fn make_tries(
        &mut self,
        alloc: Global,
        first: &[Vec<u8>],
        last: &[Vec<u8>],
    ) -> Result<Vec<Vec<u8>>, LinkFault>
        requires { self.old.trouble ≡ None }
        ensures tried { (exchanges : List Exchange) × MakesTries (dialer_kind D.opens D.fails D.pauses D.reads D.carries)
            self.old (texts first.now ++ texts last.now) (batch_outcome_of result) exchanges self.new }
        ensures reconnect_timeout { self.new.reconnect_timeout ≡ self.old.reconnect_timeout }
    {
        let begin = self.now();
        let came = self.attempt(alloc, first, last, self.reconnect_timeout);
        self.go_on(alloc, begin, came, first, last)
    }

    /// Passes messages on to the host, unless the link has given up. If answers to others are due, their connection is closed.
    fn pass(
        &mut self,
        alloc: Global,
        first: &[Vec<u8>],
        last: &[Vec<u8>],
    ) -> Result<Vec<Vec<u8>>, LinkFault>
        ensures { (exchanges : List Exchange) × ReconnectBatch (dialer_kind D.opens D.fails D.pauses D.reads D.carries)
            self.old (texts first.now ++ texts last.now) (batch_outcome_of result) exchanges self.new }
    {
        self.awaited = None;
        match self.trouble {
            None => self.make_tries(alloc, first, last),
            Some(_) => Err(LinkFault::Closed),
        }
    }

    /// Keeps a connection after a try over it, unless the try had a fault.
    fn keep_line(&mut self, line: D::Line, came: &Result<Vec<Vec<u8>>, Trouble>)
        ensures kept { MatchResult (attempt_of came.now) (λ _. self.new.line ≡ Some line) (λ _. self.new.line ≡ None) }
        ensures same { self.new ≡ record self.old { line = self.new.line } }
    {
        self.line = came.is_ok().then_some(line);
    }

    /// Makes the first try of a batch whose messages were to go ahead: receives their answers, or sends them now. After a fault the
    /// connection is closed.
    fn end_try(
        &mut self,
        alloc: Global,
        sending: Sending<D::Line>,
        bodies: &[Vec<u8>],
    ) -> Result<Vec<Vec<u8>>, Trouble>
        ensures tried { EndsTry (dialer_kind D.opens D.fails D.pauses D.reads D.carries) D.asks
            self.old (texts bodies.now) sending (attempt_of result) self.new }
        ensures same { self.new ≡ record self.old { dialer = self.new.dialer; line = self.new.line } }
    {
        match sending {
            Sending::Sent(mut line) => {
                let came = self.dialer.hear(alloc, &mut line, bodies);
                self.keep_line(line, &came);
                came
            }
            Sending::Unsent(mut line) => {
                let came = self.dialer.carry(alloc, &mut line, &[], bodies);
                self.keep_line(line, &came);
                came
            }
            Sending::Failed(trouble) => {
                self.line = None;
                Err(trouble)
            }
        }
    }

    /// Takes out what was sent ahead, unless the link has given up. If other answers are due, their connection is closed.
    fn take_ahead(&mut self) -> Option<AheadBatch<D::Line>>
        ensures taken { MatchOption result (NoneAhead self.old.awaited ⊎ (self.old.trouble ≢ None))
            (λ ahead. (self.old.awaited ≡ Some (Ahead ahead)) × (self.old.trouble ≡ None)) }
        ensures same { self.new ≡ record self.old { awaited = self.new.awaited } }
    {
        match self.trouble {
            None => match self.awaited.take() {
                Some(Awaited::Ahead(ahead)) => Some(ahead),
                _ => None,
            },
            Some(_) => None,
        }
    }

    /// Ends a batch whose messages were to go ahead. If their answers don't come, it sends them again as any others.
    fn end_batch(
        &mut self,
        alloc: Global,
        ahead: AheadBatch<D::Line>,
        bodies: &[Vec<u8>],
    ) -> Result<Vec<Vec<u8>>, LinkFault>
        requires { self.old.trouble ≡ None }
        ensures ends { EndsAwaited (dialer_kind D.opens D.fails D.pauses D.reads D.carries) D.asks
            self.old (texts bodies.now) ahead (batch_outcome_of result) self.new }
        ensures reconnect_timeout { self.new.reconnect_timeout ≡ self.old.reconnect_timeout }
    {
        let AheadBatch { begin, sending } = ahead;
        let came = self.end_try(alloc, sending, bodies);
        self.go_on(alloc, begin, came, &[], bodies)
    }
}

impl<D: Dial, W> ReconnectLink<D, W> {
    /// Keeps the connection of a batch that was begun: with the batch, as long as more of its answers are to come.
    fn keep_begun(&mut self, line: D::Line, progress: Progress)
        ensures { HoldsBegun line progress self.old self.new }
    {
        if progress.left == 0 {
            self.line = Some(line);
        } else {
            self.awaited = Some(Awaited::Begun(BegunBatch { line, progress }));
        }
    }

    /// Takes out the open connection for a batch that is to be begun; `None` if there is none, or if the link has given up.
    fn take_open(&mut self) -> Option<D::Line>
        ensures taken { MatchOption result ((self.new ≡ self.old) × ((self.old.line ≡ None) ⊎ (self.old.trouble ≢ None)))
            (λ line. (self.old.line ≡ Some line) × (self.old.trouble ≡ None) × (self.new ≡ record self.old { line = None })) }
    {
        match self.trouble {
            None => self.line.take(),
            Some(_) => None,
        }
    }

    /// Takes out the batch that was begun. If other answers are due, their connection is closed.
    fn take_begun(&mut self) -> Option<BegunBatch<D::Line>>
        ensures taken { MatchOption result (NoneBegun self.old.awaited) (λ batch. self.old.awaited ≡ Some (Begun batch)) }
        ensures same { self.new ≡ record self.old { awaited = None } }
    {
        match self.awaited.take() {
            Some(Awaited::Begun(batch)) => Some(batch),
            _ => None,
        }
    }
}

impl<D: Dial, W: HostWatch> BatchLink for ReconnectLink<D, W> {
    ghost use Rattle.std.specs.Prelude.{[], ⊤};
    ghost use Rattle.oram_client.specs.BatchExchanges.{learnt_nothing_sent, links_are_batches};
    ghost use Rattle.oram_client.specs.StreamedBatches.{link_streams_end};
    ghost use Rattle.oram_client.specs.Reconnect.{LinkBatch, LinkLearns};
    ghost use Rattle.oram_client.specs.Streaming.{LinkStreams};

    ghost batches = { λ l bodies o exchanges m. LinkBatch (dialer_kind D.opens D.fails D.pauses D.reads D.carries) D.learns l bodies o exchanges m };

    ghost streams = { λ l bodies answers m. LinkStreams D.streams l bodies answers m };

    ghost notes = { λ l. record { text = D.notes l.dialer; records = [] } };

    ghost tells = { λ l old. ⊤ };

    ghost learns = { λ l check m. LinkLearns D.learns l check m };

    fn call_all(
        &mut self,
        alloc: Global,
        first: &[Vec<u8>],
        last: &[Vec<u8>],
    ) -> Result<Vec<Vec<u8>>, LinkFault> {
        self.pass(alloc, first, last)
    }

    /// Sends the messages over the open connection, if there is one and the link hasn't given up. If that fails, the connection is closed,
    /// and that is reported, unless memory ran out here.
    fn begin(&mut self, alloc: Global, first: &[Vec<u8>], last: &[Vec<u8>]) -> bool {
        if first.is_empty() && last.is_empty() {
            return false;
        }
        let Some(mut line) = self.take_open() else {
            return false;
        };
        match self.dialer.begin(alloc, &mut line, first, last) {
            Ok(progress) => {
                self.keep_begun(line, progress);
                true
            }
            Err(trouble) => {
                self.report_break(trouble);
                false
            }
        }
    }

    /// If the answer doesn't come, the connection is closed, and that is reported. An answer that the host has no room is given as any
    /// other.
    fn next_answer(&mut self, alloc: Global, body: &[u8]) -> Result<Vec<u8>, LinkFault> {
        let Some(batch) = self.take_begun() else {
            return Err(LinkFault::Closed);
        };
        let BegunBatch {
            mut line,
            mut progress,
        } = batch;
        match self
            .dialer
            .next_answer(alloc, &mut line, &mut progress, body)
        {
            Ok(answer) => {
                self.keep_begun(line, progress);
                Ok(answer)
            }
            Err(trouble) => {
                self.report_break(trouble);
                Err(trouble.fault())
            }
        }
    }

    fn note(&self, alloc: Global) -> Result<Vec<u8>, AllocError> {
        self.dialer.note(alloc)
    }

    fn records(&self) -> LinkRecords<'_> {
        LinkRecords::none()
    }

    fn learn_kept(&mut self, check: u64) {
        self.dialer.learn_kept(check);
    }

    ghost are_batches = { λ l m bodies o exchanges h.
        links_are_batches (dialer_kind D.opens D.fails D.pauses D.reads D.carries) D.are_batches D.learns l m bodies o exchanges h };

    ghost ends_as_batch = { λ l m bodies answers h count.
        link_streams_end (dialer_kind D.opens D.fails D.pauses D.reads D.carries) D.learns D.streams D.counts_answers D.ends_carried l m bodies answers h count };

    ghost learning_sends_nothing = { λ l m check learnt.
        learnt_nothing_sent (dialer_kind D.opens D.fails D.pauses D.reads D.carries) D.learns l m check learnt };

    ghost batches_are_told = { λ l m bodies o exchanges old some h told. tt };

    ghost learning_counts_anew = { λ l m check learnt. tt };
}

impl<D: Dial, W: HostWatch> PipelinedLink for ReconnectLink<D, W> {
    ghost use Rattle.oram_client.specs.Reconnect.{dialer_kind};
    ghost use Rattle.oram_client.specs.Pipelined.{LinkAsk};

    ghost asks = { λ l bodies k. LinkAsk (dialer_kind D.opens D.fails D.pauses D.reads D.carries) D.asks l bodies k };

    /// Sends messages ahead over the open connection, if there is one and the link hasn't given up.
    fn ask(&mut self, alloc: Global, bodies: &[Vec<u8>]) {
        self.awaited = None;
        if self.trouble.is_some() {
            return;
        }
        if let Some(line) = self.line.take() {
            let begin = self.now();
            let sending = self.dialer.ask(alloc, line, bodies);
            self.awaited = Some(Awaited::Ahead(AheadBatch { begin, sending }));
        }
    }

    fn answers(&mut self, alloc: Global, bodies: &[Vec<u8>]) -> Result<Vec<Vec<u8>>, LinkFault> {
        match self.take_ahead() {
            Some(ahead) => self.end_batch(alloc, ahead, bodies),
            None => self.pass(alloc, &[], bodies),
        }
    }
}
