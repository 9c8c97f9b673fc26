//! The answers of a store to the bodies of requests.
ghost use Rattle.std.specs.Prelude.{◌≡◌, [], length, false, None, IfErr, IfOk, IsSome, MatchResult, OnErr, OnOk};
ghost use Rattle.oram_host.specs.Refusals.{code_of};
ghost use Rattle.oram_store.specs.Answers.{IsGranted, IsKeptAtOnce};
ghost use Rattle.oram_store.specs.Crashes.{Serves};
ghost use Rattle.oram_store.specs.KeptRecords.{IsSound};
ghost use Rattle.oram_store.specs.Reasons.{ReportsWhy};
ghost use Rattle.oram_store.specs.Refusals.{IsRefused, RespondsWith, ChangesTrees, refusal_by};
ghost use Rattle.oram_store.specs.RecordFile.{Runs};
ghost use Rattle.oram_store.specs.AnswerBytes.{StandsBehind, StandsFor};
ghost use Rattle.oram_levels.specs.Messages.{HasNumbers as HasLevelsNumbers, IsMisfit as IsLevelsMisfit, LevelsMessage, levels_body, names_levels};
ghost use Rattle.oram_records.specs.Messages.{HasNumbers as HasRecordsNumbers, IsMisfit as IsRecordsMisfit, names_records, records_body};
ghost use Rattle.oram_store.specs.FirstAnswers.{AnswersRequest};
ghost use Rattle.oram_store.specs.LevelsAnswers.{AnswersLevels};
ghost use Rattle.oram_store.specs.RecordsAnswers.{AnswersRecords};
ghost use Rattle.oram_wire.specs.FrameStream.{IsBody};
ghost use Rattle.oram_wire.specs.HostMessages.{answer_body, request_body};
ghost use Rattle.oram_wire.specs.HostBodies.{HasNumbers, IsAnswer, IsMisfit, names_request, request_of};
ghost use Rattle.oram_wire.specs.declared.host_messages.HostAnswer.{HostAnswer};
ghost use Rattle.oram_wire.specs.declared.host_messages.HostRequest.{HostRequest};

use crate::store::FileStore;
use oram_bytes::Bytes;
use oram_host::HostRefusal;
use oram_levels::LevelsRequest;
use oram_records::RecordsRequest;
use oram_redo::FilePair;
use oram_wire::{GOOD, HostAnswer, HostView, REFUSED, WireFault};
use std::alloc::{AllocError, Global};

/// The outcome of a request that was carried out.
pub(crate) enum Served {
    /// The byte that comes first, and then the records that the request asks for.
    Records(Vec<u8>),
    Done,
}

impl<F: FilePair> FileStore<F> {
    /// Carries out a request. If it asks for records, they come after `front`, one byte.
    fn serve(&mut self, request: HostView<'_>, front: &[u8]) -> Result<Served, HostRefusal>
        requires { length front.now ≡ 1 }
        ensures served { IfOk result (StandsBehind front.now (request_of request.entry)) }
        ensures allowed { OnOk result (refusal_by self.old.trees (request_of request.entry) ≡ None) }
        ensures refused { IfErr result (IsRefused self.old.trees (request_of request.entry)) }
        ensures untouched { IsSome (refusal_by self.old.trees (request_of request.entry)) → self.new ≡ self.old }
        ensures after { OnOk result (ChangesTrees self.old.trees (request_of request.entry) self.new.trees) }
        ensures same { OnErr result (self.new.trees ≡ self.old.trees) }
        ensures none_pending { OnOk result (IsKeptAtOnce (request_of request.entry) → self.new.pending ≡ []) }
        ensures serves { F.model.is_honest self.new.file.files → IsSound F.model self.old → MatchResult result
            (λ served. (answer : HostAnswer) × StandsFor front.now served answer
            × Serves F.model (request_of request.entry) answer self.old self.new)
            (λ why. Serves F.model (request_of request.entry) (HostAnswer.Refused (code_of why)) self.old self.new) }
        ensures runs { Runs F.model self.old.file self.new.file }
        ensures running { OnOk result (self.new.file.has_stopped ≡ false) }
        ensures failure { result ≡ Err HostRefusal.OutOfMemory → ReportsWhy F.model self.old self.new (request_of request.entry) }
    {
        match request {
            HostView::Fetch { tree, leaf } => {
                let records = self.fetch(tree, leaf, front)?;
                return Ok(Served::Records(records));
            }
            HostView::Store {
                tree,
                leaf,
                records,
            } => self.store(tree, leaf, records)?,
            HostView::Put { tree, node, bytes } => self.put(tree, node, bytes)?,
            HostView::Shape {
                tree,
                depth,
                record_len,
            } => self.shape(tree, depth, record_len)?,
        }
        Ok(Served::Done)
    }

    /// Carries out the request in a body. If it asks for records, they come after `front`, one byte.
    fn serve_body(&mut self, body: &[u8], front: &[u8]) -> Result<Served, HostRefusal>
        requires { length front.now ≡ 1 }
        ensures op { names_request body.now ≡ false → (result ≡ Err HostRefusal.BadOp) × (self.new ≡ self.old) }
        ensures misfit { IsMisfit body.now → (result ≡ Err HostRefusal.BadLength) × (self.new ≡ self.old) }
        ensures untouched { (message : HostRequest) → HasNumbers message → body.now ≡ request_body message
            → IsSome (refusal_by self.old.trees message) → self.new ≡ self.old }
        ensures served { IfOk result (λ served. (message : HostRequest) × StandsBehind front.now message served) }
        ensures responds { (message : HostRequest) → HasNumbers message → body.now ≡ request_body message
            → MatchResult result
            (λ served. StandsBehind front.now message served × (refusal_by self.old.trees message ≡ None)
            × ChangesTrees self.old.trees message self.new.trees
            × (IsKeptAtOnce message → self.new.pending ≡ []))
            (λ why. IsRefused self.old.trees message why × (self.new.trees ≡ self.old.trees)) }
        ensures serves { (message : HostRequest) → HasNumbers message → body.now ≡ request_body message
            → F.model.is_honest self.new.file.files → IsSound F.model self.old
            → MatchResult result
            (λ served. (answer : HostAnswer) × StandsFor front.now served answer × Serves F.model message answer self.old self.new)
            (λ why. Serves F.model message (HostAnswer.Refused (code_of why)) self.old self.new) }
        ensures runs { Runs F.model self.old.file self.new.file }
        ensures running { OnOk result (self.new.file.has_stopped ≡ false) }
        ensures failure { (message : HostRequest) → HasNumbers message → body.now ≡ request_body message
            → result ≡ Err HostRefusal.OutOfMemory → ReportsWhy F.model self.old self.new message }
    {
        match HostView::read(body) {
            Ok(request) => self.serve(request, front),
            Err(WireFault::Op) => Err(HostRefusal::BadOp),
            Err(_) => Err(HostRefusal::BadLength),
        }
    }

    /// Answers the body of a request. When a request other than a PUT is answered as done, its effect is durable. A
    /// request that is refused changes nothing.
    pub fn handle(&mut self, body: &[u8]) -> HostAnswer
        // A body that isn't a request is refused.
        ensures op { names_request body.now ≡ false → (result ≡ HostAnswer.Refused 7) × (self.new ≡ self.old) }
        ensures misfit { IsMisfit body.now → (result ≡ HostAnswer.Refused 4) × (self.new ≡ self.old) }

        // A request that the trees refuse is refused for their reason. Any other is carried out, unless a record is
        // missing or there is no room.
        ensures request { (message : HostRequest) → HasNumbers message → body.now ≡ request_body message
            → RespondsWith self.old.trees message result self.new.trees }
        ensures untouched { (message : HostRequest) → HasNumbers message → body.now ≡ request_body message
            → IsSome (refusal_by self.old.trees message) → self.new ≡ self.old }

        // If there is no room, the store keeps the reason: a call of the files has failed or found no room, now or
        // before, or the files end before the tree would. No clause can say when memory runs out.
        ensures failure { (message : HostRequest) → HasNumbers message → body.now ≡ request_body message
            → result ≡ HostAnswer.Refused 8 → ReportsWhy F.model self.old self.new message }

        // The answer, and the records after it, follow from the records before it, by tree and node. A crash at any
        // moment finds what was there before, or what the request makes of it; if the request is refused and the file
        // hasn't stopped, only what was there before.
        ensures serves { (message : HostRequest) → HasNumbers message → body.now ≡ request_body message
            → F.model.is_honest self.new.file.files → IsSound F.model self.old
            → Serves F.model message result self.old self.new }

        // After an answer that isn't a refusal, no record waits to be committed, unless the request was a PUT.
        ensures committed { (message : HostRequest) → HasNumbers message → body.now ≡ request_body message → IsKeptAtOnce message
            → IsGranted result → self.new.pending ≡ [] }
        ensures runs { Runs F.model self.old.file self.new.file }

        // A store that has stopped carries out nothing.
        ensures running { IsGranted result → self.new.file.has_stopped ≡ false }

        // The answer can be written as a body.
        ensures spelled { IsAnswer result }
    {
        match self.serve_body(body, &[GOOD]) {
            Ok(Served::Records(mut records)) => {
                records.remove(0);
                HostAnswer::Payload(Bytes::from_vec(records))
            }
            Ok(Served::Done) => HostAnswer::Done,
            Err(why) => HostAnswer::Refused(why.code()),
        }
    }

    /// Returns the bytes of the answer that `handle` gives to a body. The records are in one vector with the byte before them, so
    /// they are copied only once.
    ///
    /// It allocates a short answer before it serves the request; if that fails, it serves nothing.
    fn answer_message(&mut self, alloc: Global, body: &[u8]) -> Result<Vec<u8>, AllocError>
        ensures ok { IfOk result (λ v. (answer : HostAnswer) × IsAnswer answer × (v.items ≡ answer_body answer)
            × ((message : HostRequest) → HasNumbers message → body.now ≡ request_body message → RespondsWith self.old.trees message answer self.new.trees
            × (IsKeptAtOnce message → IsGranted answer → self.new.pending ≡ [])
            × (IsGranted answer → self.new.file.has_stopped ≡ false)
            × (answer ≡ HostAnswer.Refused 8 → ReportsWhy F.model self.old self.new message)
            × (F.model.is_honest self.new.file.files → IsSound F.model self.old → Serves F.model message answer self.old self.new))) }
        ensures op { names_request body.now ≡ false → IfOk result (λ v. v.items ≡ answer_body (HostAnswer.Refused 7)) }
        ensures misfit { IsMisfit body.now → IfOk result (λ v. v.items ≡ answer_body (HostAnswer.Refused 4)) }
        ensures runs { Runs F.model self.old.file self.new.file }
        ensures fits { IfOk result (λ v. IsBody v.items) }
        ensures err { OnErr result (self.new ≡ self.old) }
    {
        let mut short = Vec::with_capacity(alloc, 2)?;
        match self.serve_body(body, &[GOOD]) {
            Ok(Served::Records(answer)) => return Ok(answer),
            Ok(Served::Done) => short.extend_from_slice(&[GOOD])?,
            Err(why) => short.extend_from_slice(&[REFUSED, why.code()])?,
        }
        Ok(short)
    }
    /// Returns the bytes of the answer to a request for the records of nodes in a row.
    ///
    /// It allocates a short answer before it serves the request; if that fails, it serves nothing.
    fn answer_records(
        &mut self,
        alloc: Global,
        request: RecordsRequest,
    ) -> Result<Vec<u8>, AllocError>
        ensures ok { IfOk result (λ v. (answer : HostAnswer) × IsAnswer answer × (v.items ≡ answer_body answer)
            × AnswersRecords F.model request answer self.old self.new) }
        ensures runs { Runs F.model self.old.file self.new.file }
        ensures fits { IfOk result (λ v. IsBody v.items) }
        ensures err { OnErr result (self.new ≡ self.old) }
    {
        let mut short = Vec::with_capacity(alloc, 2)?;
        match self.records(request) {
            Ok(answer) => return Ok(answer),
            Err(why) => short.extend_from_slice(&[REFUSED, why.code()])?,
        }
        Ok(short)
    }

    /// Returns the bytes of the answer to a body: of the four requests that `handle` answers, or of a message that only a store in a file
    /// answers: one for the records of nodes in a row, or one about some levels of a path. If memory runs out before it serves the request,
    /// it serves nothing.
    pub fn answer(&mut self, alloc: Global, body: &[u8]) -> Result<Vec<u8>, AllocError>
        ensures ok { IfOk result (λ v. (answer : HostAnswer) × IsAnswer answer × (v.items ≡ answer_body answer)
            × ((message : HostRequest) → HasNumbers message → body.now ≡ request_body message → RespondsWith self.old.trees message answer self.new.trees
            × (IsKeptAtOnce message → IsGranted answer → self.new.pending ≡ [])
            × (IsGranted answer → self.new.file.has_stopped ≡ false)
            × (answer ≡ HostAnswer.Refused 8 → ReportsWhy F.model self.old self.new message)
            × (F.model.is_honest self.new.file.files → IsSound F.model self.old → Serves F.model message answer self.old self.new))
            × ((request : RecordsRequest) → HasRecordsNumbers request → body.now ≡ records_body request → AnswersRecords F.model request answer self.old self.new)
            × ((message : LevelsMessage) → HasLevelsNumbers message → body.now ≡ levels_body message → AnswersLevels F.model message answer self.old self.new)) }
        // A body that is none of them is refused, and so is one whose length isn't that of the request that it names.
        ensures op { names_request body.now ≡ false → (¬ names_records body.now) → names_levels body.now ≡ false
            → IfOk result (λ v. v.items ≡ answer_body (HostAnswer.Refused 7)) }
        ensures misfit { IsMisfit body.now → IfOk result (λ v. v.items ≡ answer_body (HostAnswer.Refused 4)) }
        ensures records_misfit { IsRecordsMisfit body.now → IfOk result (λ v. v.items ≡ answer_body (HostAnswer.Refused 4)) × (self.new ≡ self.old) }
        ensures levels_misfit { IsLevelsMisfit body.now → IfOk result (λ v. v.items ≡ answer_body (HostAnswer.Refused 4)) × (self.new ≡ self.old) }
        ensures runs { Runs F.model self.old.file self.new.file }
        // The answer fits in a frame.
        ensures fits { IfOk result (λ v. IsBody v.items) }
        ensures err { OnErr result (self.new ≡ self.old) }
    {
        match RecordsRequest::decode(body) {
            Ok(request) => self.answer_records(alloc, request),
            Err(WireFault::Op) => self.answer_levels_or_message(alloc, body),
            Err(_) => refusal(alloc, HostRefusal::BadLength),
        }
    }

    /// Returns the bytes of the answer to a body, as `answer` does, but takes none for the records of nodes in a row.
    fn answer_levels_or_message(
        &mut self,
        alloc: Global,
        body: &[u8],
    ) -> Result<Vec<u8>, AllocError>
        ensures ok { IfOk result (λ v. (answer : HostAnswer) × IsAnswer answer × (v.items ≡ answer_body answer)
            × ((message : HostRequest) → HasNumbers message → body.now ≡ request_body message → AnswersRequest F.model message answer self.old self.new)
            × ((message : LevelsMessage) → HasLevelsNumbers message → body.now ≡ levels_body message → AnswersLevels F.model message answer self.old self.new)) }
        ensures op { names_request body.now ≡ false → names_levels body.now ≡ false → IfOk result (λ v. v.items ≡ answer_body (HostAnswer.Refused 7)) }
        ensures misfit { IsMisfit body.now → IfOk result (λ v. v.items ≡ answer_body (HostAnswer.Refused 4)) }
        ensures levels_misfit { IsLevelsMisfit body.now → IfOk result (λ v. v.items ≡ answer_body (HostAnswer.Refused 4)) × (self.new ≡ self.old) }
        ensures runs { Runs F.model self.old.file self.new.file }
        ensures fits { IfOk result (λ v. IsBody v.items) }
        ensures err { OnErr result (self.new ≡ self.old) }
    {
        match LevelsRequest::decode(body) {
            Ok(request) => self.answer_levels(alloc, request),
            Err(WireFault::Op) => self.answer_message(alloc, body),
            Err(_) => refusal(alloc, HostRefusal::BadLength),
        }
    }
}

/// Returns the bytes of a refusal.
fn refusal(alloc: Global, why: HostRefusal) -> Result<Vec<u8>, AllocError>
    ensures { IfOk result (λ v. v.items ≡ answer_body (HostAnswer.Refused (code_of why))) }
{
    let mut answer = Vec::with_capacity(alloc, 2)?;
    answer.extend_from_slice(&[REFUSED, why.code()])?;
    Ok(answer)
}
