//! Collects requests that are carried out together.

ghost use Rattle.std.specs.Prelude.{◌≡◌, ◌<◌, ◌≤◌, ◌++◌, ◌∷◌, ℕ, true, false, List, [], IfErr, IfSome, None, OnErr, OnOk, length};
ghost use Rattle.std.specs.Io.KnownBytes.{Consumes};
ghost use Rattle.oram_nbd.specs.Batches.{EndsBy, HasGathered, AreDiskSizes, DoesRequest, DoesIfAccepted};
ghost use Rattle.oram_nbd.specs.Messages.{payload_len, request_text};
ghost use Rattle.oram_nbd.specs.Service.{refusal_of, WholeRequest, IsWholeRequest};

use crate::arrivals::{Arrived, has_request};
use crate::disk_sizes::DiskSizes;
use crate::faults::NbdFault;
use crate::operations::Operation;
use crate::ranges::touched_blocks;
use crate::request_reader::{next_request, read_payload};
use crate::requests::{Command, Request};
use crate::service::refusal;
use oram_bytes::Bytes;
use std::alloc::Global;
use std::io::Read;

/// The most requests of a batch. A batch is also full once its operations touch this many blocks.
const MOST: u64 = 64;

/// Why a batch takes no further request.
#[derive(Clone, Copy, Debug, PartialEq, Eq)]
pub(crate) enum Close {
    /// It is full, or no further request has arrived.
    Waits,
    /// There is no memory for this request.
    NoRoom(Request),
    /// The client left.
    Leaves,
    /// The input broke off.
    Breaks(NbdFault),
}

impl From<NbdFault> for Close {
    ghost use Rattle.oram_nbd.specs.declared.batches.Close.TheVariants.{Breaks};

    ghost from_gives = { λ fault close. close ≡ Breaks fault };

    fn from(fault: NbdFault) -> Close {
        Close::Breaks(fault)
    }
}

/// Requests, and the operation of each of them.
#[derive(Debug, Drop)]
pub(crate) struct Batch {
    pub(crate) requests: Vec<Request>,
    pub(crate) operations: Vec<Operation>,
    /// The sum of the numbers of blocks that the operations touch.
    weight: u64,
}

/// Returns the operation of a request that isn't refused. A request that touches no byte has an operation that does nothing.
fn operation_of(request: &Request, payload: Vec<u8>) -> Operation
    requires { length payload.items ≡ payload_len request.now.command request.now.length }
    ensures { let a : WholeRequest = record { request = request.now; payload = payload.items } in (size : ℕ) → refusal_of size request.now ≡ None → DoesRequest size a result }
{
    if request.length == 0 {
        return Operation::Read { at: 0, count: 0 };
    }
    match request.command {
        Command::Read => Operation::Read {
            at: request.offset,
            count: u64::from(request.length),
        },
        Command::Write => Operation::Write {
            at: request.offset,
            payload: Bytes::from_vec(payload),
        },
        Command::WriteZeroes => Operation::Zero {
            at: request.offset,
            count: u64::from(request.length),
        },
        _ => Operation::Read { at: 0, count: 0 },
    }
}

impl Batch {
    /// Returns a batch of no requests.
    fn new(alloc: Global) -> Batch
        ensures requests { result.requests.items ≡ [] }
        ensures operations { result.operations.items ≡ [] }
    {
        Batch {
            requests: Vec::new(alloc),
            operations: Vec::new(alloc),
            weight: 0,
        }
    }

    /// Appends a request and its operation. Returns whether there was memory for both; if not, the batch is as it was.
    fn push(&mut self, block: u64, request: Request, operation: Operation) -> bool
        requires { 0 < block }
        ensures yes { result ≡ true → (self.new.requests.items ≡ self.old.requests.items ++ request ∷ []) × (self.new.operations.items ≡ self.old.operations.items ++ operation ∷ []) }
        ensures no { result ≡ false → (self.new.requests.items ≡ self.old.requests.items) × (self.new.operations.items ≡ self.old.operations.items) }
    {
        let weight = touched_blocks(block, &operation);
        if self.requests.push(request).is_err() {
            return false;
        }
        if self.operations.push(operation).is_err() {
            self.requests.pop();
            return false;
        }
        self.weight = self.weight.saturating_add(weight);
        true
    }

    /// Adds a request. `payload` has the bytes of a write, or is `None` if there was no memory for them, or if they are too
    /// many. A request that isn't refused is kept only with these bytes.
    fn add(
        &mut self,
        sizes: DiskSizes,
        request: Request,
        payload: Option<Vec<u8>>,
    ) -> Result<(), Close>
        requires sizes { AreDiskSizes sizes.block sizes.size }
        requires payload { IfSome payload (λ p. length p.items ≡ payload_len request.command request.length) }
        ensures ok { (text : List ℕ) → IfSome payload (λ p. p.items ≡ text) → OnOk result ((self.new.requests.items ≡ self.old.requests.items ++ request ∷ [])
            × (op : Operation) × (self.new.operations.items ≡ self.old.operations.items ++ op ∷ [])
            × (let a : WholeRequest = record { request = request; payload = text } in DoesIfAccepted (refusal_of sizes.size request) sizes.size a op)) }
        ensures err { IfErr result (λ close. close ≡ Close.NoRoom request) }
        ensures same { OnErr result ((self.new.requests.items ≡ self.old.requests.items) × (self.new.operations.items ≡ self.old.operations.items)) }
    {
        let operation = match (refusal(&request, sizes.size), payload) {
            (Some(_), _) => Operation::Read { at: 0, count: 0 },
            (None, Some(payload)) => operation_of(&request, payload),
            (None, None) => return Err(Close::NoRoom(request)),
        };
        if self.push(sizes.block, request, operation) {
            Ok(())
        } else {
            Err(Close::NoRoom(request))
        }
    }

    /// Reads the next request, with the bytes of its write, and adds it. If there is none, returns why.
    fn collect<R: Read>(
        &mut self,
        alloc: Global,
        reader: &mut R,
        sizes: DiskSizes,
    ) -> Result<(), Close>
        requires { AreDiskSizes sizes.block sizes.size }
        ensures ok { OnOk result ((a : WholeRequest) × IsWholeRequest a × Consumes (R.remaining reader.old) (R.remaining reader.new) (request_text a.request ++ a.payload)
            × (self.new.requests.items ≡ self.old.requests.items ++ a.request ∷ [])
            × ((op : Operation) × (self.new.operations.items ≡ self.old.operations.items ++ op ∷ []) × DoesIfAccepted (refusal_of sizes.size a.request) sizes.size a op)) }
        ensures err { IfErr result (λ close. (part : List ℕ) × Consumes (R.remaining reader.old) (R.remaining reader.new) part × EndsBy close part (R.remaining reader.new)) }
        ensures same { OnErr result ((self.new.requests.items ≡ self.old.requests.items) × (self.new.operations.items ≡ self.old.operations.items)) }
    {
        let Some(request) = next_request(reader)? else {
            return Err(Close::Leaves);
        };
        if request.command == Command::Disconnect {
            return Err(Close::Leaves);
        }
        let payload = read_payload(alloc, reader, request.payload_len())?;
        self.add(sizes, request, payload)
    }

    /// Returns whether the operations touch 64 blocks or more. It counts the blocks in the same way for a read, a write and
    /// zeroes, so which requests go together doesn't show what they do.
    fn is_heavy(&self) -> bool {
        self.weight >= MOST
    }
}

/// Reads requests that are carried out together: it waits for the first one, and takes further ones that have arrived
/// whole. Returns them, and why there is no further one.
pub(crate) fn gather<R: Read + Arrived>(
    alloc: Global,
    reader: &mut R,
    sizes: DiskSizes,
) -> (Batch, Close)
    requires { AreDiskSizes sizes.block sizes.size }
    ensures few { length result.0.requests.items ≤ 64 }
    ensures gathered { HasGathered sizes.size result.0.requests.items result.0.operations.items result.1 (R.remaining reader.old) (R.remaining reader.new) }
{
    let mut batch = Batch::new(alloc);
    for _number in 0..MOST {
        match batch.collect(alloc, reader, sizes) {
            Ok(()) => {}
            Err(close) => return (batch, close),
        }
        if batch.is_heavy() || !has_request(reader.arrived()) {
            return (batch, Close::Waits);
        }
    }
    (batch, Close::Waits)
}
