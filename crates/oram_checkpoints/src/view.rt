//! RECORDS of one of the two moments at which a host knows its records.
ghost use Rattle.std.specs.Prelude.{◌≡◌, ◌≢◌, ◌↔◌, ◌⊎◌, ◌++◌, ℕ, List, None, Some, Ok, IfOk, IfErr, IsErrOf, IfSome, OnOk, length};
ghost use Rattle.oram_records.specs.Messages.{names_records, records_body};
ghost use Rattle.oram_records.specs.Messages.{HasNumbers as HasNodeNumbers};
ghost use Rattle.oram_checkpoints.specs.Views.{HasNumbers, IsMisfit, IsView, nodes_text, view_text, viewed_body, viewed_text};
ghost use Rattle.oram_checkpoints.specs.declared.view.View.{View};
ghost use Rattle.oram_checkpoints.specs.declared.view.ViewedRecords.{ViewedRecords};

use crate::numbers::{split_long, split_short};
use oram_records::RecordsRequest;
use oram_wire::WireFault;
use std::alloc::{AllocError, Global};

/// The first byte of the request.
const RECORDS: u8 = 5;

/// The second byte of the request for the records that the host has now.
const NOW: u8 = 0;

/// The second byte of the request for the records that the host had at a checkpoint.
const CHECKPOINT: u8 = 1;

/// The number of bytes of a request for the records of a checkpoint. One for those of now is shorter.
const LONGEST_LEN: usize = 19;

/// The moment whose records are asked for.
#[derive(Clone, Copy, Debug, PartialEq, Eq)]
pub enum View {
    /// The records that the host has now.
    Now,
    /// Those that it had at the checkpoint with this number.
    Checkpoint(u64),
}

/// Asks for the records of nodes in a row of one tree, as they are or were at a moment.
#[derive(Clone, Copy, Debug, PartialEq, Eq)]
pub struct ViewedRecords {
    pub view: View,
    pub records: RecordsRequest,
}

impl View {
    /// Splits the view off the bytes behind a request's first one, and returns the bytes after it.
    fn split(fields: &[u8]) -> Option<(View, &[u8])>
        ensures some { IfSome result (λ x. fields.now ≡ view_text x.0 ++ x.1.now) }
        ensures fits { IfSome result (λ x. IsView x.0) }
        ensures none { result ≡ None → (view : View) (rest : List ℕ) → IsView view → fields.now ≢ view_text view ++ rest }
    {
        match fields {
            [NOW, rest @ ..] => Some((View::Now, rest)),
            [CHECKPOINT, rest @ ..] => {
                let (number, rest) = split_long(rest)?;
                Some((View::Checkpoint(number), rest))
            }
            _ => None,
        }
    }

    /// Adds the bytes of the view to a body.
    fn push_to(self, body: &mut Vec<u8>) -> Result<(), AllocError>
        ensures { OnOk result (body.new.items ≡ body.old.items ++ view_text self) }
    {
        match self {
            View::Now => body.extend_from_slice(&[NOW]),
            View::Checkpoint(number) => {
                body.extend_from_slice(&[CHECKPOINT])?;
                body.extend_from_slice(&number.to_be_bytes())
            }
        }
    }
}

/// Reads the nodes that a request names, which are all of these bytes.
fn nodes_in(bytes: &[u8]) -> Option<RecordsRequest>
    ensures some { IfSome result (λ nodes. bytes.now ≡ nodes_text nodes) }
    ensures fits { IfSome result HasNodeNumbers }
    ensures none { result ≡ None → length bytes.now ≢ 9 }
{
    let (tree, rest) = bytes.split_first()?;
    let (first, rest) = split_short(rest)?;
    let (count, rest) = split_short(rest)?;
    if !rest.is_empty() {
        return None;
    }
    Some(RecordsRequest {
        tree: *tree,
        first,
        count,
    })
}

impl ViewedRecords {
    /// Encodes the request as a body. Of the records of now it is the body that [`RecordsRequest::encode`] makes. Fails only if memory
    /// runs out.
    pub fn encode(&self, alloc: Global) -> Result<Vec<u8>, AllocError>
        ensures body { IfOk result (λ body. body.items ≡ viewed_body self.now) }
        ensures now { self.now.view ≡ View.Now → IfOk result (λ body. body.items ≡ records_body self.now.records) }
    {
        let mut body = Vec::with_capacity(alloc, LONGEST_LEN)?;
        body.extend_from_slice(&[RECORDS])?;
        self.view.push_to(&mut body)?;
        body.extend_from_slice(&[self.records.tree])?;
        body.extend_from_slice(&self.records.first.to_be_bytes())?;
        body.extend_from_slice(&self.records.count.to_be_bytes())?;
        Ok(body)
    }

    /// Reads the bytes behind a request's first one.
    fn behind_op(fields: &[u8]) -> Option<ViewedRecords>
        ensures some { IfSome result (λ request. fields.now ≡ viewed_text request) }
        ensures fits { IfSome result HasNumbers }
        ensures only { (request : ViewedRecords) → HasNumbers request → fields.now ≡ viewed_text request → result ≡ Some request }
    {
        let (view, rest) = View::split(fields)?;
        let records = nodes_in(rest)?;
        Some(ViewedRecords { view, records })
    }

    /// Decodes a body. Fails with `Op` if its first byte names another message, and else with `Length` if it is the body of no such
    /// request: if it names no moment, or is too short or too long. Doesn't look at the number of the checkpoint, nor at the nodes.
    pub fn decode(body: &[u8]) -> Result<ViewedRecords, WireFault>
        ensures found { IfOk result (λ request. body.now ≡ viewed_body request) }
        // It decodes each request's body as that request.
        ensures only { (request : ViewedRecords) → HasNumbers request → body.now ≡ viewed_body request → result ≡ Ok request }

        ensures op { IsErrOf result WireFault.Op ↔ (¬ names_records body.now) }
        ensures length { IsErrOf result WireFault.Length ↔ IsMisfit body.now }
        ensures faults { IfErr result (λ fault. (fault ≡ WireFault.Op) ⊎ (fault ≡ WireFault.Length)) }
    {
        match body {
            [RECORDS, fields @ ..] => match ViewedRecords::behind_op(fields) {
                Some(request) => Ok(request),
                None => Err(WireFault::Length),
            },
            _ => Err(WireFault::Op),
        }
    }
}
