//! Cuts frames from a stream that arrives in pieces.

ghost use Rattle.std.specs.Prelude.{◌≡◌, ◌++◌, ◌+◌, ◌-◌, ◌<◌, ◌≤◌, ℕ, List, [], true, false, length, IfOk, OnOk, OnErr, IsOkAnd, MatchOption, All};
ghost use Rattle.std.specs.Bool.{MatchBool};
ghost use Rattle.std.specs.Int.{w32, to_be_bytes};
ghost use Rattle.std.specs.List.{flat_map};
ghost use Rattle.oram_wire.specs.FrameStream.{AreFrames, Feeding, IsBody, IsBroken, IsFeeding, IsUnfinished, frame, length_at};
ghost use Rattle.oram_wire.specs.ListOfBodies.{bodies_in};

use crate::LONGEST_BODY;
use byteorder::{BigEndian, ByteOrder};
use std::alloc::{AllocError, Global};
use std::marker::Model;

/// The number of bytes that give the length of a frame's body.
pub(super) const HEAD: usize = 4;

/// The result of feeding a piece of a stream.
#[derive(Debug, Drop)]
pub struct Fed {
    /// The bodies of the frames that the piece completed, in order.
    pub frames: Vec<Vec<u8>>,
    /// Whether the length of a frame, in this piece or before it, was greater than that of the longest body.
    pub broken: bool,
}

/// Takes a stream of frames in pieces of any size.
///
/// It holds at most one unfinished frame, and reserves room for all of it once its length is known. So it copies each
/// byte once to hold it, and once into its body.
#[derive(Debug, Drop)]
pub struct Frames {
    held: Vec<u8>,
    broken: bool,
}

impl Model for Frames {
    ghost use Rattle.oram_wire.specs.FrameStream.{Feeding, IsFeeding};

    ghost Value = { Feeding };

    ghost view = { λ f. record { held = f.held.items; broken = f.broken } };

    ghost invariant = { λ f. IsFeeding (record { held = f.held.items; broken = f.broken }) };
}

/// The front of a stream.
enum Front<'a> {
    /// The body of a whole frame, and the bytes after the frame.
    Whole(&'a [u8], &'a [u8]),
    /// Less than a whole frame.
    Unfinished,
    /// A length that is too great for a frame.
    Broken,
}

impl<'a> Front<'a> {
    ghost use Rattle.oram_wire.specs.Fronts.{IsFront};

    fn of(bytes: &'a [u8]) -> Front<'a>
        ensures { IsFront bytes.now result }
    {
        if bytes.len() < HEAD {
            return Front::Unfinished;
        }
        let length = BigEndian::read_u32(bytes) as usize;
        if length > LONGEST_BODY {
            return Front::Broken;
        }
        let rest = &bytes[HEAD..];
        if rest.len() < length {
            return Front::Unfinished;
        }
        let (body, rest) = rest.split_at(length);
        Front::Whole(body, rest)
    }
}

/// Cuts the whole frames off the front of `bytes` and adds their bodies to `frames`. Returns the bytes after them, and
/// whether these begin with a length that is too great.
fn cut<'a>(
    alloc: Global,
    frames: &mut Vec<Vec<u8>>,
    bytes: &'a [u8],
) -> Result<(&'a [u8], bool), AllocError>
    ensures whole { IfOk result (λ p. flat_map frame (bodies_in frames.new.items) ++ p.0.now
        ≡ flat_map frame (bodies_in frames.old.items) ++ bytes.now) }
    ensures each { OnOk result (All IsBody (bodies_in frames.old.items)
        → All IsBody (bodies_in frames.new.items)) }
    ensures rest { IfOk result (λ p. MatchBool p.1 (IsBroken p.0.now) (IsUnfinished p.0.now)) }
{
    let mut rest = bytes;
    loop {
        match Front::of(rest) {
            Front::Whole(body, after) => {
                frames.push(body.to_vec(alloc)?)?;
                rest = after;
            }
            Front::Unfinished => return Ok((rest, false)),
            Front::Broken => return Ok((rest, true)),
        }
    }
}

/// Returns the length at the front of `held` followed by `piece`, if there are four bytes.
fn length_across(held: &[u8], piece: &[u8]) -> Option<usize>
    ensures { MatchOption result (length (held.now ++ piece.now) < 4)
        (λ n. (4 ≤ length (held.now ++ piece.now)) × (n ≡ length_at (held.now ++ piece.now))) }
{
    if held.len() >= HEAD {
        return Some(BigEndian::read_u32(held) as usize);
    }
    let missing = HEAD - held.len();
    if piece.len() < missing {
        return None;
    }
    let mut head = [0; HEAD];
    head[..held.len()].copy_from_slice(held);
    head[held.len()..].copy_from_slice(&piece[..missing]);
    Some(BigEndian::read_u32(&head) as usize)
}

/// Returns the body of the frame that consists of `held` and `part`.
fn joined_body(alloc: Global, held: &[u8], part: &[u8]) -> Result<Vec<u8>, AllocError>
    requires { 4 ≤ length held.now + length part.now }
    ensures { IfOk result (λ v. held.now ++ part.now ≡ to_be_bytes w32 (length_at
        (held.now ++ part.now)) ++ v.items) }
{
    let head = held.len().min(HEAD);
    let mut body = Vec::with_capacity(alloc, held.len() + part.len() - HEAD)?;
    body.extend_from_slice(&held[head..])?;
    body.extend_from_slice(&part[HEAD - head..])?;
    Ok(body)
}

/// Appends a piece of an unfinished frame to `held`. The whole frame has `whole` bytes.
fn hold(held: &mut Vec<u8>, piece: &[u8], whole: usize) -> Result<(), AllocError>
    ensures ok { OnOk result (held.new.items ≡ held.old.items ++ piece.now) }
    ensures err { OnErr result (held.new.items ≡ held.old.items) }
{
    held.reserve_exact(whole.saturating_sub(held.len()))?;
    held.extend_from_slice(piece)
}

/// Copies the beginning of an unfinished frame, with room for the rest of it.
fn begin(alloc: Global, bytes: &[u8]) -> Result<Vec<u8>, AllocError>
    requires { IsUnfinished bytes.now }
    ensures { IfOk result (λ v. v.items ≡ bytes.now) }
{
    let mut held = Vec::new(alloc);
    if bytes.is_empty() {
        return Ok(held);
    }
    let length = length_across(bytes, &[]).unwrap_or(0);
    hold(&mut held, bytes, HEAD + length)?;
    Ok(held)
}

/// Feeds a piece of a stream that isn't broken. `held` holds the unfinished frame before the piece.
fn advance(alloc: Global, held: &mut Vec<u8>, piece: &[u8]) -> Result<Fed, AllocError>
    requires { IsUnfinished held.old.items }
    ensures ok { IfOk result (λ fed. AreFrames (held.old.items ++ piece.now)
        (bodies_in fed.frames.items)
        (record { held = held.new.items; broken = fed.broken })) }
    ensures err { OnErr result (held.new.items ≡ held.old.items) }
{
    let mut frames = Vec::new(alloc);
    let Some(length) = length_across(held, piece) else {
        hold(held, piece, HEAD)?;
        return Ok(Fed {
            frames,
            broken: false,
        });
    };
    if length > LONGEST_BODY {
        *held = Vec::new(alloc);
        return Ok(Fed {
            frames,
            broken: true,
        });
    }
    let missing = HEAD + length - held.len();
    if piece.len() < missing {
        hold(held, piece, HEAD + length)?;
        return Ok(Fed {
            frames,
            broken: false,
        });
    }
    let (part, after) = piece.split_at(missing);
    frames.push(joined_body(alloc, held, part)?)?;
    let (rest, broken) = cut(alloc, &mut frames, after)?;
    *held = if broken {
        Vec::new(alloc)
    } else {
        begin(alloc, rest)?
    };
    Ok(Fed { frames, broken })
}

impl Frames {
    /// Makes the value for a stream before any byte of it has arrived.
    pub fn new(alloc: Global) -> Frames
        ensures empty { (result.held ≡ []) × (result.broken ≡ false) }
        ensures frames { AreFrames [] [] result }
    {
        Frames {
            held: Vec::new(alloc),
            broken: false,
        }
    }

    /// Returns the number of bytes that it holds of an unfinished frame.
    pub fn rest_len(&self) -> usize
        ensures rest { result ≡ length self.now.held }
        ensures feeding { IsFeeding self.now }
    {
        self.held.len()
    }

    /// Takes the next piece of the stream. After the stream is broken, no frame follows. If memory runs out, the call
    /// fails and changes nothing.
    pub fn feed(&mut self, alloc: Global, piece: &[u8]) -> Result<Fed, AllocError>
        // It returns exactly the bodies of the bytes held followed by the piece.
        ensures fed { self.old.broken ≡ false
            → IfOk result (λ fed. AreFrames (self.old.held ++ piece.now)
            (bodies_in fed.frames.items) self.new) }
        ensures only { self.old.broken ≡ false
            → IfOk result (λ fed. (bodies : List (List ℕ)) (left : Feeding) →
            AreFrames (self.old.held ++ piece.now) bodies left
            → (bodies ≡ bodies_in fed.frames.items) × (left ≡ self.new)) }
        ensures after { self.old.broken ≡ true → IsOkAnd result (λ fed. fed.frames.items ≡ [])
            × (self.new ≡ self.old) }

        // So the bodies of a whole stream don't depend on how it is cut into pieces.
        ensures stream { (stream : List ℕ) (bodies : List (List ℕ))
            → AreFrames stream bodies self.old →
            IfOk result (λ fed. AreFrames (stream ++ piece.now)
            (bodies ++ bodies_in fed.frames.items) self.new) }

        ensures broken { IfOk result (λ fed. fed.broken ≡ self.new.broken) }
        ensures err { OnErr result (self.new ≡ self.old) }
    {
        if self.broken {
            return Ok(Fed {
                frames: Vec::new(alloc),
                broken: true,
            });
        }
        let fed = advance(alloc, &mut self.held, piece)?;
        self.broken = fed.broken;
        Ok(fed)
    }
}
