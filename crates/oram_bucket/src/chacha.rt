//! A sealer that uses the stream cipher ChaCha20.
ghost use Rattle.std.specs.Prelude.{◌≡◌, ◌+◌, ◌*◌, ◌^◌, ◌<◌, ◌++◌, OnOk, OnErr, length, vec_len, vec_capacity, bit_xor};
ghost use Rattle.std.specs.Simd.Lanes.{zip2};
ghost use Rattle.rand_chacha.specs.ChaCha.{key_of};
ghost use Rattle.oram_bucket.specs.Keystream.{next_words, xored_from, chacha_sealing, chacha_opening};
ghost use Rattle.oram_bucket.specs.ChaChaLaws.{chacha_longer, chacha_undoes};
ghost use Rattle.std.specs.List.{flat_map};
ghost use Rattle.std.proofs.Common.{arith};

use crate::sealer::{OpenFault, Sealer};
use byteorder::{BigEndian, ByteOrder};
use rand_chacha::ChaCha20Rng;
use rand_core::SeedableRng;
use rand_core::utils::NextWord;
use std::alloc::{AllocError, Global};
use std::fmt;
use std::simd::prelude::*;

const NONCE_LEN: usize = 8;

// A block of ChaCha20 has 64 bytes. A run is as many blocks as the generator makes at a time.
const BLOCK_LEN: usize = 64;

const RUN_BLOCKS: usize = 4;

const RUN_LEN: usize = 256;

const RUN_WORDS: u128 = 64;

/// ChaCha20 (RFC 8439) under one key, with a separate keystream for each nonce.
///
/// Sealed bytes are the nonce, in eight bytes big-endian, and then the plain bytes, each XORed with its byte of the
/// keystream. Fewer than eight sealed bytes are broken. Any other change by the host goes unnoticed here: the bytes
/// open as other plain bytes.
#[derive(Clone, Copy)]
pub struct ChaChaSeal {
    pub key: [u8; 32],
}

// Doesn't show the key.
impl fmt::Debug for ChaChaSeal {
    fn fmt<W: fmt::Write>(&self, f: &mut fmt::Formatter<W>) -> fmt::Result {
        f.write_str("ChaChaSeal { .. }")
    }
}

impl Sealer for ChaChaSeal {
    ghost cipher = { λ s. record { overhead = 8; sealing = chacha_sealing s.key; opening = chacha_opening s.key } };

    fn overhead(&self) -> usize {
        NONCE_LEN
    }

    fn seal(&self, alloc: Global, nonce: u64, plain: &[u8]) -> Result<Vec<u8>, AllocError> {
        let mut sealed = Vec::with_capacity(alloc, NONCE_LEN + plain.len())?;
        self.seal_to(alloc, nonce, plain, &mut sealed)?;
        Ok(sealed)
    }

    // Reserves room for everything first, so that no later step can run out of memory.
    fn seal_to(
        &self,
        _alloc: Global,
        nonce: u64,
        plain: &[u8],
        out: &mut Vec<u8>,
    ) -> Result<(), AllocError> {
        out.reserve(NONCE_LEN + plain.len())?;
        let mut head = [0u8; NONCE_LEN];
        BigEndian::write_u64(&mut head, nonce);
        out.extend_from_slice(&head)?;
        append_xored(out, self.key, nonce, plain)
    }

    fn open(&self, alloc: Global, sealed: &[u8]) -> Result<Vec<u8>, OpenFault> {
        if sealed.len() < NONCE_LEN {
            return Err(OpenFault::Broken);
        }
        let (head, hidden) = sealed.split_at(NONCE_LEN);
        let mut plain = Vec::with_capacity(alloc, hidden.len())?;
        append_xored(&mut plain, self.key, BigEndian::read_u64(head), hidden)?;
        Ok(plain)
    }

    ghost lawful = { λ s. record {
      small = Prim.omega arith;
      longer = chacha_longer s.key;
      undoes = λ nonce plain h k. chacha_undoes s.key nonce plain h;
    } };
}

/// Appends `bytes` to `out`, each XORed with its byte of the keystream.
fn append_xored(
    out: &mut Vec<u8>,
    key: [u8; 32],
    nonce: u64,
    bytes: &[u8],
) -> Result<(), AllocError>
    ensures ok { OnOk result (out.new.items ≡ out.old.items ++ xored_from (key_of key) nonce 0 bytes.now) }
    ensures full { OnErr result (vec_capacity out.old < vec_len out.old + length bytes.now) }
{
    let mut generator = ChaCha20Rng::from_seed(key);
    generator.set_stream(nonce);
    let (runs, rest) = bytes.as_chunks::<RUN_LEN>();
    for (place, run) in runs.iter().enumerate() {
        let xored = xored_run(&mut generator, place, run);
        out.extend_from_slice(xored.as_flattened())?;
    }
    let mut last = [0; RUN_LEN];
    last[..rest.len()].copy_from_slice(rest);
    let xored = xored_run(&mut generator, runs.len(), &last);
    out.extend_from_slice(&xored.as_flattened()[..rest.len()])
}

/// XORs the run number `place` of a stream with its part of the keystream.
#[inline(always)]
fn xored_run(
    generator: &mut ChaCha20Rng,
    place: usize,
    run: &[u8; RUN_LEN],
) -> [[u8; BLOCK_LEN]; RUN_BLOCKS]
    requires { 256 * place < 2 ^ 64 }
    ensures value { flat_map (λ x. x) result ≡ xored_from generator.old.key generator.old.stream (256 * place) run.now }
    ensures later { generator.new ≡ record generator.old { word_pos = 64 * (place + 1) } }
{
    // (once its position is set to the start of a run, the generator makes the words here, without a test before each)
    generator.set_word_pos(RUN_WORDS * place as u128);
    [
        xored_block(generator, &run[..BLOCK_LEN]),
        xored_block(generator, &run[BLOCK_LEN..2 * BLOCK_LEN]),
        xored_block(generator, &run[2 * BLOCK_LEN..3 * BLOCK_LEN]),
        xored_block(generator, &run[3 * BLOCK_LEN..]),
    ]
}

/// XORs a block with the next 64 bytes of the keystream, all lanes at once.
#[inline(always)]
fn xored_block(generator: &mut ChaCha20Rng, block: &[u8]) -> [u8; BLOCK_LEN]
    requires { length block.now ≡ 64 }
    ensures value { result ≡ zip2 bit_xor block.now (next_words 16 generator.old).0 }
    ensures later { generator.new ≡ (next_words 16 generator.old).1 }
{
    (u8x64::from_slice(block) ^ next_lanes(generator)).to_array()
}

/// Returns the bytes of the generator's next sixteen words.
#[inline(always)]
fn next_lanes(generator: &mut ChaCha20Rng) -> u8x64
    ensures { (result, generator.new) ≡ next_words 16 generator.old }
{
    let words = [
        generator.next_word(),
        generator.next_word(),
        generator.next_word(),
        generator.next_word(),
        generator.next_word(),
        generator.next_word(),
        generator.next_word(),
        generator.next_word(),
        generator.next_word(),
        generator.next_word(),
        generator.next_word(),
        generator.next_word(),
        generator.next_word(),
        generator.next_word(),
        generator.next_word(),
        generator.next_word(),
    ];
    u32x16::from_array(words).to_le_bytes()
}
