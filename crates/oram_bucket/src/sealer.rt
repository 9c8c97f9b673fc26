//! The sealer, which hides a bucket's bytes from the host.
ghost use Rattle.std.specs.Prelude.{◌≡◌, ◌↔◌, ◌++◌, Some, None, IfOk, OnOk, OnErr, refl};
ghost use Rattle.std.proofs.Common.{arith};
ghost use Rattle.oram_bucket.specs.Cipher.{Cipher, IsCipher, plain_cipher};

use std::alloc::{AllocError, Global};

/// Why sealed bytes don't open.
#[derive(Clone, Copy, Debug, PartialEq, Eq)]
pub enum OpenFault {
    /// The sealer can't have made these bytes.
    Broken,
    OutOfMemory,
}

impl From<AllocError> for OpenFault {
    ghost use Rattle.oram_bucket.specs.declared.sealer.OpenFault.TheVariants.{OutOfMemory};

    ghost from_gives = { λ _ f. f ≡ OutOfMemory };

    fn from(_: AllocError) -> Self {
        OpenFault::OutOfMemory
    }
}

/// Seals the bytes of a bucket before the host gets them, and opens the bytes that the host gives back.
///
/// The laws of this trait don't say that the host learns nothing from sealed bytes.
pub trait Sealer: Drop {
    /// What the sealer does.
    ghost cipher: { Self → Cipher };

    /// Returns how many bytes longer sealed bytes are than the plain ones, at most 64.
    fn overhead(&self) -> usize
        ensures { result ≡ (cipher self.now).overhead };

    /// Seals plain bytes. Use each nonce only once.
    fn seal(&self, alloc: Global, nonce: u64, plain: &[u8]) -> Result<Vec<u8>, AllocError>
        ensures { IfOk result (λ v. v.items ≡ (cipher self.now).sealing nonce plain.now) };

    /// Seals plain bytes and appends the result to `out`. If memory runs out, `out` is unchanged.
    fn seal_to(
        &self,
        alloc: Global,
        nonce: u64,
        plain: &[u8],
        out: &mut Vec<u8>,
    ) -> Result<(), AllocError>
        ensures ok { OnOk result
            (out.new.items ≡ out.old.items ++ (cipher self.now).sealing nonce plain.now) }
        ensures err { OnErr result (out.new.items ≡ out.old.items) }
    {
        let sealed = self.seal(alloc, nonce, plain)?;
        out.extend_from_slice(&sealed)
    }

    /// Opens sealed bytes, whatever nonce they were sealed under.
    fn open(&self, alloc: Global, sealed: &[u8]) -> Result<Vec<u8>, OpenFault>
        ensures ok { IfOk result (λ v. (cipher self.now).opening sealed.now ≡ Some v.items) }
        ensures broken { (result ≡ Err OpenFault.Broken) ↔ ((cipher self.now).opening sealed.now ≡ None) };

    ghost lawful: { (s : Self) → IsCipher (cipher s) };
}

/// The identity as a sealer: it hides nothing.
#[derive(Clone, Copy, Debug)]
pub struct PlainSeal;

impl Sealer for PlainSeal {
    ghost cipher = { λ _. plain_cipher };

    fn overhead(&self) -> usize {
        0
    }

    fn seal(&self, alloc: Global, _nonce: u64, plain: &[u8]) -> Result<Vec<u8>, AllocError> {
        plain.to_vec(alloc)
    }

    fn seal_to(
        &self,
        _alloc: Global,
        _nonce: u64,
        plain: &[u8],
        out: &mut Vec<u8>,
    ) -> Result<(), AllocError> {
        out.extend_from_slice(plain)
    }

    fn open(&self, alloc: Global, sealed: &[u8]) -> Result<Vec<u8>, OpenFault> {
        let plain = sealed.to_vec(alloc)?;
        Ok(plain)
    }

    ghost lawful = { λ s. record {
      small = Prim.omega arith;
      longer = λ nonce plain. Prim.omega arith;
      undoes = λ nonce plain h k. refl;
    } };
}
