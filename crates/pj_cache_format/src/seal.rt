//! Seals: the SHA-256 of all bytes before.
ghost use Rattle.std.specs.Prelude.{◌≡◌, ◌++◌, OnOk, IfOk};
ghost use Rattle.sha2.specs.Sha256.{sha256};
ghost use Rattle.pj_cache_format.specs.Decoded.{sealed};

use crate::fault::Digest32;
use pj_base::{Bytes, NoMemory};
use sha2::{Digest, Sha256};

/// The digest of bytes.
pub fn digest_of(bytes: &[u8]) -> Digest32
    ensures { result ≡ sha256 bytes.now }
{
    let mut hasher = Sha256::new();
    hasher.update(bytes);
    hasher.finalize()
}

/// Puts the seal, the SHA-256 of all bytes before, at the end.
pub fn seal_content(content: Vec<u8>) -> Result<Bytes, NoMemory>
    ensures { IfOk result (λ bytes. bytes ≡ sealed content.items) }
{
    let mut content = content;
    let digest = digest_of(&content);
    content.extend_from_slice(&digest)?;
    Ok(Bytes::from_vec(content))
}
