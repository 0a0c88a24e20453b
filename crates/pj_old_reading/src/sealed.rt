//! The seal of a cache.
ghost use Rattle.std.specs.Prelude.{◌≡◌, ◌≤◌, ◌↔◌, length, take, IsTrue, MatchResult};
ghost use Rattle.pj_cache_format.specs.Decoded.{IsSealed, magic, content_of, seal_of};
ghost use Rattle.pj_old_reading.specs.Unsealed.{IsUnsealed};

use crate::fields::is_same;
use pj_cache_format::{CacheFault, Digest32, digest_of};

/// Whether bytes begin as caches do.
fn has_magic(bytes: &[u8]) -> bool
    requires { 8 ≤ length bytes.now }
    ensures { IsTrue result ↔ (take 8 bytes.now ≡ magic) }
{
    is_same(&bytes[..8], b"PMDJCACH")
}

/// All but the seal, borrowed.
fn content_of(bytes: &[u8]) -> &[u8]
    requires { 32 ≤ length bytes.now }
    ensures { result.now ≡ content_of bytes.now }
{
    &bytes[..bytes.len() - 32]
}

/// The seal.
fn seal_of(bytes: &[u8]) -> Digest32
    requires { 32 ≤ length bytes.now }
    ensures { result ≡ seal_of bytes.now }
{
    let mut seal = [0; 32];
    seal.copy_from_slice(&bytes[bytes.len() - 32..]);
    seal
}

/// All but the seal of bytes, borrowed, where they are sealed as caches are; or what is wrong with them, tested in this order: `Short`
/// where they are fewer than 44, `Magic` where they do not begin as caches do, `Seal` with the last 32 bytes and the SHA-256 of
/// those before where these differ. `Form` never comes.
pub(crate) fn sealed_content(bytes: &[u8]) -> Result<&[u8], CacheFault>
    ensures { MatchResult result (λ content. IsSealed bytes.now × (content.now ≡ content_of bytes.now)) (λ fault. IsUnsealed bytes.now fault) }
{
    if bytes.len() < 44 {
        return Err(CacheFault::Short);
    }
    let is_begun = has_magic(bytes);
    if !is_begun {
        return Err(CacheFault::Magic);
    }
    let content = content_of(bytes);
    let kept = seal_of(bytes);
    let computed = digest_of(content);
    let is_right = is_same(&kept, &computed);
    if !is_right {
        return Err(CacheFault::Seal(kept, computed));
    }
    Ok(content)
}
