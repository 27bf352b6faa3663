//! The heading of a message file, and the digest at its end.

ghost use Rattle.std.specs.Prelude.{◌≡◌, ◌++◌, ◌↔◌, ℕ, List, IsTrue, IfSome, IfNone};
ghost use Rattle.sha2.specs.Sha256.{sha256};
ghost use Rattle.sr_msgform.specs.Messages.{heading, sealed};

use sha2::{Digest, Sha256};

/// The bytes of a SHA-256 digest.
const DIGEST: usize = 32;

fn are_same(one: &[u8], other: &[u8]) -> bool
    ensures { IsTrue result ↔ (one.now ≡ other.now) }
{
    one == other
}

/// The bytes before the digest at the end of `bytes`. `None` where no digest of them stands there.
#[tactic(auto, unfolding(crate::specs::Messages::sealed))]
fn unsealed(bytes: &[u8]) -> Option<&[u8]>
    ensures found { IfSome result (λ content. bytes.now ≡ sealed content.now) }
    ensures none { IfNone result ((content : List ℕ) → bytes.now ≡ sealed content → ⊥) }
{
    if bytes.len() < DIGEST {
        return None;
    }
    let (content, digest) = bytes.split_at(bytes.len() - DIGEST);
    let computed = Sha256::digest(content);
    if !are_same(digest, computed.as_slice()) {
        return None;
    }
    Some(content)
}

/// The bytes behind the magic and the version. `None` where others stand at the front.
fn behind_heading(content: &[u8]) -> Option<&[u8]>
    ensures found { IfSome result (λ rest. content.now ≡ heading ++ rest.now) }
    ensures none { IfNone result ((rest : List ℕ) → content.now ≡ heading ++ rest → ⊥) }
{
    match content {
        [b'S', b'R', b'M', b'F', 1, rest @ ..] => Some(rest),
        _ => None,
    }
}

/// The bytes between the heading and the digest. `None` where the file has no such heading or no such digest.
pub(crate) fn inside(bytes: &[u8]) -> Option<&[u8]>
    ensures found { IfSome result (λ rest. bytes.now ≡ sealed (heading ++ rest.now)) }
    ensures none { IfNone result ((rest : List ℕ) → bytes.now ≡ sealed (heading ++ rest) → ⊥) }
{
    behind_heading(unsealed(bytes)?)
}
