//! The digest of a device's content, which its end shows.
ghost use Rattle.std.specs.Prelude.{◌≡◌, find, option_copied, cond, is_none};
ghost use Rattle.bd_machine.specs.BlockMap.{is_malloc};
ghost use Rattle.bd_machine.specs.Homes.{is_base, is_digest_at, is_digest_of};
ghost use Rattle.bd_blocks.specs.Digests.{digest_at, digest_due};

use crate::bases::find_base;
use bd_base::{DevId, Setup};
use bd_machine::{Base, Content};
use bd_stack::is_malloc;

// The digest of a base's blocks.
fn digest_at(base: Option<&Base>) -> Option<[u8; 32]>
    ensures { result ≡ digest_at (option_copied base.entry) }
{
    match &base?.content {
        Content::Blocks(blocks) => Some(blocks.digest()),
        Content::Zeros | Content::Untold => None,
    }
}

// What is shown of a device that is malloc or not.
fn digest_shown(malloc: bool, base: Option<&Base>) -> Option<Option<[u8; 32]>>
    ensures { result ≡ digest_due malloc (option_copied base.entry) }
{
    if !malloc {
        return Some(None);
    }
    let digest = digest_at(base)?;
    Some(Some(digest))
}

/// What the end of a device shows: of a malloc device the SHA-256 of its blocks in order; of another
/// device no digest. None where it is malloc and its blocks aren't among the bases.
pub fn digest_due(setup: &Setup, bases: &[Base], dev: DevId) -> Option<Option<[u8; 32]>>
    ensures { result ≡ digest_due (is_malloc setup.now dev) (find (is_base dev) bases.now) }
{
    digest_shown(is_malloc(setup, dev), find_base(bases, dev))
}

fn is_digest_of(content: &Content, digest: &[u8; 32]) -> bool
    ensures { result ≡ is_digest_of content.now digest.now }
{
    match content {
        Content::Blocks(blocks) => {
            let found = blocks.digest();
            digest.as_slice() == found.as_slice()
        }
        Content::Zeros | Content::Untold => false,
    }
}

fn is_digest_at(base: Option<&Base>, digest: &Option<[u8; 32]>) -> bool
    ensures { result ≡ is_digest_at (option_copied base.entry) digest.now }
{
    match (base, digest) {
        (Some(b), Some(d)) => is_digest_of(&b.content, d),
        _ => false,
    }
}

/// Whether the digest is what the end of a device shows: that of its blocks for malloc, else none.
pub fn is_digest_due(setup: &Setup, bases: &[Base], dev: DevId, digest: &Option<[u8; 32]>) -> bool
    ensures { result ≡ cond (is_malloc setup.now dev) (is_digest_at (find (is_base dev) bases.now) digest.now) (is_none digest.now) }
{
    if is_malloc(setup, dev) {
        is_digest_at(find_base(bases, dev), digest)
    } else {
        digest.is_none()
    }
}
