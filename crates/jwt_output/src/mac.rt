//! The line of a tag.
ghost use Rattle.std.specs.Prelude.{◌≡◌, ◌≢◌, IfOk};
ghost use Rattle.jwt_output.specs.Mac.{digest_line, key_refused};
ghost use Rattle.jwt_output.specs.Views.{digest_view, reply_view};

use crate::reply::Reply;
use jwt_mac::Tag;
use std::alloc::{AllocError, Global};

/// A tag, and whether the signature is that tag.
#[derive(Drop)]
pub struct Digest {
    /// The tag of the signing input.
    pub tag: Tag,

    /// Whether the signature is that tag.
    pub equal: bool,
}

/// The line of a digest.
pub fn digest_line(alloc: Global, digest: &Digest) -> Result<Reply, AllocError>
    ensures line { IfOk result (λ r. reply_view r ≡ digest_line (digest_view digest.now)) }
    ensures done { IfOk result (λ r. r.status ≢ 3) }
{
    let tag = hex::encode(alloc, digest.tag.octets())?;
    if digest.equal {
        let text = format!(in alloc; "mac {tag} equal\n")?.into_bytes();
        Ok(Reply::of(text, 0))
    } else {
        let text = format!(in alloc; "mac {tag} differ\n")?.into_bytes();
        Ok(Reply::of(text, 1))
    }
}

/// The line of a key that is refused.
pub fn refused_key(alloc: Global) -> Result<Reply, AllocError>
    ensures { IfOk result (λ a. reply_view a ≡ key_refused) }
{
    Reply::line(alloc, "refused Key", 2)
}
