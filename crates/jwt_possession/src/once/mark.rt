//! The digest that a pair of issuer and `jti` is held by.

ghost use Rattle.std.specs.Prelude.{◌≡◌, ◌++◌, ◌<◌, ◌^◌, length};
ghost use Rattle.jwt_possession.specs.once.Marks.{mark_of};
ghost use Rattle.jwt_possession.specs.once.Laws.{TellsApart};

use jwt_mac::sha256;

/// The SHA-256 digest of how long the issuer is, the issuer and the `jti`: so no octet of the one counts as the other's.
pub(crate) fn mark(issuer: &[u8], jti: &[u8]) -> [u8; 32]
    ensures { result ≡ mark_of issuer.now jti.now }
{
    let long = (issuer.len() as u64).to_be_bytes();
    sha256([&long, issuer, jti])
}

/// The owner of what an issuer says of a subject: of tokens by issuer and subject, of proofs by the thumbprint of their key and an empty subject. It is the
/// digest by which a pair of issuer and `jti` is held.
pub fn owner_of(issuer: &[u8], subject: &[u8]) -> [u8; 32]
    ensures { result ≡ mark_of issuer.now subject.now }
{
    mark(issuer, subject)
}

/// Whoever finds two pairs with one mark has found two texts with one SHA-256 digest.
pub fn marks_tell_apart(issuer: &[u8], jti: &[u8], other_issuer: &[u8], other_jti: &[u8])
    ensures { TellsApart issuer.now jti.now other_issuer.now other_jti.now }
{
    let _first = issuer.len() as u64;
    let _second = other_issuer.len() as u64;
}
