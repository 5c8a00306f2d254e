//! The algorithms that a JSON Web Signature may name, and what an HMAC costs.

ghost use Rattle.std.specs.Prelude.{◌≡◌, ◌≤◌, ◌<◌, ◌^◌, ◌≢◌, MatchOption, Some, SomeIff};
ghost use Rattle.jwt_mac.specs.Algorithm.{is_hmac_alg, block_size, digest_size, try_cost, name_of, kind_of, alg_named, octets_of, hash_by};

use crate::key_view::EcCurve;

/// A hash function of SHA-2 (FIPS 180-4).
#[derive(Clone, Copy, Debug, PartialEq, Eq)]
pub enum Hash {
    /// SHA-256.
    Sha256,
    /// SHA-384.
    Sha384,
    /// SHA-512.
    Sha512,
}

impl Hash {
    /// The octets in a digest.
    pub fn octets(self) -> usize
        ensures is { result ≡ octets_of self }
        ensures range { (32 ≤ result) × (result ≤ 64) }
    {
        match self {
            Hash::Sha256 => 32,
            Hash::Sha384 => 48,
            Hash::Sha512 => 64,
        }
    }
}

/// How an algorithm signs, and by which hash function or on which curve.
#[derive(Clone, Copy, Debug, PartialEq, Eq)]
pub enum Kind {
    /// HMAC (RFC 7518, section 3.2).
    Hmac(Hash),
    /// RSASSA-PKCS1-v1_5 (RFC 7518, section 3.3).
    Pkcs1(Hash),
    /// RSASSA-PSS (RFC 7518, section 3.5).
    Pss(Hash),
    /// ECDSA (RFC 7518, section 3.4).
    Ecdsa(EcCurve),
    /// EdDSA (RFC 8037, section 3.1).
    EdDsa,
}

impl Kind {
    /// The hash function: of ECDSA the one that goes with the curve (RFC 7518, section 3.4), of EdDSA that of Ed25519 (RFC 8032, section 5.1).
    pub fn hash(self) -> Hash
        ensures { result ≡ hash_by self }
    {
        match self {
            Kind::Hmac(hash) | Kind::Pkcs1(hash) | Kind::Pss(hash) => hash,
            Kind::Ecdsa(EcCurve::P256) => Hash::Sha256,
            Kind::Ecdsa(EcCurve::P384) => Hash::Sha384,
            Kind::Ecdsa(EcCurve::P521) | Kind::EdDsa => Hash::Sha512,
        }
    }
}

/// A signature algorithm of RFC 7518, section 3.1, or RFC 8037, section 3.1.
///
/// `none` and ES256K aren't among them, so no token that names them gets any further.
#[derive(Clone, Copy, Debug, PartialEq, Eq)]
pub enum Alg {
    /// HMAC with SHA-256.
    HS256,
    /// HMAC with SHA-384.
    HS384,
    /// HMAC with SHA-512.
    HS512,
    /// RSASSA-PKCS1-v1_5 with SHA-256.
    RS256,
    /// RSASSA-PKCS1-v1_5 with SHA-384.
    RS384,
    /// RSASSA-PKCS1-v1_5 with SHA-512.
    RS512,
    /// RSASSA-PSS with SHA-256.
    PS256,
    /// RSASSA-PSS with SHA-384.
    PS384,
    /// RSASSA-PSS with SHA-512.
    PS512,
    /// ECDSA on P-256 with SHA-256.
    ES256,
    /// ECDSA on P-384 with SHA-384.
    ES384,
    /// ECDSA on P-521 with SHA-512.
    ES512,
    /// EdDSA on Ed25519 or Ed448.
    EdDSA,
}

impl Alg {
    /// The algorithm of this name, or None. Names are compared by case (RFC 7515, section 4.1.1).
    #[tactic(auto, unfolding(crate::specs::Algorithm::alg_named))]
    pub fn from_text(name: &str) -> Option<Alg>
        ensures is { result ≡ alg_named name.now }
        ensures named { MatchOption result ((alg : Alg) → name.now ≢ name_of alg)
            (λ alg. name.now ≡ name_of alg) }
    {
        match name {
            "HS256" => Some(Alg::HS256),
            "HS384" => Some(Alg::HS384),
            "HS512" => Some(Alg::HS512),
            "RS256" => Some(Alg::RS256),
            "RS384" => Some(Alg::RS384),
            "RS512" => Some(Alg::RS512),
            "PS256" => Some(Alg::PS256),
            "PS384" => Some(Alg::PS384),
            "PS512" => Some(Alg::PS512),
            "ES256" => Some(Alg::ES256),
            "ES384" => Some(Alg::ES384),
            "ES512" => Some(Alg::ES512),
            "EdDSA" => Some(Alg::EdDSA),
            _ => None,
        }
    }

    /// Its row: its name, and how it signs.
    fn row(self) -> (&'static str, Kind)
        ensures name { result.0.now ≡ name_of self }
        ensures kind { result.1 ≡ kind_of self }
    {
        match self {
            Alg::HS256 => ("HS256", Kind::Hmac(Hash::Sha256)),
            Alg::HS384 => ("HS384", Kind::Hmac(Hash::Sha384)),
            Alg::HS512 => ("HS512", Kind::Hmac(Hash::Sha512)),
            Alg::RS256 => ("RS256", Kind::Pkcs1(Hash::Sha256)),
            Alg::RS384 => ("RS384", Kind::Pkcs1(Hash::Sha384)),
            Alg::RS512 => ("RS512", Kind::Pkcs1(Hash::Sha512)),
            Alg::PS256 => ("PS256", Kind::Pss(Hash::Sha256)),
            Alg::PS384 => ("PS384", Kind::Pss(Hash::Sha384)),
            Alg::PS512 => ("PS512", Kind::Pss(Hash::Sha512)),
            Alg::ES256 => ("ES256", Kind::Ecdsa(EcCurve::P256)),
            Alg::ES384 => ("ES384", Kind::Ecdsa(EcCurve::P384)),
            Alg::ES512 => ("ES512", Kind::Ecdsa(EcCurve::P521)),
            Alg::EdDSA => ("EdDSA", Kind::EdDsa),
        }
    }

    /// Its name, as the header parameter `alg` has it (RFC 7515, section 4.1.1).
    #[tactic(auto, unfolding(crate::specs::Algorithm::alg_named))]
    pub fn text(self) -> &'static str
        ensures is { result.now ≡ name_of self }
        ensures named { alg_named (name_of self) ≡ Some self }
    {
        self.row().0
    }

    /// How it signs.
    pub fn kind(self) -> Kind
        ensures { result ≡ kind_of self }
    {
        self.row().1
    }

    /// Whether it is HMAC with SHA-2 (RFC 7518, section 3.2): HS256, HS384 or HS512.
    pub fn is_hmac(self) -> bool
        ensures { result ≡ is_hmac_alg self }
    {
        matches!(self.kind(), Kind::Hmac(_))
    }

    /// The octets in a block of its hash function, B of RFC 2104, section 2; 0 where it isn't HMAC.
    pub fn block(self) -> u32
        ensures { result ≡ block_size self }
    {
        match self.kind() {
            Kind::Hmac(Hash::Sha256) => 64,
            Kind::Hmac(_) => 128,
            _ => 0,
        }
    }

    /// The octets in a digest of its hash function, L of RFC 2104, section 2; 0 where it isn't
    /// HMAC. RFC 7518, section 3.2, wants keys of at least as many.
    pub fn digest(self) -> u32
        ensures { result ≡ digest_size self }
    {
        match self.kind() {
            Kind::Hmac(hash) => hash.octets() as u32,
            _ => 0,
        }
    }
}

/// The octets that one HMAC feeds to its hash function, for a key and a message of so many octets:
/// the message, two blocks and the inner digest, and the key where it is longer than a block.
///
/// Some(0) for an algorithm that isn't HMAC. None exactly where the number doesn't fit a `u64`.
#[tactic(auto, unfolding(crate::specs::Algorithm::try_cost))]
pub fn cost(alg: Alg, key_len: u64, message_len: u64) -> Option<u64>
    ensures { SomeIff result (try_cost alg key_len message_len < 2 ^ 64)
        (try_cost alg key_len message_len) }
{
    if !alg.is_hmac() {
        return Some(0);
    }
    let block = u64::from(alg.block());
    let fed = message_len.checked_add(2 * block + u64::from(alg.digest()))?;
    if key_len <= block {
        return Some(fed);
    }
    fed.checked_add(key_len)
}
