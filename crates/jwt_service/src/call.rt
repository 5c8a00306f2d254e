//! A request as it came.

use jwt_access::expected::Expected;

/// A request as it came, and the moment at which it is asked about.
#[derive(Clone, Copy)]
pub struct Call<'a> {
    /// The values of all its headers `Authorization`, in order.
    pub authorizations: &'a [&'a [u8]],
    /// The values of all its headers `DPoP`, in order.
    pub proofs: &'a [&'a [u8]],
    /// Its method, as it came.
    pub method: &'a str,
    /// The path that it was sent to, as it came, without its query.
    pub path: &'a str,
    /// The certificate by which the client proved to hold its key to whoever ended TLS, in DER.
    pub certificate: Option<&'a [u8]>,
    /// The name of the service's access rule that the token's claims have to meet.
    pub rule: Option<&'a str>,
    /// What is expected of the token's claims by this call.
    pub expected: &'a [Expected<'a>],
    /// Seconds since 1970-01-01T00:00:00Z.
    pub moment: i64,
}
