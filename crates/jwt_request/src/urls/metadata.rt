ghost use Rattle.std.specs.Prelude.{◌≡◌, ◌≤◌, drop, length};
ghost use Rattle.std.specs.List.{list_all};
ghost use Rattle.std.specs.Io.BufRead.{strip_last};
ghost use Rattle.jwt_request.specs.urls.Urls.{is_of};
ghost use Rattle.jwt_request.specs.declared.urls.kind.Kind.TheVariants.{Path};
ghost use Rattle.jwt_request.specs.urls.Metadata.{metadata_of, metadata_url};
ghost use Rattle.jwt_request.specs.urls.Written.{IsPut, IsWritten};

use crate::urls::kind::Kind;
use crate::urls::url::url_of;
use crate::urls::writing::{Unwritten, put};

/// The metadata of an issuer.
#[derive(Clone, Copy, Debug, PartialEq, Eq)]
pub enum Metadata {
    /// Of OpenID Connect Discovery 1.0, section 4.
    OpenId,
    /// Of RFC 8414, section 3.
    OAuth,
}

impl Metadata {
    /// Writes the URL of these metadata of an issuer at the front of `out`, and gives the number of its octets.
    ///
    /// `TooShort`: it has more octets than `out`. `Refused`: the issuer is no URL, or has a query (RFC 8414, section 2). Nothing is written then.
    #[tactic(auto, unfolding(crate::specs::urls::Metadata::metadata_url))]
    pub fn write_url(self, issuer: &[u8], out: &mut [u8]) -> Result<usize, Unwritten>
        ensures { IsWritten (metadata_url self issuer.now) result out.old out.new }
    {
        let Some(at) = url_of(issuer, true) else {
            return Err(Unwritten::Refused);
        };
        if !has_no_query(at.target, issuer) {
            return Err(Unwritten::Refused);
        }
        match self.put_url(at.target, issuer, out) {
            Some(size) => Ok(size),
            None => Err(Unwritten::TooShort),
        }
    }

    /// The same of an issuer whose path begins there.
    fn put_url(self, target: usize, issuer: &[u8], out: &mut [u8]) -> Option<usize>
        requires { target ≤ length issuer.now }
        ensures length { length out.new ≡ length out.old }
        ensures put { IsPut (metadata_of self target issuer.now) result out.old out.new }
    {
        let origin = &issuer[..target];
        let path = trimmed(&issuer[target..]);
        match self {
            Metadata::OpenId => put(origin, path, b"/.well-known/openid-configuration", out),
            Metadata::OAuth => put(
                origin,
                b"/.well-known/oauth-authorization-server",
                path,
                out,
            ),
        }
    }
}

/// Whether it has no query behind that place.
fn has_no_query(target: usize, issuer: &[u8]) -> bool
    requires { target ≤ length issuer.now }
    ensures { result ≡ list_all (is_of Path) (drop target issuer.now) }
{
    Kind::Path.fills(&issuer[target..])
}

/// A path without its final slash.
fn trimmed(path: &[u8]) -> &[u8]
    ensures { result.now ≡ strip_last 47 path.now }
{
    match path {
        [front @ .., b'/'] => front,
        _ => path,
    }
}
