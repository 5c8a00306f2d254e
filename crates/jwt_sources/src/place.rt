ghost use Rattle.std.specs.Prelude.{◌≡◌, ◌↔◌, IsTrue, IfOk, option_map};
ghost use Rattle.jwt_request.specs.urls.Metadata.{metadata_url};
ghost use Rattle.jwt_sources.specs.Places.{IsIssuer, first_of, named, url_at};

use jwt_request::urls::{Asked, Metadata, Unwritten, url_of};
use std::alloc::{AllocError, Global};

/// Where the keys of one issuer stand.
#[derive(Debug, Drop)]
pub enum Place {
    /// In the file of this name.
    File(Vec<u8>),
    /// At this URL.
    Url(Vec<u8>),
    /// Where the metadata of this issuer say.
    Issuer(Issuer),
}

/// An issuer whose metadata say where its keys are.
#[derive(Debug, Drop)]
pub struct Issuer {
    /// The issuer, as its metadata have to name it.
    pub name: Vec<u8>,
    /// The URL of its metadata by OpenID Connect Discovery 1.0, section 4.
    pub openid: Vec<u8>,
    /// The URL of its metadata by RFC 8414, section 3.
    pub oauth: Vec<u8>,
}

/// The octets that the URL of metadata has more than its issuer, at most.
const LONGEST_WAY: usize = 48;

impl Issuer {
    /// The issuer of this name; `None`: it is no URL of `https`, or has a query (RFC 8414, section 2).
    pub fn new(alloc: Global, name: &[u8]) -> Result<Option<Issuer>, AllocError>
        ensures { IfOk result (IsIssuer name.now) }
    {
        if url_of(name, false).is_none() {
            return Ok(None);
        }
        let Some(openid) = metadata_at(alloc, Metadata::OpenId, name)? else {
            return Ok(None);
        };
        let Some(oauth) = metadata_at(alloc, Metadata::OAuth, name)? else {
            return Ok(None);
        };
        let name = Vec::from_slice(alloc, name)?;
        Ok(Some(Issuer {
            name,
            openid,
            oauth,
        }))
    }
}

/// The URL of these metadata of an issuer; `None`: there is none.
fn metadata_at(alloc: Global, which: Metadata, issuer: &[u8]) -> Result<Option<Vec<u8>>, AllocError>
    ensures { IfOk result (λ it. metadata_url which issuer.now ≡ option_map (λ url. url.items) it) }
{
    let mut out = vec![in alloc; 0u8; issuer.len() + LONGEST_WAY]?;
    match which.write_url(issuer, out.as_mut_slice()) {
        Ok(size) => {
            out.truncate(size);
            Ok(Some(out))
        }
        Err(Unwritten::Refused) => Ok(None),
        // (the room is enough for each)
        Err(Unwritten::TooShort) => Err(AllocError),
    }
}

impl Place {
    /// What is asked for first.
    pub fn first(&self) -> Asked
        ensures { result ≡ first_of self.now }
    {
        match self {
            Place::File(_) | Place::Url(_) => Asked::Keys,
            Place::Issuer(_) => Asked::OpenId,
        }
    }

    /// Where it stands, before anything led elsewhere.
    pub fn url(&self, asked: Asked) -> &[u8]
        ensures { result.now ≡ url_at self.now asked }
    {
        match self {
            Place::File(name) => name.as_slice(),
            Place::Url(url) => url.as_slice(),
            Place::Issuer(issuer) => match asked {
                Asked::OAuth => issuer.oauth.as_slice(),
                _ => issuer.openid.as_slice(),
            },
        }
    }

    /// Whether the other is the same place, octet by octet.
    pub fn is(&self, other: &Place) -> bool
        ensures { IsTrue result ↔ (named self.now ≡ named other.now) }
    {
        match (self, other) {
            (Place::File(one), Place::File(two)) | (Place::Url(one), Place::Url(two)) => {
                one.as_slice() == two.as_slice()
            }
            (Place::Issuer(one), Place::Issuer(two)) => {
                one.name.as_slice() == two.name.as_slice()
                    && one.openid.as_slice() == two.openid.as_slice()
                    && one.oauth.as_slice() == two.oauth.as_slice()
            }
            _ => false,
        }
    }
}
