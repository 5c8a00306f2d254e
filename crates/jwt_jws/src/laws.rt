//! Laws over the definitions that the contracts cite. The functions do nothing: each is its contract.
ghost use Rattle.jwt_jws.specs.CompactForm.{ReadsCompact, IsReadCompact, PartsCompact};
ghost use Rattle.jwt_jws.specs.FormFaults.{TellsFormFaults};
ghost use Rattle.jwt_jws.specs.SignedToken.{ReadsSignedTokens, MessagesFit, SignaturesAreFew};

use jwt_text::laws::{object_texts, octets_are_spelled, texts_fit};

/// What has compact form is read as its three texts, and what is read so has compact form (RFC 7515, section 7.1); so of the three
/// texts that [`compact_texts`](crate::compact_texts) gives.
pub fn compact_form()
    ensures reads { ReadsCompact }
    ensures is_read { IsReadCompact }
    ensures parts { PartsCompact }
{}

/// What is read is a signed token, and each signed token is read (RFC 7515, sections 5.2 and 7).
pub fn signed_tokens()
    ensures { ReadsSignedTokens }
{
    octets_are_spelled();
    object_texts();
}

/// The fault of octets that are no signed token is the first cause that holds, each a property of the octets, and a cause that
/// holds first is their fault.
pub fn form_faults()
    ensures { TellsFormFaults }
{
    octets_are_spelled();
    object_texts();
}

/// A signing input is no longer than the token that it is of (RFC 7515, section 5.1), and there are at most as many signatures as
/// may be read.
pub fn messages_fit()
    ensures length { MessagesFit }
    ensures count { SignaturesAreFew }
{
    texts_fit();
}
