//! Laws of the definitions: each function does nothing, and its contract holds of all octets.

ghost use Rattle.jwt_request.specs.urls.Laws.{Examples, LeadsWithin, Transforms};

/// The examples of RFC 3986, section 5.4.1: what is followed of them leads where the section says, and the others are refused.
pub fn examples_of_references()
    ensures { Examples }
{}

/// A redirection leads to a URL of the scheme, host and port of the one that was asked.
pub fn leads_within()
    ensures { LeadsWithin }
{}

/// What of the URL that was asked stays in the text that a location gives, component by component.
pub fn transforms()
    ensures { Transforms }
{}
