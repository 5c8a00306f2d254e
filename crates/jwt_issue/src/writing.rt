//! The pieces of a token in JSON form.
ghost use Rattle.std.specs.Prelude.{◌≡◌, ◌++◌, OnOk};
ghost use Rattle.jwt_issue.specs.Issued.{text_members};

use std::alloc::AllocError;

/// Adds these octets and then the text.
pub(crate) fn add_text(token: &mut Vec<u8>, before: &[u8], text: &[u8]) -> Result<(), AllocError>
    ensures { OnOk result (token.new.items ≡ token.old.items ++ before.now ++ text.now) }
{
    token.extend_from_slice(before)?;
    token.extend_from_slice(text)
}

/// Adds the members of one signature and the closing brace (RFC 7515, section 7.2.1).
pub(crate) fn add_signature(
    token: &mut Vec<u8>,
    protected: &[u8],
    signature: &[u8],
) -> Result<(), AllocError>
    ensures { OnOk result
        (token.new.items ≡ token.old.items ++ text_members protected.now signature.now) }
{
    add_text(token, b"\"protected\":\"", protected)?;
    add_text(token, b"\",\"signature\":\"", signature)?;
    token.extend_from_slice(b"\"}")
}
