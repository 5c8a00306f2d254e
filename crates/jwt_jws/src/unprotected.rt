//! The member `header` of a signature, lent.

use jwt_text::ObjectRef;

/// The member `header` of a signature, as it stands.
#[derive(Drop)]
pub(crate) enum Unprotected<'a> {
    Absent,
    OtherKind,
    Members(ObjectRef<'a>),
}
