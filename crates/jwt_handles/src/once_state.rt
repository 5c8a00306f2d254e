//! The state behind the handle of a memory of tokens that count once.

use jwt_possession::once::Once;

/// The tokens that were taken.
#[derive(Drop)]
pub struct OnceState {
    pub(crate) once: Once,
}
