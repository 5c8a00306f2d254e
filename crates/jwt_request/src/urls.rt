//! Which URL keys are fetched from, where a redirection may lead, where the metadata of an issuer stand, and which answer is taken.
//!
//! Nothing here allocates, and nothing is fetched here.

mod answers;
mod kind;
pub mod laws;
mod metadata;
mod references;
mod url;
mod writing;

pub use answers::{Asked, Next, next_of};
pub use metadata::Metadata;
pub use references::redirected;
pub use url::{Url, url_of};
pub use writing::Unwritten;
