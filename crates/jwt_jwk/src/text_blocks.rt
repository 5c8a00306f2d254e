//! Texts between labels, as of PEM files (RFC 7468).

mod block;
mod fault;
mod label;
mod text;

pub use block::read_block;
pub use fault::PemFault;
pub use label::Label;
pub use text::{Block, first_block, only_block, trim};
