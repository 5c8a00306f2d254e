//! Points in Jacobian coordinates.

/// x = X/Z^2, y = Y/Z^3.
#[derive(Clone, Copy)]
pub struct Point<const N: usize> {
    pub x: [u64; N],
    pub y: [u64; N],
    pub z: [u64; N],
}
