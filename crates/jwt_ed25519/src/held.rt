//! The prepared keys.

ghost use Rattle.std.specs.Prelude.{◌≡◌, Some};
ghost use Rattle.jwt_ed25519.specs.Decoding.{decoded};
ghost use Rattle.jwt_ed25519.specs.Elements.{coordinates};
ghost use Rattle.jwt_ed25519.specs.Points.{base_x, base_y, point, negated};
ghost use Rattle.jwt_ed25519.specs.Windows.{AreWindows};

use crate::point::EdwardsPoint;
use crate::windows::Windows;
use std::alloc::Global;

/// The base point's windows.
#[derive(Drop)]
pub(crate) struct PreparedBase {
    pub(crate) windows: Windows,
    ghost are: { AreWindows 1024 (point base_x base_y) windows.table.items },
}

/// A key: its octets, the point A that they encode, and the windows of -A.
#[derive(Drop)]
pub struct PreparedKey {
    pub(crate) octets: Vec<u8>,
    pub(crate) a: EdwardsPoint,
    pub(crate) windows: Windows,
    ghost encoded: { decoded octets.items ≡ Some (coordinates a) },
    ghost are: { AreWindows 1024 (negated (coordinates a)) windows.table.items },
}

/// Prepared keys. Beside the first stand the windows of the base point, once for all.
///
/// A key takes some 140 KiB, and the base point as much.
#[derive(Drop)]
pub struct PreparedKeys {
    pub(crate) base: Option<PreparedBase>,
    pub(crate) keys: Vec<PreparedKey>,
}

impl PreparedKeys {
    ghost use Rattle.std.specs.Prelude.{◌≡◌};
    ghost use Rattle.jwt_ed25519.specs.Held.{held_number};

    /// None yet. It takes no memory.
    pub fn new(alloc: Global) -> PreparedKeys
        ensures { held_number result ≡ 0 }
    {
        PreparedKeys {
            base: None,
            keys: Vec::new(alloc),
        }
    }
}
