//! The version of the program, and the kit that proves it, drawn by `make drawn`.

/// What `jwt --version` prints.
pub const VERSION: &str = "jwt 0.1.0, proved with rattle-kit-13f logic dac8208d650f15bf";
