//! The version of the program, and the logic that it is proved in.
ghost use Rattle.std.specs.Prelude.{◌≡◌, ◌++◌, codes, IfOk, string_bytes};

use std::alloc::{AllocError, Global};

const VERSION: &str = "0.1.0";

// The toolchain's logic, which `rt version` prints after its release: releases with one logic prove the same.
const TOOLCHAIN: &str = "rattle logic dac8208d650f15bf";

// Returns what is printed after the program's name: its version, and the toolchain on a line of its own.
pub(crate) fn version_text(alloc: Global) -> Result<String, AllocError>
    ensures { IfOk result (λ text. string_bytes text ≡ VERSION.now ++ (codes "\n" ++ TOOLCHAIN.now)) }
{
    format!(in alloc; "{VERSION}\n{TOOLCHAIN}")
}
