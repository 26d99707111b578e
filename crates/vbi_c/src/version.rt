//! The number of this library's interface, and its version.

ghost use Rattle.std.specs.Prelude.{◌≡◌};

/// The number of this interface. What it has stays: an addition keeps the number, a change or a removal raises it.
pub const ABI: u32 = 3;

/// The version of the library: a million for each major, a thousand for each minor, one for each patch.
pub const VERSION: u32 = 2_000;

/// The number of the interface that the library has.
#[unsafe(no_mangle)]
pub extern "C" fn ldvbi_abi() -> u32
    ensures { result ≡ 3 }
{
    ABI
}

/// The version that the library has, as a number.
#[unsafe(no_mangle)]
pub extern "C" fn ldvbi_version() -> u32
    ensures { result ≡ 2000 }
{
    VERSION
}
