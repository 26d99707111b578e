//! The sizes of lines and fields.

ghost use Rattle.std.specs.Prelude.{◌≡◌};
ghost use Rattle.vbi_words.specs.Geometry.{width_of, height_of, line_bytes, field_bytes};
ghost use Rattle.vbi_c.specs.Numbers.{system_of, of_system};

use crate::numbers::system_of;

/// The samples of a line, or 0 if there is no system of that number.
#[unsafe(no_mangle)]
pub extern "C" fn ldvbi_line_samples(system: u32) -> usize
    ensures { result ≡ of_system width_of (system_of system) }
{
    system_of(system).map_or(0, |system| system.width())
}

/// The bytes of a line, or 0 if there is no system of that number.
#[unsafe(no_mangle)]
pub extern "C" fn ldvbi_line_bytes(system: u32) -> usize
    ensures { result ≡ of_system line_bytes (system_of system) }
{
    system_of(system).map_or(0, |system| system.line_bytes())
}

/// The lines of a field, or 0 if there is no system of that number.
#[unsafe(no_mangle)]
pub extern "C" fn ldvbi_lines(system: u32) -> usize
    ensures { result ≡ of_system height_of (system_of system) }
{
    system_of(system).map_or(0, |system| system.height())
}

/// The bytes of a field, or 0 if there is no system of that number.
#[unsafe(no_mangle)]
pub extern "C" fn ldvbi_field_bytes(system: u32) -> usize
    ensures { result ≡ of_system field_bytes (system_of system) }
{
    system_of(system).map_or(0, |system| system.field_bytes())
}
