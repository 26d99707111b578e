//! What a call is given beside its bytes: a system, black and white, and how many bytes they are.

ghost use Rattle.std.specs.Prelude.{◌≡◌, ◌*◌, ◌/◌, ◌<◌, ◌≤◌, IfOk};
ghost use Rattle.vbi_words.specs.Geometry.{line_bytes};
ghost use Rattle.vbi_c.specs.Setups.{setup_of, line_setup, rows_setup, fields_setup, lines_setup};

use crate::numbers::system_of;
use crate::status::{Refusal, Settled, refuse_unless};
pub(crate) use vbi_seek::Setup;
use vbi_words::Levels;

/// This many lines at most have their nearest word searched: the sums of more could pass 32 bits.
pub(crate) const MOST_LINES: usize = 28;

/// The system of a number with black and white, or why they are refused.
pub(crate) fn setup_of(number: u32, black: u32, white: u32) -> Settled<Setup>
    ensures setup { result ≡ setup_of number black white }
    ensures order { IfOk result (λ setup. setup.levels.black < setup.levels.white) }
{
    let system = system_of(number).ok_or(Refusal::System)?;
    // Samples have 16 bits.
    refuse_unless(black <= 65535 && white <= 65535, Refusal::Levels)?;
    let levels = Levels::new(black as u16, white as u16).map_err(|_| Refusal::Levels)?;
    Ok(Setup { system, levels })
}

/// The setup of a call with this many bytes, which have to be those of a line, or why the call is refused.
pub(crate) fn line_setup(number: u32, black: u32, white: u32, length: usize) -> Settled<Setup>
    ensures setup { result ≡ line_setup number black white length }
    ensures order { IfOk result (λ setup. setup.levels.black < setup.levels.white) }
{
    let setup = setup_of(number, black, white)?;
    refuse_unless(length == setup.system.line_bytes(), Refusal::Length)?;
    Ok(setup)
}

/// The setup of a call with this many bytes, which have to be those of three lines, or why the call is refused.
pub(crate) fn rows_setup(number: u32, black: u32, white: u32, length: usize) -> Settled<Setup>
    ensures { result ≡ rows_setup number black white length }
{
    let setup = setup_of(number, black, white)?;
    refuse_unless(length == 3 * setup.system.line_bytes(), Refusal::Length)?;
    Ok(setup)
}

/// The setup of a call with this many bytes, which have to be those of `count` fields, or why the call is refused.
pub(crate) fn fields_setup(
    number: u32,
    black: u32,
    white: u32,
    length: usize,
    count: usize,
) -> Settled<Setup>
    ensures { result ≡ fields_setup number black white length count }
{
    let setup = setup_of(number, black, white)?;
    // C may have chosen both numbers too large for their product, so the length is divided.
    let field = setup.system.field_bytes();
    refuse_unless(
        length / field == count && length % field == 0,
        Refusal::Length,
    )?;
    Ok(setup)
}

/// The setup of a call with this many bytes, which have to be those of 1 to 28 lines, or why the call is refused.
pub(crate) fn lines_setup(number: u32, black: u32, white: u32, length: usize) -> Settled<Setup>
    ensures setup { result ≡ lines_setup number black white length }
    ensures lines { IfOk result (λ setup. (length ≡ length / line_bytes setup.system * line_bytes setup.system)
        × (length / line_bytes setup.system ≤ 28)) }
{
    let setup = setup_of(number, black, white)?;
    let line = setup.system.line_bytes();
    let few = length != 0 && length <= MOST_LINES * line;
    refuse_unless(length % line == 0 && few, Refusal::Length)?;
    Ok(setup)
}
