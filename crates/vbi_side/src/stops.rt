//! Which picture stops are believed.
//!
//! A player freezes at a stop, so one line that was misread in pass 2 is not to make one. A disc has its stop on lines
//! 16 and 17 of a field: it is believed if one of them shows it in pass 1, or both do, in whatever pass. Other
//! fields have no say, since a stop may stand alone anywhere on a side.

ghost use Rattle.std.specs.Prelude.{◌≡◌, ◌≤◌};
ghost use Rattle.vbi_side.specs.Stops.{stop_weight, IsJudgedStop};

use crate::lines::Shown;
use crate::number::{BELIEVED, DOUBTFUL, NOTHING};
use vbi_words::Code;

/// How much a line says that its picture is one to stop at.
fn stop_weight(line: &Shown) -> u32
    ensures value { result ≡ stop_weight line.now }
    ensures range { result ≤ 2 }
{
    match line.code() {
        Some(Code::PictureStop) => line.weight(),
        _ => 0,
    }
}

/// Whether a field has a picture stop, by its lines 16 and 17: `BELIEVED`, `DOUBTFUL` or `NOTHING`.
pub fn judge_stop(line_16: &Shown, line_17: &Shown) -> u32
    ensures { IsJudgedStop line_16.now line_17.now result }
{
    match stop_weight(line_16) + stop_weight(line_17) {
        0 => NOTHING,
        1 => DOUBTFUL,
        _ => BELIEVED,
    }
}
