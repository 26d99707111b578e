//! Which fields are of a side's lead-in or lead-out: by their own lines 17 and 18, as picture stops are judged.

ghost use Rattle.std.specs.Prelude.{◌≡◌, ◌≤◌};
ghost use Rattle.vbi_side.specs.Ends.{out_weight, in_weight, end_by, end_of};

use crate::lines::Shown;
use vbi_words::Code;

/// The field shows neither lead-out nor lead-in.
pub const NO_END: u32 = 0;
/// The field is of lead-out: a line shows that in pass 1, or both lines do.
pub const LEAD_OUT: u32 = 1;
/// The field shows lead-out or lead-in, and too little supports it.
pub const DOUBTFUL_END: u32 = 2;
/// The field is of lead-in: a line shows that in pass 1, or both lines do, and it isn't of lead-out.
pub const LEAD_IN: u32 = 3;
/// The field is padding, and stands for one that the capture lacks: `judge_end` never answers this, a caller who knows
/// it says it in the place of the answer.
pub const PADDING: u32 = 4;

/// How much a line says that its field is of lead-out.
fn out_weight(line: &Shown) -> u32
    ensures value { result ≡ out_weight line.now }
    ensures range { result ≤ 2 }
{
    match line.code() {
        Some(Code::LeadOut) => line.weight(),
        _ => 0,
    }
}

/// How much a line says that its field is of lead-in.
fn in_weight(line: &Shown) -> u32
    ensures value { result ≡ in_weight line.now }
    ensures range { result ≤ 2 }
{
    match line.code() {
        Some(Code::LeadIn) => line.weight(),
        _ => 0,
    }
}

/// The answer that the weights of both lines leave.
fn end_by(outs: u32, ins: u32) -> u32
    requires outs { outs ≤ 4 }
    requires ins { ins ≤ 4 }
    ensures { result ≡ end_by outs ins }
{
    if outs >= 2 {
        LEAD_OUT
    } else if ins >= 2 {
        LEAD_IN
    } else if outs + ins > 0 {
        DOUBTFUL_END
    } else {
        NO_END
    }
}

/// Whether a field is of lead-in or lead-out, by its lines 17 and 18: `NO_END`, `LEAD_OUT`, `DOUBTFUL_END` or
/// `LEAD_IN`.
pub fn judge_end(line_17: &Shown, line_18: &Shown) -> u32
    ensures { result ≡ end_of line_17.now line_18.now }
{
    let outs = out_weight(line_17) + out_weight(line_18);
    let ins = in_weight(line_17) + in_weight(line_18);
    end_by(outs, ins)
}
