//! Finding a number among those that are answered.

ghost use Rattle.vbi_side.specs.Numbers.{IsFirst};

use crate::number::Number;

/// The first field, counted from 0, of which this number is answered as believed or due.
pub fn first_of(numbers: &[Number], number: u32) -> Option<usize>
    ensures { IsFirst numbers.now number result }
{
    for field in 0..numbers.len() {
        if numbers[field].is_known(number) {
            return Some(field);
        }
    }
    None
}
