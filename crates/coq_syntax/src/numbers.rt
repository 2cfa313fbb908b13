//! The values of numbers as they are written.

ghost use Rattle.std.specs.Prelude.{◌≡◌, min};
ghost use Rattle.coq_syntax.specs.Faults.{digits_value, value_of};

use crate::Word;

/// A value that is refused wherever a number stands; greater ones are read as this one.
const BEYOND: u32 = 1001;

/// The number that digits write, or `1001` where it is greater.
pub fn number_value(digits: &str) -> u32
    ensures { result ≡ min (digits_value 0 digits.now) 1001 }
{
    let mut value = 0;
    for digit in digits.as_bytes() {
        value = (value * 10 + u32::from(digit.saturating_sub(b'0'))).min(BEYOND);
    }
    value
}

impl Word {
    /// The number that it writes, or `1001` where it is greater: more than any number that is not refused.
    pub fn value(&self) -> u32
        ensures { result ≡ min (value_of self.now) 1001 }
    {
        number_value(self.text.as_str())
    }
}
