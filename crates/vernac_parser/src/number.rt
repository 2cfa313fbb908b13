//! Which numbers are refused.

ghost use Rattle.std.specs.Prelude.{◌≡◌};
ghost use Rattle.coq_syntax.specs.Faults.{digits_value};
ghost use Rattle.vernac_parser.specs.Numbers as spec;

use base_core::refusal_codes::{NO_LEVEL, NUMERAL_TOO_GREAT};
use base_core::{LEVEL_LIMIT, NUMERAL_LIMIT};
use coq_syntax::number_value;

/// What a number is written for.
#[derive(Clone, Copy)]
pub enum NumberUse {
    /// A natural number of the prelude.
    Numeral,
    /// The level of a `Type`.
    Level,
}

impl NumberUse {
    /// Whether the number that these digits write is refused.
    pub fn is_out(self, digits: &str) -> bool
        ensures { result ≡ spec.is_out self (digits_value 0 digits.now) }
    {
        let value = number_value(digits);
        match self {
            NumberUse::Numeral => value > NUMERAL_LIMIT,
            NumberUse::Level => value == 0 || value > u32::from(LEVEL_LIMIT),
        }
    }

    /// The refusal of such a number.
    pub fn refusal(self) -> u16
        ensures { result ≡ spec.refusal self }
    {
        match self {
            NumberUse::Numeral => NUMERAL_TOO_GREAT,
            NumberUse::Level => NO_LEVEL,
        }
    }
}
