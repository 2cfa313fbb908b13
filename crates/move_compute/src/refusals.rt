//! Refusals of these moves.
ghost use Rattle.std.specs.Prelude.{◌≡◌};

use base_core::{Place, Refusal, Stop};

/// A refusal of the whole sentence.
pub(crate) fn refusal(code: u16) -> Stop
    ensures { result ≡ Stop.Refused (record { code = code; place = Place.Whole }) }
{
    Stop::Refused(Refusal {
        code,
        place: Place::Whole,
    })
}
