ghost use Rattle.std.specs.Prelude.{◌≡◌, true, codes};
ghost use Rattle.std.specs.Str.{bytes_eq};
ghost use Rattle.calendar.specs.Identities.{is_airport};
ghost use Rattle.element.specs.Forms.{is_area_name};
ghost use Rattle.element.specs.ElementLaws.{airport_short, airport_letters, area_short, area_letters};
ghost use Rattle.std.proofs.Common.{arith};

use crate::pointed::{Kind, Named};
use calendar::is_airport;
use text::all_capitals_or_digits;

/// Airports, named by 3 or 4 capital letters or digits. One serves only itself.
pub struct AirportKind;

/// Flow constrained areas, named FCA and 1 to 3 capital letters or digits. One serves all airports.
pub struct AreaKind;

/// An airport of 3 or 4 capital letters or digits. It serves only itself.
pub type Airport = Named<AirportKind>;

/// A flow constrained area, named FCA and 1 to 3 capital letters or digits. It serves all airports.
pub type FlowArea = Named<AreaKind>;

impl Kind for AirportKind {
    ghost is_name = { is_airport };

    ghost word = { codes "ERTA" };

    ghost serves = { λ name airport. bytes_eq airport name };

    ghost short_name = { airport_short };

    ghost letters = { airport_letters };

    ghost short_word = { omega arith };

    fn is_name(text: &[u8]) -> bool {
        is_airport(text)
    }

    fn column_word() -> &'static [u8] {
        b"ERTA"
    }

    fn serves(name: &[u8], airport: &[u8]) -> bool {
        airport == name
    }
}

impl Kind for AreaKind {
    ghost is_name = { is_area_name };

    ghost word = { codes "EENTRY" };

    ghost serves = { λ name airport. true };

    ghost short_name = { area_short };

    ghost letters = { area_letters };

    ghost short_word = { omega arith };

    fn is_name(text: &[u8]) -> bool {
        (4..=6).contains(&text.len())
            && text.starts_with(b"FCA")
            && all_capitals_or_digits(&text[3..])
    }

    fn column_word() -> &'static [u8] {
        b"EENTRY"
    }

    fn serves(_name: &[u8], _airport: &[u8]) -> bool {
        true
    }
}
