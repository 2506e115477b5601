//! Places in a text.
ghost use Rattle.std.specs.Prelude.{◌≡◌, ◌<◌, ◌^◌, ◌-◌};
ghost use Rattle.program_boots.specs.explaining.TextPlaces as places;

use program_say::TextPlace;

/// The place behind a byte.
fn after_byte(place: TextPlace, byte: u8) -> TextPlace
    requires line { place.line < 2 ^ 64 - 1 }
    requires column { place.column < 2 ^ 64 - 1 }
    ensures { result ≡ places.after_byte place byte }
{
    if byte == b'\n' {
        return TextPlace {
            line: place.line + 1,
            column: 1,
        };
    }
    if 0x80 <= byte && byte < 0xC0 {
        return place;
    }
    TextPlace {
        line: place.line,
        column: place.column + 1,
    }
}

/// The place behind a text, whose first byte has the first place.
pub fn text_place(before: &[u8]) -> TextPlace
    ensures { result ≡ places.text_place before.now }
{
    let mut place = TextPlace { line: 1, column: 1 };
    for byte in before {
        place = after_byte(place, *byte);
    }
    place
}
