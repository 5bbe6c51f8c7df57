//! Where a word of a text is.

ghost use Rattle.std.specs.Prelude.{◌≡◌};
ghost use Rattle.leg_lex.specs.WordPlaces.{bytes_at, IsPlaceIn};

/// Where a word of a text is: its bytes begin at `start` and end before `end`. A text has 2^28 bytes at most, so three
/// short numbers do for a word.
#[derive(Clone, Copy)]
pub(crate) struct WordPlace {
    pub(crate) start: u32,
    pub(crate) end: u32,
    /// The line that the word's first byte is on, from 1.
    pub(crate) line: u32,
}

/// The bytes of the word at this place of the text.
pub(crate) fn bytes_at<'a>(text: &'a [u8], place: &WordPlace) -> &'a [u8]
    requires { IsPlaceIn text.now place.now }
    ensures { result.now ≡ bytes_at text.now place.now }
{
    &text[place.start as usize..place.end as usize]
}
