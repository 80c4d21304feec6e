ghost use Rattle.std.specs.Prelude.{◌≡◌};
ghost use Rattle.linktable.specs.Room.{room_of};

use text::numbers::{NumberFault, number};

/// The most links that a table holds.
pub const MOST: usize = 65_535;

/// How many links to make room for, by a word of the command line.
pub fn room_for(word: &[u8]) -> Result<usize, NumberFault>
    ensures { result ≡ room_of word.now }
{
    Ok((number(word)? as usize).min(MOST))
}
