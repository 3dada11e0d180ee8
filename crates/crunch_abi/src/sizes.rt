// What a host needs to size its buffers, of any handed header.
ghost use Rattle.std.specs.Prelude.{◌≡◌};
ghost use Rattle.crn_sizes.specs.Sizes.{level_sizes};
ghost use Rattle.crunch_abi.specs.Sizes.{words_where, palette_words};

use crn_format::Header;
use crn_sizes::{LevelSizes, level_sizes};

// How many words the buffer of each palette has to hold.
#[repr(C)]
#[derive(Clone, Copy)]
pub struct PaletteWords {
    pub color_endpoints: usize,
    pub color_selectors: usize,
    pub alpha_endpoints: usize,
    pub alpha_selectors: usize,
}

// The words of the four palettes: an alpha selector is three, and a plane without endpoints has none.
pub fn crunch_palette_words(header: Header) -> PaletteWords
    ensures { result ≡ palette_words header }
{
    let color_ends = header.color_endpoints;
    let color_sels = header.color_selectors;
    let alpha_ends = header.alpha_endpoints;
    let alpha_sels = header.alpha_selectors;
    PaletteWords {
        color_endpoints: color_ends.count as usize,
        color_selectors: where_present(color_ends.count, color_sels.count as usize),
        alpha_endpoints: alpha_ends.count as usize,
        alpha_selectors: where_present(alpha_ends.count, 3 * alpha_sels.count as usize),
    }
}

// A number of words, none where the plane has no endpoints.
fn where_present(endpoints: u32, words: usize) -> usize
    ensures { result ≡ words_where endpoints words }
{
    if 0 < endpoints {
        return words;
    }
    0
}

// The sizes of a level whose rows and faces stand close together.
pub fn crunch_level_sizes(header: Header, level: u32) -> LevelSizes
    ensures { result ≡ level_sizes header level }
{
    level_sizes(header, level)
}
