// What an opening fills: the four palettes and the lengths of the five tables, which its caller lends.
ghost use Rattle.std.specs.Prelude.{◌≡◌};
ghost use Rattle.crn_format.specs.Opening.{room_for, zeroed};
ghost use Rattle.crn_opening.specs.Lending.{held, SamePalettes, lengths_in, SameLengths, NoLengths};

use crn_format::Header;
use crn_segments::room_for;

// The four palettes.
#[derive(Drop)]
pub struct PalettesMut<'a> {
    pub color_endpoints: &'a mut [u32],
    pub color_selectors: &'a mut [u32],
    pub alpha_endpoints: &'a mut [u16],
    pub alpha_selectors: &'a mut [u16],
}

impl PalettesMut<'_> {
    // Whether the palettes of the planes that are present fit.
    pub fn has_room(&self, h: Header) -> bool
        ensures { result ≡ room_for h (held self.now) }
    {
        room_for(
            h,
            self.color_endpoints,
            self.color_selectors,
            self.alpha_endpoints,
            self.alpha_selectors,
        )
    }

    // "Later, all four lent buffers zero."
    pub fn clear(&mut self)
        ensures same { SamePalettes self.old self.new }
        ensures zero { held self.new ≡ zeroed (held self.old) }
    {
        self.color_endpoints.fill(0);
        self.color_selectors.fill(0);
        self.alpha_endpoints.fill(0);
        self.alpha_selectors.fill(0);
    }
}

// The lengths of the five tables: a record is too large to be handed back.
#[derive(Drop)]
pub struct LengthsMut<'a> {
    pub chunk: &'a mut [u8; 8192],
    pub color_ends: &'a mut [u8; 8192],
    pub color_sels: &'a mut [u8; 8192],
    pub alpha_ends: &'a mut [u8; 8192],
    pub alpha_sels: &'a mut [u8; 8192],
}

impl LengthsMut<'_> {
    // No lengths in any of the five tables.
    pub fn clear(&mut self)
        ensures same { SameLengths self.old self.new }
        ensures zero { NoLengths (lengths_in self.new) }
    {
        *self.chunk = [0; 8192];
        *self.color_ends = [0; 8192];
        *self.color_sels = [0; 8192];
        *self.alpha_ends = [0; 8192];
        *self.alpha_sels = [0; 8192];
    }
}
