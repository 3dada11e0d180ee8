// The limits (refusal 2) and the sizes (refusal 3) of a header.
#![tactic(auto)]

ghost use Rattle.std.specs.Prelude.{◌≡◌};
ghost use Rattle.crn_format.specs.Header.{entries_fit, within_limits, sizes_in};

use crn_format::{Header, Part};
use crn_formats::{
    MAX_ENTRIES, MAX_LEVELS, MAX_SIDE, TOO_LONG, between, has_alpha, has_color, implies, is_known,
};

// "Palette counts at most 8,192; each palette that the format uses has at least one entry."
fn entries_fit(uses: bool, palette: Part) -> bool
    ensures { result ≡ entries_fit uses palette }
{
    implies(uses, 0 < palette.count) & (palette.count <= MAX_ENTRIES)
}

// "Width and height 1 to 4,096; levels 1 to 13; faces 1 or 6", a known format, and the palettes.
pub fn within_limits(h: Header) -> bool
    ensures { result ≡ within_limits h }
{
    let color = has_color(h.format);
    let alpha = has_alpha(h.format);
    between(1, MAX_SIDE, h.width)
        & between(1, MAX_SIDE, h.height)
        & between(1, u32::from(MAX_LEVELS), h.levels)
        & ((h.faces == 1) | (h.faces == 6))
        & is_known(h.format)
        & entries_fit(color, h.color_endpoints)
        & entries_fit(color, h.color_selectors)
        & entries_fit(alpha, h.alpha_endpoints)
        & entries_fit(alpha, h.alpha_selectors)
}

// "Header size is at least 70 + 4 x levels; neither it nor data size exceeds the file's length", nor that 4,294,967,295.
pub fn sizes_hold(length: usize, h: Header) -> bool
    ensures { result ≡ sizes_in length h }
{
    (70 + 4 * h.levels as usize <= h.header_size as usize)
        & (h.header_size as usize <= length)
        & (h.data_size as usize <= length)
        & (length < TOO_LONG)
}
