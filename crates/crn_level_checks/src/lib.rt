// What is checked of a level before its first draw, of a handed header: its segment (refusal 4) and the palettes that its format uses
// (refusal 5). A handed header may hold anything.
#![tactic(auto)]

ghost use Rattle.std.specs.Prelude.{◌≡◌};
ghost use Rattle.crn_format.specs.Unpacking.{level_start, level_end, level_stands, palettes_reach};
ghost use Rattle.crn_formats.specs.Lent.{lent};

use crn_format::Header;
use crn_formats::{Palettes, TOO_LONG, has_alpha, has_color, implies};

// Where a level's segment begins: at its offset, 0 beyond the last that a header can hold.
pub fn level_start(h: Header, level: u32) -> usize
    ensures { result ≡ level_start h level }
{
    h.level_offsets.get(level as usize).copied().unwrap_or(0) as usize
}

// Where it ends: where the next level begins, the last level's at the end of the file.
pub fn level_end(file: &[u8], h: Header, level: u32) -> usize
    ensures { result ≡ level_end file.now h level }
{
    if level as usize + 1 < h.levels as usize {
        level_start(h, level + 1)
    } else {
        file.len()
    }
}

// The segment is not empty and lies in the file, which is 4,294,967,295 bytes long at most.
pub fn level_stands(file: &[u8], h: Header, level: u32) -> bool
    ensures { result ≡ level_stands file.now h level }
{
    let start = level_start(h, level);
    let end = level_end(file, h, level);
    (start < end) & (end <= file.len()) & (file.len() < TOO_LONG)
}

// The palettes that the format uses are long enough; an alpha selector is three words.
pub fn palettes_reach(h: Header, palettes: &Palettes) -> bool
    ensures { result ≡ palettes_reach h (lent palettes.now) }
{
    let color = has_color(h.format);
    let alpha = has_alpha(h.format);
    implies(
        color,
        h.color_endpoints.count as usize <= palettes.color_endpoints.len(),
    ) & implies(
        color,
        h.color_selectors.count as usize <= palettes.color_selectors.len(),
    ) & implies(
        alpha,
        h.alpha_endpoints.count as usize <= palettes.alpha_endpoints.len(),
    ) & implies(
        alpha,
        3 * h.alpha_selectors.count as usize <= palettes.alpha_selectors.len(),
    )
}
