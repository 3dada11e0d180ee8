// The segments that opening reads (refusal 4), and the lent palettes that it fills (refusal 5).
#![tactic(auto)]

ghost use Rattle.std.specs.Prelude.{◌≡◌};
ghost use Rattle.crn_format.specs.Opening.{of_plane, stands, part_stands, segments_stand, room_for};
ghost use Rattle.crn_formats.specs.Lent.{lent_of};

use crn_format::{Header, Part};
use crn_formats::implies;

// What has to hold of both palettes of a plane, where the plane is present.
fn of_plane(endpoints: Part, first: bool, second: bool) -> bool
    ensures { result ≡ of_plane endpoints first second }
{
    implies(0 < endpoints.count, first & second)
}

// A segment that is not empty and lies in the file.
fn stands(file: &[u8], offset: u32, size: u32) -> bool
    ensures { result ≡ stands file.now offset size }
{
    (0 < size) & (offset as usize + size as usize <= file.len())
}

// A palette's segment.
fn part_stands(file: &[u8], part: Part) -> bool
    ensures { result ≡ part_stands file.now part }
{
    stands(file, part.offset, part.size)
}

// The tables' segment, and those of the planes that are present.
pub fn segments_stand(file: &[u8], h: Header) -> bool
    ensures { result ≡ segments_stand file.now h }
{
    stands(file, h.tables_offset, h.tables_size)
        & of_plane(
            h.color_endpoints,
            part_stands(file, h.color_endpoints),
            part_stands(file, h.color_selectors),
        )
        & of_plane(
            h.alpha_endpoints,
            part_stands(file, h.alpha_endpoints),
            part_stands(file, h.alpha_selectors),
        )
}

// The lent palettes of the planes that are present are long enough; an alpha selector is three words.
pub fn room_for(
    h: Header,
    color_endpoints: &[u32],
    color_selectors: &[u32],
    alpha_endpoints: &[u16],
    alpha_selectors: &[u16],
) -> bool
    ensures { result ≡ room_for h (lent_of color_endpoints.now color_selectors.now alpha_endpoints.now alpha_selectors.now) }
{
    let color_ends = h.color_endpoints;
    let color_sels = h.color_selectors;
    let alpha_ends = h.alpha_endpoints;
    let alpha_sels = h.alpha_selectors;
    of_plane(
        color_ends,
        color_ends.count as usize <= color_endpoints.len(),
        color_sels.count as usize <= color_selectors.len(),
    ) & of_plane(
        alpha_ends,
        alpha_ends.count as usize <= alpha_endpoints.len(),
        3 * alpha_sels.count as usize <= alpha_selectors.len(),
    )
}
