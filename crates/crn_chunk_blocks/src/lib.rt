// The blocks of a chunk that was read, put in their places.
#![tactic(auto)]

ghost use Rattle.std.specs.Prelude.{◌≡◌, ◌+◌, ◌*◌, ◌<◌, ◌≤◌, length, ltb};
ghost use Rattle.std.proofs.lemmas.List.Edits.{sets};
ghost use Rattle.crn_format.specs.Choice.{pick};
ghost use Rattle.crn_consts.specs.Tiles.{tile_in};
ghost use Rattle.crn_formats.specs.Lent.{lent};
ghost use Rattle.crn_blocks.specs.Sheet.{Covered, Painted, chunk_number};
ghost use Rattle.crn_blocks.specs.Halves.{Half, Has};
ghost use Rattle.crn_chunk_blocks.specs.Blocks.{shade_of, block_with, block_in, Placeable, Filled, AllFilled};

use crn_blocks::{alpha_half, color_half, put_eight};
use crn_chunks::{Planes, Side};
use crn_format::Grid;
use crn_formats::Palettes;

// A plane's eight bytes of a block.
fn plane_half(palettes: &Palettes, p: Side, e: u64, s: u64) -> u64
    requires { Has (shade_of (lent palettes.now) p) e s }
    ensures { Half (shade_of (lent palettes.now) p) e s result }
{
    if p.alpha {
        alpha_half(palettes.alpha_endpoints, palettes.alpha_selectors, e, s)
    } else {
        color_half(palettes.color_endpoints, palettes.color_selectors, e, s)
    }
}

// The block at a position: 0 left-top, 1 right-top, 2 left-bottom, 3 right-bottom. The byte has the positions' tiles.
fn block(
    dst: &mut [u8],
    out: &[u64; 16],
    palettes: &Palettes,
    ps: Planes,
    tiles: usize,
    at: usize,
    q: usize,
)
    requires q_in { q < 4 }
    requires room { at + pick ps.two 16 8 ≤ length dst.old }
    requires filled { Filled (lent palettes.now) ps out.now (tile_in tiles q) q }
    ensures { dst.new ≡ sets dst.old at (block_with (lent palettes.now) ps out.now (tile_in tiles q) q) }
{
    let tile = (tiles >> (2 * q)) % 4;
    let lo = plane_half(palettes, ps.first, out[tile], out[8 + q]);
    put_eight(dst, at, lo);
    if ps.two {
        let hi = plane_half(palettes, ps.second, out[4 + tile], out[12 + q]);
        put_eight(dst, at + 8, hi);
    }
}

// The four blocks of a chunk, those of them that lie inside the grid.
pub fn blocks(
    dst: &mut [u8],
    out: &[u64; 16],
    palettes: &Palettes,
    ps: Planes,
    g: Grid,
    e: u32,
    face: usize,
    cx: usize,
    cy: usize,
    right: bool,
    bottom: bool,
)
    requires placeable { Placeable ps g e (length dst.old) }
    requires covered { Covered g face cx cy }
    requires sides { (right ≡ ltb (2 * cx + 1) g.columns) × (bottom ≡ ltb (2 * cy + 1) g.rows) }
    requires all_filled { AllFilled (lent palettes.now) ps e out.now right bottom }
    ensures { Painted g (block_in (lent palettes.now) ps e out.now)
        (4 * chunk_number g face cx cy) (4 * chunk_number g face cx cy + 4)
        dst.old dst.new }
{
    let tiles = crn_consts::tiles(e) as usize;
    let base = face * g.distance + 2 * cy * g.pitch + 2 * cx * g.bytes;
    for q in 0..4 {
        if (right | (q % 2 == 0)) & (bottom | (q < 2)) {
            let at = base + q / 2 * g.pitch + q % 2 * g.bytes;
            block(dst, out, palettes, ps, tiles, at, q);
        }
    }
}
