// The sixteen texels of a block, by its bytes.
#![tactic(auto)]

ghost use Rattle.std.specs.Prelude.{true, ◌≡◌, ◌+◌, ◌*◌, ◌≤◌, length};
ghost use Rattle.crn_format.specs.declared.Kind.TheVariants.{DXT1, DXT5, DXT5A, DXN};
ghost use Rattle.crn_format.specs.Header.{known, block_bytes};
ghost use Rattle.bcn_blocks.specs.Texels.{Texels};

use bcn_colors::{four_colors, palette};
use bcn_levels::levels;
use bcn_rows::{Sixteen, added_rows, color_rows, level_rows};
use crn_format::Kind;
use halves::{color_half, level_half};

mod halves; // the eight bytes of half a block

// Colours by the words' order.
fn bc1_at(blocks: &[u8], at: usize) -> Sixteen
    requires { at + 8 ≤ length blocks.now }
    ensures { Texels blocks.now DXT1 at result }
{
    let half = color_half(blocks, at);
    let table = palette(half.first, half.second);
    color_rows(&table, half.selectors)
}

// Colours in four-colour mode, with levels as alpha.
fn bc3_at(blocks: &[u8], at: usize) -> Sixteen
    requires { at + 16 ≤ length blocks.now }
    ensures { Texels blocks.now DXT5 at result }
{
    let color = color_half(blocks, at + 8);
    let colors = four_colors(color.first, color.second);
    let level = level_half(blocks, at);
    let alphas = levels(level.first, level.second, 16777216, 0);
    added_rows(
        color_rows(&colors, color.selectors),
        level_rows(&alphas, level.selectors),
    )
}

// Levels as red, with full alpha.
fn bc4_at(blocks: &[u8], at: usize) -> Sixteen
    requires { at + 8 ≤ length blocks.now }
    ensures { Texels blocks.now DXT5A at result }
{
    let half = level_half(blocks, at);
    let reds = levels(half.first, half.second, 1, 4278190080);
    level_rows(&reds, half.selectors)
}

// Levels as red and as green, with full alpha.
fn bc5_at(blocks: &[u8], at: usize) -> Sixteen
    requires { at + 16 ≤ length blocks.now }
    ensures { Texels blocks.now DXN at result }
{
    let red = level_half(blocks, at);
    let reds = levels(red.first, red.second, 1, 4278190080);
    let green = level_half(blocks, at + 8);
    let greens = levels(green.first, green.second, 256, 0);
    added_rows(
        level_rows(&reds, red.selectors),
        level_rows(&greens, green.selectors),
    )
}

// The texels of the n-th block, of a kind that is known.
pub fn block_texels(kind: Kind, blocks: &[u8], n: usize) -> Sixteen
    requires kind_known { known kind ≡ true }
    requires block_in { block_bytes kind * n + block_bytes kind ≤ length blocks.now }
    ensures { Texels blocks.now kind (block_bytes kind * n) result }
{
    match kind {
        Kind::DXT1 => bc1_at(blocks, 8 * n),
        Kind::DXT5 => bc3_at(blocks, 16 * n),
        Kind::DXN => bc5_at(blocks, 16 * n),
        Kind::DXT5A => bc4_at(blocks, 8 * n),
        Kind::Unknown => unreachable!(),
    }
}
