// The grid of a level's blocks: its columns and rows, whether pitch and distance cover them (refusal 11), and whether a destination holds
// them (refusal 12). A handed header, a pitch and a distance may be any numbers: where a product or a sum overflows, nothing holds it.
ghost use Rattle.std.specs.Prelude.{◌≡◌, ℕ, ◌*◌, ◌<◌, ◌≤◌, ◌^◌, leb};
ghost use Rattle.std.specs.Option.{SomeIff};
ghost use Rattle.crn_format.specs.Grid.{pixels, blocks};
ghost use Rattle.crn_format.specs.Unpacking.{grid_of, grid_fits, reach};

use crn_format::Header;
use crn_formats::block_bytes;

// "Level i has max(1, width >> i) columns of pixels, height likewise."
fn pixels(side: u32, level: u32) -> u32
    ensures { (result ≡ pixels side level) × (0 < result) }
{
    side.checked_shr(level).unwrap_or(0).max(1)
}

// "Blocks are pixels/4 rounded up."
fn blocks_of(side: u32, level: u32) -> usize
    ensures { (result ≡ blocks (pixels side level)) × ((0 < result) × (result ≤ 2 ^ 30)) }
{
    pixels(side, level).div_ceil(4) as usize
}

// Columns of blocks, whatever pitch and distance are.
pub fn columns_of(h: Header, level: u32) -> usize
    ensures { ((pitch distance : ℕ) → result ≡ (grid_of h level pitch distance).columns) × ((0 < result) × (result ≤ 2 ^ 30)) }
{
    blocks_of(h.width, level)
}

// Rows of blocks.
pub fn rows_of(h: Header, level: u32) -> usize
    ensures { ((pitch distance : ℕ) → result ≡ (grid_of h level pitch distance).rows) × ((0 < result) × (result ≤ 2 ^ 30)) }
{
    blocks_of(h.height, level)
}

// The bytes of a row of blocks.
fn row_bytes(h: Header, level: u32) -> usize
    ensures { (pitch distance : ℕ) → result ≡ (grid_of h level pitch distance).columns * (grid_of h level pitch distance).bytes }
{
    columns_of(h, level) * block_bytes(h.format) as usize
}

// Whether n bytes hold so many; none stands for more than any number of bytes.
fn holds(n: usize, bytes: Option<usize>) -> bool
    ensures { (all : ℕ) → SomeIff bytes (all < 2 ^ 64) all → result ≡ leb all n }
{
    bytes.is_some_and(|all| all <= n)
}

// "Pitch and distance are multiples of 4; pitch covers a row of blocks, distance covers all block rows times pitch."
pub fn grid_fits(h: Header, level: u32, pitch: usize, distance: usize) -> bool
    ensures { result ≡ grid_fits (grid_of h level pitch distance) }
{
    (pitch % 4 == 0)
        & (distance % 4 == 0)
        & (row_bytes(h, level) <= pitch)
        & holds(distance, rows_of(h, level).checked_mul(pitch))
}

// "(faces - 1) x distance + (block rows - 1) x pitch + one row of blocks": none where that is more than any destination has.
fn reach(h: Header, level: u32, pitch: usize, distance: usize) -> Option<usize>
    ensures { SomeIff result (reach (grid_of h level pitch distance) < 2 ^ 64) (reach (grid_of h level pitch distance)) }
{
    let faces = (h.faces.saturating_sub(1) as usize).checked_mul(distance)?;
    let rows = (rows_of(h, level) - 1).checked_mul(pitch)?;
    faces.checked_add(rows)?.checked_add(row_bytes(h, level))
}

// Whether n bytes hold that.
pub fn reaches(h: Header, level: u32, pitch: usize, distance: usize, n: usize) -> bool
    ensures { result ≡ leb (reach (grid_of h level pitch distance)) n }
{
    holds(n, reach(h, level, pitch, distance))
}
