// The sizes of a level whose rows and faces stand close together, of any handed header.
#![tactic(auto)]

ghost use Rattle.std.specs.Prelude.{◌≡◌, ◌/◌};
ghost use Rattle.crn_format.specs.Refusals.{number_of};
ghost use Rattle.crn_sizes.specs.Sizes.{close, sizes_of, no_sizes, level_sizes};

use crn_bounds::within_limits;
use crn_format::{Header, Refusal};
use crn_formats::block_bytes;
use crn_grid::{columns_of, rows_of};

// Refusal 2 or 10 with zeros; or 0 with a level's blocks, the least pitch, distance and destination for them, and the full symbol allowance.
#[repr(C)]
#[derive(Clone, Copy)]
pub struct LevelSizes {
    pub refusal: u32,
    pub columns: usize,
    pub rows: usize,
    pub block_bytes: usize,
    pub pitch: usize,
    pub distance: usize,
    pub bytes: usize,
    pub symbols: u64,
}

// What a refusal gives for sizes.
fn no_sizes(refusal: Refusal) -> LevelSizes
    ensures { result ≡ no_sizes (number_of refusal) }
{
    LevelSizes {
        refusal: refusal.into(),
        columns: 0,
        rows: 0,
        block_bytes: 0,
        pitch: 0,
        distance: 0,
        bytes: 0,
        symbols: 0,
    }
}

// The sizes of so many faces of so many blocks. The narrow types are wide enough for every level, and no product of them overflows.
fn sizes_by(faces: u8, columns: u16, rows: u16, block_bytes: u8) -> LevelSizes
    ensures { result ≡ sizes_of (block_bytes / 8) (close faces columns rows block_bytes) }
{
    let pitch = usize::from(columns) * usize::from(block_bytes);
    let distance = usize::from(rows) * pitch;
    let chunks = u64::from(faces) * (u64::from(rows).div_ceil(2) * u64::from(columns).div_ceil(2));
    LevelSizes {
        refusal: 0,
        columns: usize::from(columns),
        rows: usize::from(rows),
        block_bytes: usize::from(block_bytes),
        pitch,
        distance,
        bytes: usize::from(faces) * distance,
        symbols: 8 * (chunks * (u64::from(block_bytes) / 8)) + chunks.div_ceil(3),
    }
}

// What a host needs to unpack a level: its blocks, the least pitch, distance and destination, and the full symbol allowance; or refusal 2 or 10.
pub fn level_sizes(header: Header, level: u32) -> LevelSizes
    ensures { result ≡ level_sizes header level }
{
    if !within_limits(header) {
        return no_sizes(Refusal::BeyondLimits);
    }
    if header.levels <= level {
        return no_sizes(Refusal::NoLevel);
    }
    let columns = columns_of(header, level);
    let rows = rows_of(header, level);
    let bytes = block_bytes(header.format);
    sizes_by(header.faces as u8, columns as u16, rows as u16, bytes as u8)
}
