// A chunk, a row of chunks, the rows of a face.
ghost use Rattle.std.specs.Prelude.{◌≡◌, ◌+◌, ◌-◌, ◌%◌, ◌<◌, length, eqb};
ghost use Rattle.crn_format.specs.Choice.{pick};
ghost use Rattle.crn_format.specs.Grid.{chunk_rows};
ghost use Rattle.crn_chunks.specs.Meaning.{Onward};
ghost use Rattle.crn_blocks.specs.Sheet.{Covered, chunk_number, row_start};
ghost use Rattle.crn_unpacker.specs.Going.{given_in, Fit, Goes};
ghost use Rattle.crn_unpacker.specs.Rows.{Rows};

use crate::{Level, Went};
use crn_chunk_blocks::blocks;
use crn_chunks::{Carried, Stream};
use crn_quick::read_chunk;

// A chunk is read whole, then its blocks are put in their places.
fn chunk(
    dst: &mut [u8],
    out: &mut [u64; 16],
    level: &Level,
    r: Carried,
    s: Stream,
    face: usize,
    cx: usize,
    cy: usize,
) -> Went
    requires fit { Fit (given_in level.now) (length dst.old) }
    requires onward { Onward level.now.supply.seg.now r s }
    requires covered { Covered level.now.grid face cx cy }
    ensures { Goes (given_in level.now)
        (chunk_number level.now.grid face cx cy) (chunk_number level.now.grid face cx cy + 1)
        r s dst.old dst.new result }
{
    let right = 2 * cx + 1 < level.grid.columns;
    let bottom = 2 * cy + 1 < level.grid.rows;
    let (e, n, t) = read_chunk(&level.supply, right, bottom, r, s, out)?;
    blocks(
        dst,
        out,
        &level.palettes,
        level.supply.planes,
        level.grid,
        e,
        face,
        cx,
        cy,
        right,
        bottom,
    );
    Ok((n, t))
}

// The column of chunk k of a row.
fn column(turned: bool, wide: usize, k: usize) -> usize
    requires { k < wide }
    ensures { result ≡ pick turned (wide - 1 - k) k }
{
    if turned { wide - 1 - k } else { k }
}

// The chunks of a chunk row, left to right, or turned, right to left.
fn row(
    dst: &mut [u8],
    out: &mut [u64; 16],
    level: &Level,
    r: Carried,
    s: Stream,
    face: usize,
    cy: usize,
    turned: bool,
) -> Went
    requires fit { Fit (given_in level.now) (length dst.old) }
    requires onward { Onward level.now.supply.seg.now r s }
    requires row_in { (face < level.now.grid.faces) × (cy < chunk_rows level.now.grid) × (turned ≡ eqb (cy % 2) 1) }
    ensures { Goes (given_in level.now)
        (row_start level.now.grid face cy) (row_start level.now.grid face (cy + 1))
        r s dst.old dst.new result }
{
    // a copy, which nothing else can write to: its parts stay in registers, where those behind a reference are read anew after each block
    let held = *level;
    let wide = (held.grid.columns + 1) / 2;
    let mut n = r;
    let mut t = s;
    for k in 0..wide {
        let (m, u) = chunk(dst, out, &held, n, t, face, column(turned, wide, k), cy)?;
        n = m;
        t = u;
    }
    Ok((n, t))
}

// `left` chunk rows from cy on, the first of them left to right.
#[cycle(leftward_rightward)]
fn rightward(
    dst: &mut [u8],
    out: &mut [u64; 16],
    level: &Level,
    r: Carried,
    s: Stream,
    face: usize,
    cy: usize,
    left: usize,
) -> Went
    requires fit { Fit (given_in level.now) (length dst.old) }
    requires onward { Onward level.now.supply.seg.now r s }
    requires rows { Rows level.now.grid face cy left 0 }
    ensures { Goes (given_in level.now)
        (row_start level.now.grid face cy) (row_start level.now.grid face (cy + left))
        r s dst.old dst.new result }
{
    if left == 0 {
        return Ok((r, s));
    }
    let (n, t) = row(dst, out, level, r, s, face, cy, false)?;
    leftward(dst, out, level, n, t, face, cy + 1, left - 1)
}

// `left` chunk rows from cy on, the first of them right to left.
#[cycle(leftward_rightward)]
fn leftward(
    dst: &mut [u8],
    out: &mut [u64; 16],
    level: &Level,
    r: Carried,
    s: Stream,
    face: usize,
    cy: usize,
    left: usize,
) -> Went
    requires fit { Fit (given_in level.now) (length dst.old) }
    requires onward { Onward level.now.supply.seg.now r s }
    requires rows { Rows level.now.grid face cy left 1 }
    ensures { Goes (given_in level.now)
        (row_start level.now.grid face cy) (row_start level.now.grid face (cy + left))
        r s dst.old dst.new result }
{
    if left == 0 {
        return Ok((r, s));
    }
    let (n, t) = row(dst, out, level, r, s, face, cy, true)?;
    rightward(dst, out, level, n, t, face, cy + 1, left - 1)
}

// So many chunk rows call each other at most, which bounds the stack at any size. An even number, so that every band begins left to right.
const BAND: usize = 32;

// The chunk rows of a face, in bands; the last band is what is left.
pub fn face_rows(
    dst: &mut [u8],
    out: &mut [u64; 16],
    level: &Level,
    r: Carried,
    s: Stream,
    face: usize,
) -> Went
    requires fit { Fit (given_in level.now) (length dst.old) }
    requires onward { Onward level.now.supply.seg.now r s }
    requires face_in { face < level.now.grid.faces }
    ensures { Goes (given_in level.now)
        (row_start level.now.grid face 0) (row_start level.now.grid face (chunk_rows level.now.grid))
        r s dst.old dst.new result }
{
    let high = (level.grid.rows + 1) / 2;
    let mut n = r;
    let mut t = s;
    let mut cy = 0;
    while BAND < high - cy {
        let (m, u) = rightward(dst, out, level, n, t, face, cy, BAND)?;
        n = m;
        t = u;
        cy += BAND;
    }
    rightward(dst, out, level, n, t, face, cy, high - cy)
}
