// The texels of a face's blocks, put into a lent buffer block by block.
ghost use Rattle.std.specs.Prelude.{◌≡◌, ◌+◌, ◌*◌, ◌≤◌, ◌<◌, min, leb, length};
ghost use Rattle.crn_format.specs.Choice.{both};
ghost use Rattle.crn_format.specs.Limits.{max_side};
ghost use Rattle.crn_format.specs.Grid.{blocks as blocks_of};
ghost use Rattle.bcn_format.specs.Picture.{rgba};
ghost use Rattle.bcn_rows.specs.Rows.{texel_of, texel_at};
ghost use Rattle.texels.specs.Sheet.{Drawn, Room, Given, Part, Block, stretch, first, in_block, in_row};

use bcn_blocks::block_texels;
use bcn_format::Face;
use bcn_rows::{Row, Sixteen, put_row};
use crn_format::Kind;

// What is left of a side, at most a block's.
fn side_left(n: usize) -> usize
    ensures { result ≡ min n 4 }
{
    n.min(4)
}

// A row of a block, of so many columns.
fn put_stretch(dst: &mut [u8], s: Face, x: usize, y: usize, row: Row, columns: usize)
    requires room { Room s (length dst.old) }
    requires part { Part s x y columns }
    ensures { Drawn s (in_row (texel_of row)) (stretch s x y) (stretch s x y + 1) dst.old dst.new }
{
    put_row(dst, y * s.pitch + 4 * x, row, columns);
}

// A block that lies within the face: straight on, so that the compiler takes each texel up only where it is stored.
fn put_whole(dst: &mut [u8], s: Face, x: usize, y: usize, r: Sixteen)
    requires room { Room s (length dst.old) }
    requires x_whole { 4 * x + 4 ≤ s.width }
    requires y_whole { 4 * y + 4 ≤ s.height }
    ensures { Drawn s (in_block (texel_at r)) (first s x y) (first s x y + 4) dst.old dst.new }
{
    put_stretch(dst, s, 4 * x, 4 * y, r.a, 4);
    put_stretch(dst, s, 4 * x, 4 * y + 1, r.b, 4);
    put_stretch(dst, s, 4 * x, 4 * y + 2, r.c, 4);
    put_stretch(dst, s, 4 * x, 4 * y + 3, r.d, 4);
}

// A block at an edge, as far as the face goes.
fn put_edge(dst: &mut [u8], s: Face, x: usize, y: usize, r: Sixteen)
    requires room { Room s (length dst.old) }
    requires block { Block s x y }
    ensures { Drawn s (in_block (texel_at r)) (first s x y) (first s x y + 4) dst.old dst.new }
{
    let columns = side_left(s.width - 4 * x);
    let rows = side_left(s.height - 4 * y);
    put_stretch(dst, s, 4 * x, 4 * y, r.a, columns);
    if rows < 2 {
        return;
    }
    put_stretch(dst, s, 4 * x, 4 * y + 1, r.b, columns);
    if rows < 3 {
        return;
    }
    put_stretch(dst, s, 4 * x, 4 * y + 2, r.c, columns);
    if rows < 4 {
        return;
    }
    put_stretch(dst, s, 4 * x, 4 * y + 3, r.d, columns);
}

// Whether all of a block's texels are the face's.
fn lies_within(s: Face, x: usize, y: usize) -> bool
    requires x_in { 4 * x < 2 * max_side }
    requires y_in { 4 * y < 2 * max_side }
    ensures { result ≡ both (leb (4 * x + 4) s.width) (leb (4 * y + 4) s.height) }
{
    (4 * x + 4 <= s.width) & (4 * y + 4 <= s.height)
}

// The texels of the block in column x and row y of the blocks.
fn put_block(dst: &mut [u8], s: Face, x: usize, y: usize, r: Sixteen)
    requires room { Room s (length dst.old) }
    requires block { Block s x y }
    ensures { Drawn s (in_block (texel_at r)) (first s x y) (first s x y + 4) dst.old dst.new }
{
    if lies_within(s, x, y) {
        put_whole(dst, s, x, y, r);
        return;
    }
    put_edge(dst, s, x, y, r);
}

// A block, a row of blocks, and all of them.
fn block(kind: Kind, dst: &mut [u8], blocks: &[u8], s: Face, x: usize, y: usize)
    requires room { Room s (length dst.old) }
    requires block { Block s x y }
    requires given { Given kind s (length blocks.now) }
    ensures { Drawn s (rgba kind s blocks.now) (first s x y) (first s x y + 4)
        dst.old dst.new }
{
    let r = block_texels(kind, blocks, y * ((s.width + 3) / 4) + x);
    put_block(dst, s, x, y, r);
}

fn line(kind: Kind, dst: &mut [u8], blocks: &[u8], s: Face, y: usize)
    requires room { Room s (length dst.old) }
    requires y_in { y < blocks_of s.height }
    requires given { Given kind s (length blocks.now) }
    ensures { Drawn s (rgba kind s blocks.now) (first s 0 y) (first s 0 (y + 1))
        dst.old dst.new }
{
    let columns = (s.width + 3) / 4;
    for x in 0..columns {
        block(kind, dst, blocks, s, x, y);
    }
}

pub fn face(kind: Kind, dst: &mut [u8], blocks: &[u8], s: Face)
    requires room { Room s (length dst.old) }
    requires given { Given kind s (length blocks.now) }
    ensures { Drawn s (rgba kind s blocks.now) 0 (first s 0 (blocks_of s.height))
        dst.old dst.new }
{
    let rows = (s.height + 3) / 4;
    for y in 0..rows {
        line(kind, dst, blocks, s, y);
    }
}
