// The blocks of a grid in a lent destination (document 01, Chunks): made of palette entries, put in their places, cleared and counted.
#![tactic(auto)]

ghost use Rattle.std.specs.Prelude.{◌≡◌, ◌+◌, ◌*◌, ◌≤◌, length, get_or};
ghost use Rattle.std.proofs.lemmas.List.Edits.{sets};
ghost use Rattle.crn_format.specs.Grid.{color, alpha, little, painted, blank, cutouts as cutouts_of};
ghost use Rattle.crn_blocks.specs.Sheet.{Room, standing};
ghost use Rattle.crn_blocks.specs.Halves.{Half, Has};

use crn_format::Grid;

// The eight bytes of a colour plane: endpoint word, selector word.
pub fn color_half(ends: &[u32], sels: &[u32], e: u64, s: u64) -> u64
    requires { Has (color ends.now sels.now) e s }
    ensures { Half (color ends.now sels.now) e s result }
{
    u64::from(ends[e as usize]) + (u64::from(sels[s as usize]) << 32)
}

// The eight bytes of an alpha plane: endpoint word, three selector words.
pub fn alpha_half(ends: &[u16], sels: &[u16], e: u64, s: u64) -> u64
    requires { Has (alpha ends.now sels.now) e s }
    ensures { Half (alpha ends.now sels.now) e s result }
{
    let first = 3 * s as usize;
    let words = u64::from(sels[first])
        + (u64::from(sels[first + 1]) << 16)
        + (u64::from(sels[first + 2]) << 32);
    u64::from(ends[e as usize]) + (words << 16)
}

// Writes the eight bytes of v, the lowest first. The compiler makes one store of them.
pub fn put_eight(dst: &mut [u8], at: usize, v: u64)
    requires { at + 8 ≤ length dst.old }
    ensures { dst.new ≡ sets dst.old at (little 8 v) }
{
    dst[at..at + 8].copy_from_slice(&v.to_le_bytes());
}

// Zeroes the blocks of the grid. A row's blocks stand together.
pub fn clear(dst: &mut [u8], g: Grid)
    requires { Room g (length dst.old) }
    ensures { dst.new ≡ painted g (blank g) g.faces dst.old }
{
    let row = g.columns * g.bytes;
    for face in 0..g.faces {
        for y in 0..g.rows {
            let from = face * g.distance + y * g.pitch;
            dst[from..from + row].fill(0);
        }
    }
}

// The number of two bytes, the first the lower.
fn pair(dst: &[u8], at: usize) -> u16
    requires { at + 2 ≤ length dst.now }
    ensures { result ≡ get_or dst.now at 0 + 256 * get_or dst.now (at + 1) 0 }
{
    u16::from_le_bytes([dst[at], dst[at + 1]])
}

// The cut-outs of a grid of so many bytes a block. The compiler makes a shorter loop where they are known.
fn cutouts_by<const BYTES: usize>(dst: &[u8], g: Grid) -> u64
    requires room { Room g (length dst.now) }
    requires bytes_same { BYTES ≡ g.bytes }
    ensures { result ≡ cutouts_of g (standing g dst.now) g.faces }
{
    let mut n = 0;
    for face in 0..g.faces {
        for y in 0..g.rows {
            let row = face * g.distance + y * g.pitch;
            for x in 0..g.columns {
                let at = row + x * BYTES;
                if pair(dst, at) < pair(dst, at + 2) {
                    n += 1;
                }
            }
        }
    }
    n
}

// How many of the grid's blocks are cut-outs: their first word is below their second.
pub fn cutouts(dst: &[u8], g: Grid) -> u64
    requires { Room g (length dst.now) }
    ensures { result ≡ cutouts_of g (standing g dst.now) g.faces }
{
    if g.bytes == 8 {
        cutouts_by::<8>(dst, g)
    } else {
        cutouts_by::<16>(dst, g)
    }
}
