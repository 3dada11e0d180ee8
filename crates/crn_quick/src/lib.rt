// A chunk by a quick way (document 01, Chunks). Its cursor stands in registers, and the budget is looked at once: where the quick way is
// lost nothing is known, and the chunk is read anew by the way that finds the refusal, `crn_chunks::read_chunk`. It is lost at every
// refusal, near the segment's end, where a plane's codes are too long for the bits at hand, and at an index out of range, even where no
// block uses it.
#![tactic(auto)]

ghost use Rattle.std.specs.Prelude.{◌≡◌, true, false, ◌+◌, ◌<◌, ◌≤◌, length};
ghost use Rattle.crn_format.specs.Limits.{too_long, max_entries};
ghost use Rattle.crn_chunks.specs.Meaning.{Onward, Served, Named, Small, most};
ghost use Rattle.crn_chunks.specs.Parts.{Ready};
ghost use Rattle.crn_chunks.specs.Reads.{Reads};
ghost use Rattle.crn_quick.specs.Quick.{Able, each as each_of, QuickFound, QuickStepped, QuickTiled, QuickAllTiled, QuickPicks};
ghost use Rattle.crn_quick.specs.Quick.{QuickAllPicked, QuickEncodes, QuickRead, QuickReads};

use crn_chunks::{Carried, Chunk, Side, Stream, Supply};
use crn_consts::tile_count;
use crn_short_draw::filled;
use crn_symbol_codec::{Cursor, entry, place, refill};
use crn_utils::limit;

// Where a draw brings no symbol the quick way ends at once, with None.

// n for each plane.
fn each(two: bool, n: u64) -> u64
    requires { n ≤ 8 }
    ensures { (result ≡ each_of two n) × (result ≤ 16) }
{
    if two { n + n } else { n }
}

// A symbol of table number `which`, with the cursor after it and the length of its code; from a cursor that has 16 bits, with no budget to
// look at.
fn quick_symbol(supply: &Supply, which: usize, c: Cursor) -> Option<(Cursor, u64, u64)>
    requires able { Able supply.now.lookup.now supply.now.sorted.now supply.now.seg.now supply.now.planes c }
    requires which_in { which < supply.now.planes.tables }
    ensures { QuickFound supply.now.lookup.now supply.now.sorted.now supply.now.seg.now supply.now.planes which c result }
{
    if c.have < 16 {
        return None;
    }
    let e = entry(supply.decoder(which), c.bits);
    if e == 0 {
        return None;
    }
    let length = u64::from(e % 64);
    let cursor = Cursor {
        bits: c.bits << length,
        have: c.have - length,
        next: c.next,
    };
    Some((cursor, u64::from(e / 64), length))
}

// An index, with the same after it; from a cursor that has 16 bits.
fn quick_index(
    supply: &Supply,
    which: usize,
    size: u64,
    i: u64,
    c: Cursor,
) -> Option<(Cursor, u64, u64)>
    requires able { Able supply.now.lookup.now supply.now.sorted.now supply.now.seg.now supply.now.planes c }
    requires which_in { which < supply.now.planes.tables }
    requires size_in { size ≤ max_entries }
    requires i_in { i < most }
    ensures { QuickStepped supply.now.lookup.now supply.now.sorted.now supply.now.seg.now supply.now.planes which size i c result }
{
    let Some((cursor, delta, length)) = quick_symbol(supply, which, c) else {
        return None;
    };
    let index = limit(i + delta, size);
    if size <= index {
        return None;
    }
    Some((cursor, index, length))
}

// The endpoint indices of a plane's n tiles, as `plane_tiles` reads them; and the last of them. The bits at hand have to do: a refill has
// them for three, and mostly for four. (With a refill in it this would be too long for the compiler to take in twice.)
fn quick_plane(
    supply: &Supply,
    p: Side,
    base: usize,
    n: usize,
    i: u64,
    c: Cursor,
    out: &mut [u64],
) -> Option<(Cursor, u64)>
    requires able { Able supply.now.lookup.now supply.now.sorted.now supply.now.seg.now supply.now.planes c }
    requires named { Named supply.now.planes p }
    requires small { Small p }
    requires i_in { i < most }
    requires range_in { base + n ≤ length out.old }
    ensures { QuickTiled supply.now.lookup.now supply.now.sorted.now supply.now.seg.now supply.now.planes
        p base n i c out.old out.new result }
{
    let mut at = c;
    let mut last = i;
    for k in 0..n {
        let (after, j, _) = quick_index(supply, p.ends, p.endpoints, last, at)?;
        out[base + k] = j;
        last = j;
        at = after;
    }
    Some((at, last))
}

// The same for each plane; of one plane the second index has no meaning.
fn quick_tiles(
    supply: &Supply,
    n: usize,
    e0: u64,
    e1: u64,
    c: Cursor,
    out: &mut [u64],
) -> Option<(Cursor, u64, u64)>
    requires able { Able supply.now.lookup.now supply.now.sorted.now supply.now.seg.now supply.now.planes c }
    requires encodings_in { (e0 < most) × (e1 < most) }
    requires n_in { n ≤ 4 }
    requires out_long { length out.old ≡ 16 }
    ensures { QuickAllTiled supply.now.lookup.now supply.now.sorted.now supply.now.seg.now supply.now.planes n e0 e1 c out.new result }
{
    let c0 = refill(supply.seg, c);
    let (d, i) = quick_plane(supply, supply.planes.first, 0, n, e0, c0, out)?;
    if !supply.planes.two {
        return Some((d, i, e1));
    }
    let d0 = refill(supply.seg, d);
    let (e, j) = quick_plane(supply, supply.planes.second, 4, n, e1, d0, out)?;
    Some((e, i, j))
}

// The selector indices of two planes at a position, as `position` reads them, and the length of the last one's code.
fn quick_pair(supply: &Supply, s0: u64, s1: u64, c: Cursor) -> Option<(Cursor, u64, u64, u64)>
    requires able { Able supply.now.lookup.now supply.now.sorted.now supply.now.seg.now supply.now.planes c }
    requires symbols_in { (s0 < most) × (s1 < most) }
    requires two_planes { supply.now.planes.two ≡ true }
    ensures { QuickPicks supply.now.lookup.now supply.now.sorted.now supply.now.seg.now supply.now.planes s0 s1 c result }
{
    let p = supply.planes.first;
    let (d, i, _) = quick_index(supply, p.sels, p.selectors, s0, c)?;
    let q = supply.planes.second;
    let (e, j, length) = quick_index(supply, q.sels, q.selectors, s1, d)?;
    Some((e, i, j, length))
}

// Those at the four positions, as `positions` reads them. A refill has bits for a position.
fn pair_positions(
    supply: &Supply,
    s0: u64,
    s1: u64,
    c: Cursor,
    out: &mut [u64],
) -> Option<(Cursor, u64, u64, u64)>
    requires able { Able supply.now.lookup.now supply.now.sorted.now supply.now.seg.now supply.now.planes c }
    requires symbols_in { (s0 < most) × (s1 < most) }
    requires out_long { length out.old ≡ 16 }
    requires two_planes { supply.now.planes.two ≡ true }
    ensures { QuickAllPicked supply.now.lookup.now supply.now.sorted.now supply.now.seg.now supply.now.planes
        s0 s1 c out.old out.new result }
{
    let mut at = c;
    let mut i0 = s0;
    let mut i1 = s1;
    let mut length = 0;
    for k in 0..4 {
        let d = refill(supply.seg, at);
        let (e, i, j, l) = quick_pair(supply, i0, i1, d)?;
        out[8 + k] = i;
        out[12 + k] = j;
        i0 = i;
        i1 = j;
        length = l;
        at = e;
    }
    Some((at, i0, i1, length))
}

// Those of one plane. A refill has bits for three positions, and mostly for four; without a loop the compiler keeps all four indices in
// registers.
fn single_positions(
    supply: &Supply,
    s0: u64,
    s1: u64,
    c: Cursor,
    out: &mut [u64],
) -> Option<(Cursor, u64, u64, u64)>
    requires able { Able supply.now.lookup.now supply.now.sorted.now supply.now.seg.now supply.now.planes c }
    requires symbols_in { (s0 < most) × (s1 < most) }
    requires out_long { length out.old ≡ 16 }
    requires one_plane { supply.now.planes.two ≡ false }
    ensures { QuickAllPicked supply.now.lookup.now supply.now.sorted.now supply.now.seg.now supply.now.planes
        s0 s1 c out.old out.new result }
{
    let p = supply.planes.first;
    let c0 = refill(supply.seg, c);
    let (c1, i, _) = quick_index(supply, p.sels, p.selectors, s0, c0)?;
    let (c2, j, _) = quick_index(supply, p.sels, p.selectors, i, c1)?;
    let (after, k, _) = quick_index(supply, p.sels, p.selectors, j, c2)?;
    let c3 = filled(supply.seg, after);
    let (end, l, length) = quick_index(supply, p.sels, p.selectors, k, c3)?;
    out[8] = i;
    out[12] = 0;
    out[9] = j;
    out[13] = 0;
    out[10] = k;
    out[14] = 0;
    out[11] = l;
    out[15] = 0;
    Some((end, l, 0, length))
}

// The selector indices at the four positions; the last of each plane, and the length of the last one's code.
fn quick_positions(
    supply: &Supply,
    s0: u64,
    s1: u64,
    c: Cursor,
    out: &mut [u64],
) -> Option<(Cursor, u64, u64, u64)>
    requires able { Able supply.now.lookup.now supply.now.sorted.now supply.now.seg.now supply.now.planes c }
    requires symbols_in { (s0 < most) × (s1 < most) }
    requires out_long { length out.old ≡ 16 }
    ensures { QuickAllPicked supply.now.lookup.now supply.now.sorted.now supply.now.seg.now supply.now.planes
        s0 s1 c out.old out.new result }
{
    if supply.planes.two {
        pair_positions(supply, s0, s1, c, out)
    } else {
        single_positions(supply, s0, s1, c, out)
    }
}

// The tiles and positions of a chunk: the last indices of its tiles, then of its positions, and the stream. They are 16 indices at most,
// and the budget is known to have so many.
fn quick_chunk(
    supply: &Supply,
    n: usize,
    r: Carried,
    s: Stream,
    out: &mut [u64],
) -> Option<(u64, u64, u64, u64, Stream)>
    requires seg_long { length supply.now.seg.now < too_long }
    requires served { Served supply.now.planes supply.now.lookup.now supply.now.sorted.now }
    requires onward { Onward supply.now.seg.now r s }
    requires enough_left { (n ≤ 4) × (16 ≤ s.left) }
    requires out_long { length out.old ≡ 16 }
    ensures { QuickRead supply.now.lookup.now supply.now.sorted.now supply.now.seg.now supply.now.planes n r s out.new result }
{
    let (d, e0, e1) = quick_tiles(supply, n, r.e0, r.e1, s.cursor, out)?;
    let (e, s0, s1, length) = quick_positions(supply, r.s0, r.s1, d, out)?;
    let drawn = each(supply.planes.two, n as u64 + 4);
    let stream = Stream {
        cursor: e,
        blamed: place(supply.seg, e) - length as usize,
        left: s.left - drawn,
    };
    Some((e0, e1, s0, s1, stream))
}

// The next encoding, what is then pending, and the stream: one that is pending, or the first of a chunk symbol.
fn quick_code(supply: &Supply, pending: u32, s: Stream) -> Option<(u32, u32, Stream)>
    requires ready { Ready supply.now.lookup.now supply.now.sorted.now supply.now.seg.now supply.now.planes s }
    requires some_left { 0 < s.left }
    ensures { QuickEncodes supply.now.lookup.now supply.now.sorted.now supply.now.seg.now supply.now.planes pending s result }
{
    if 64 <= pending {
        return Some((pending % 8, 8 + pending / 8 % 8, s));
    }
    if 8 <= pending {
        return Some((pending % 8, 0, s));
    }
    let d = filled(supply.seg, s.cursor);
    let Some((cursor, v, _)) = quick_symbol(supply, 0, d) else {
        return None;
    };
    if 1024 <= v {
        return None;
    }
    let stream = Stream {
        cursor,
        blamed: place(supply.seg, d),
        left: s.left - 1,
    };
    Some(((v % 8) as u32, (64 + v / 8 % 64) as u32, stream))
}

// A chunk by the quick way: its encoding, what is carried on, and the stream.
fn quick_read(
    supply: &Supply,
    r: Carried,
    s: Stream,
    out: &mut [u64; 16],
) -> Option<(u32, Carried, Stream)>
    requires seg_long { length supply.now.seg.now < too_long }
    requires served { Served supply.now.planes supply.now.lookup.now supply.now.sorted.now }
    requires onward { Onward supply.now.seg.now r s }
    ensures { QuickReads supply.now.lookup.now supply.now.sorted.now supply.now.seg.now supply.now.planes r s out.new result }
{
    if s.left < 17 {
        return None;
    }
    let (encoding, pending, t) = quick_code(supply, r.pending, s)?;
    let n = tile_count(encoding) as usize;
    let (e0, e1, s0, s1, after) = quick_chunk(supply, n, r, t, out)?;
    let next = Carried {
        pending,
        e0,
        e1,
        s0,
        s1,
    };
    Some((encoding, next, after))
}

// A chunk, as `crn_chunks::read_chunk` reads it: by the quick way, or where that is lost by that function.
pub fn read_chunk(
    supply: &Supply,
    right: bool,
    bottom: bool,
    r: Carried,
    s: Stream,
    out: &mut [u64; 16],
) -> Chunk
    requires seg_long { length supply.now.seg.now < too_long }
    requires served { Served supply.now.planes supply.now.lookup.now supply.now.sorted.now }
    requires onward { Onward supply.now.seg.now r s }
    ensures { Reads supply.now.lookup.now supply.now.sorted.now supply.now.seg.now supply.now.planes right bottom r s out.new result }
{
    let Some(read) = quick_read(supply, r, s, out) else {
        return crn_chunks::read_chunk(supply, right, bottom, r, s, out);
    };
    Ok(read)
}
