// The draws of a chunk (document 01, Chunks): its encoding, its tiles' endpoint indices and its positions' selector indices.
#![tactic(auto)]

ghost use Rattle.std.specs.Prelude.{◌≡◌, true, ◌+◌, ◌<◌, ◌≤◌, length, get_or};
ghost use Rattle.crn_format.specs.Limits.{too_long, max_entries};
ghost use Rattle.crn_format.specs.Reading.{symbol};
ghost use Rattle.crn_chunks.specs.Meaning.{Onward, Served, Named, Small, most, lookup_of, sorted_of};
ghost use Rattle.crn_chunks.specs.Parts.{Ready, Budgeted, Draws, index_of, farthest, reach, Tiled, AllTiled, Picks, AllPicked};
ghost use Rattle.crn_chunks.specs.Parts.{Encodes, blamed};
ghost use Rattle.crn_chunks.specs.Reads.{Reads, inside_of};

use crn_consts::tile_count;
use crn_format::Refusal;
use crn_symbol_codec::{Cursor, Decoder, Taken, draw, place, refusal};
use crn_utils::limit;

// A plane: the numbers of its two decoder tables, its palettes' sizes, and whether it is an alpha plane.
#[derive(Clone, Copy)]
pub struct Side {
    pub ends: usize,
    pub sels: usize,
    pub endpoints: u64,
    pub selectors: u64,
    pub alpha: bool,
}

// One plane, or two, and their decoder tables: number k stands at k times a step in the lent lookups and sorted symbols; number 0 is
// the chunk symbols'.
#[derive(Clone, Copy)]
pub struct Planes {
    pub two: bool,
    pub first: Side,
    pub second: Side,
    pub tables: usize,
    pub lookup_step: usize,
    pub sorted_step: usize,
}

// What a level is drawn by: its decoder tables, one after another in two arrays, its segment and its planes.
#[derive(Clone, Copy)]
pub struct Supply<'a> {
    pub lookup: &'a [u32],
    pub sorted: &'a [u16],
    pub seg: &'a [u8],
    pub planes: Planes,
}

impl<'a> Supply<'a> {
    // The decoder table of number `which`.
    pub fn decoder(&self, which: usize) -> Decoder<'a>
        requires served { Served self.now.planes self.now.lookup.now self.now.sorted.now }
        requires which_in { which < self.now.planes.tables }
        ensures lookup { result.lookup.now ≡ lookup_of self.now.planes self.now.lookup.now which }
        ensures sorted { result.sorted.now ≡ sorted_of self.now.planes self.now.sorted.now which }
    {
        let from = which * self.planes.lookup_step;
        let first = which * self.planes.sorted_step;
        Decoder {
            lookup: &self.lookup[from..from + self.planes.lookup_step],
            sorted: &self.sorted[first..first + self.planes.sorted_step],
        }
    }
}

// What is carried from chunk to chunk: the encodings that are pending, as one number, and the planes' running indices.
#[derive(Clone, Copy)]
pub struct Carried {
    pub pending: u32,
    pub e0: u64,
    pub e1: u64,
    pub s0: u64,
    pub s1: u64,
}

// A cursor, the place before the last symbol, and how many symbols may still be drawn.
#[derive(Clone, Copy)]
pub struct Stream {
    pub cursor: Cursor,
    pub blamed: usize,
    pub left: u64,
}

// A refusal, the bit that it names, and what is left of the budget.
#[derive(Clone, Copy)]
pub struct Stop {
    pub refusal: Refusal,
    pub at: usize,
    pub left: u64,
}

// A chunk as read: its encoding, what is carried on and the stream after it; or the refusal.
pub type Chunk = Result<(u32, Carried, Stream), Stop>;

// A draw of table number `which` under the budget: refusal 15 where nothing is left of it, else a symbol, or refusal 7 or 8.
fn budgeted_draw(supply: &Supply, which: usize, s: Stream) -> Taken
    requires ready { Ready supply.now.lookup.now supply.now.sorted.now supply.now.seg.now supply.now.planes s }
    requires which_in { which < supply.now.planes.tables }
    ensures { Budgeted supply.now.lookup.now supply.now.sorted.now supply.now.seg.now supply.now.planes which s result }
{
    if s.left == 0 {
        return Err(Refusal::OutOfBudget);
    }
    draw(supply.decoder(which), supply.seg, s.cursor)
}

// A symbol of table number `which`, under the budget. A draw that brings none gives its refusal, 7, 8 or 15, and nothing is drawn after it.
fn take(supply: &Supply, which: usize, s: Stream) -> Result<(u64, Stream), Stop>
    requires ready { Ready supply.now.lookup.now supply.now.sorted.now supply.now.seg.now supply.now.planes s }
    requires which_in { which < supply.now.planes.tables }
    ensures { Draws supply.now.lookup.now supply.now.sorted.now supply.now.seg.now supply.now.planes
        (λ cs. symbol (cs which)) s farthest result }
{
    let at = place(supply.seg, s.cursor);
    let drawn = budgeted_draw(supply, which, s);
    let Ok((v, d)) = drawn else {
        return Err(Stop {
            refusal: refusal(drawn),
            at,
            left: s.left,
        });
    };
    Ok((
        u64::from(v),
        Stream {
            cursor: d,
            blamed: at,
            left: s.left - 1,
        },
    ))
}

// The refusal of a symbol that was drawn: it names the bit before it.
fn blamed(refusal: Refusal, s: Stream) -> Stop
    ensures { result ≡ blamed refusal s }
{
    Stop {
        refusal,
        at: s.blamed,
        left: s.left,
    }
}

// The next index of a palette of `size` entries. One that is not used is not looked at.
fn index(
    supply: &Supply,
    which: usize,
    size: u64,
    inside: bool,
    i: u64,
    s: Stream,
) -> Result<(u64, Stream), Stop>
    requires ready { Ready supply.now.lookup.now supply.now.sorted.now supply.now.seg.now supply.now.planes s }
    requires which_in { which < supply.now.planes.tables }
    requires size_in { size ≤ max_entries }
    requires i_in { i < most }
    ensures { Draws supply.now.lookup.now supply.now.sorted.now supply.now.seg.now supply.now.planes
        (λ cs. index_of (cs which) size inside i) s (reach inside i) result }
{
    let (d, t) = take(supply, which, s)?;
    let j = limit(i + d, size);
    if inside & (size <= j) {
        return Err(blamed(Refusal::NoEntry, t));
    }
    Ok((j, t))
}

// The endpoint indices of a plane's n tiles, to `out` from `base` on; and the last of them.
fn plane_tiles(
    supply: &Supply,
    p: Side,
    base: usize,
    n: usize,
    i: u64,
    s: Stream,
    out: &mut [u64],
) -> Result<(u64, Stream), Stop>
    requires ready { Ready supply.now.lookup.now supply.now.sorted.now supply.now.seg.now supply.now.planes s }
    requires named { Named supply.now.planes p }
    requires small { Small p }
    requires i_in { i < most }
    requires range_in { base + n ≤ length out.old }
    ensures { Tiled supply.now.lookup.now supply.now.sorted.now supply.now.seg.now supply.now.planes p base n i s out.old out.new result }
{
    let mut at = s;
    let mut last = i;
    for k in 0..n {
        let (j, t) = index(supply, p.ends, p.endpoints, true, last, at)?;
        out[base + k] = j;
        last = j;
        at = t;
    }
    Ok((last, at))
}

// The same for each plane.
fn all_tiles(
    supply: &Supply,
    n: usize,
    e0: u64,
    e1: u64,
    s: Stream,
    out: &mut [u64],
) -> Result<(u64, u64, Stream), Stop>
    requires ready { Ready supply.now.lookup.now supply.now.sorted.now supply.now.seg.now supply.now.planes s }
    requires encodings_in { (e0 < most) × (e1 < most) }
    requires n_in { n ≤ 4 }
    requires out_long { length out.old ≡ 16 }
    ensures { AllTiled supply.now.lookup.now supply.now.sorted.now supply.now.seg.now supply.now.planes n e0 e1 s out.new result }
{
    let (i, t) = plane_tiles(supply, supply.planes.first, 0, n, e0, s, out)?;
    if !supply.planes.two {
        return Ok((i, e1, t));
    }
    let (j, u) = plane_tiles(supply, supply.planes.second, 4, n, e1, t, out)?;
    Ok((i, j, u))
}

// The selector indices at a position.
fn position(
    supply: &Supply,
    inside: bool,
    s0: u64,
    s1: u64,
    s: Stream,
) -> Result<(u64, u64, Stream), Stop>
    requires ready { Ready supply.now.lookup.now supply.now.sorted.now supply.now.seg.now supply.now.planes s }
    requires symbols_in { (s0 < most) × (s1 < most) }
    ensures { Picks supply.now.lookup.now supply.now.sorted.now supply.now.seg.now supply.now.planes inside s0 s1 s result }
{
    let p = supply.planes.first;
    let (i, t) = index(supply, p.sels, p.selectors, inside, s0, s)?;
    if !supply.planes.two {
        return Ok((i, 0, t));
    }
    let q = supply.planes.second;
    let (j, u) = index(supply, q.sels, q.selectors, inside, s1, t)?;
    Ok((i, j, u))
}

// Whether position k lies inside.
fn lies_inside(right: bool, bottom: bool, k: usize) -> bool
    requires { k < 4 }
    ensures { result ≡ get_or (inside_of right bottom) k true }
{
    match k {
        0 => true,
        1 => right,
        2 => bottom,
        _ => right & bottom,
    }
}

// The selector indices at the four positions, to `out` from 8 and from 12 on; and the last of them. A position outside is drawn
// too.
fn positions(
    supply: &Supply,
    right: bool,
    bottom: bool,
    s0: u64,
    s1: u64,
    s: Stream,
    out: &mut [u64],
) -> Result<(u64, u64, Stream), Stop>
    requires ready { Ready supply.now.lookup.now supply.now.sorted.now supply.now.seg.now supply.now.planes s }
    requires symbols_in { (s0 < most) × (s1 < most) }
    requires out_long { length out.old ≡ 16 }
    ensures { AllPicked supply.now.lookup.now supply.now.sorted.now supply.now.seg.now supply.now.planes
        (inside_of right bottom) s0 s1 s out.old out.new result }
{
    let mut at = s;
    let mut i0 = s0;
    let mut i1 = s1;
    for k in 0..4 {
        let (i, j, t) = position(supply, lies_inside(right, bottom, k), i0, i1, at)?;
        out[8 + k] = i;
        out[12 + k] = j;
        i0 = i;
        i1 = j;
        at = t;
    }
    Ok((i0, i1, at))
}

// The next encoding, and what is then pending: one that is pending, or the first of a chunk symbol.
fn next_encoding(supply: &Supply, pending: u32, s: Stream) -> Result<(u32, u32, Stream), Stop>
    requires { Ready supply.now.lookup.now supply.now.sorted.now supply.now.seg.now supply.now.planes s }
    ensures { Encodes supply.now.lookup.now supply.now.sorted.now supply.now.seg.now supply.now.planes pending s result }
{
    if 64 <= pending {
        return Ok((pending % 8, 8 + pending / 8 % 8, s));
    }
    if 8 <= pending {
        return Ok((pending % 8, 0, s));
    }
    let (v, t) = take(supply, 0, s)?;
    if 1024 <= v {
        return Err(blamed(Refusal::NoEncoding, t));
    }
    Ok(((v % 8) as u32, (64 + v / 8 % 64) as u32, t))
}

// A chunk. Its indices go to `out`: the tiles' endpoint indices of the first plane from 0 on and of the second from 4 on, the
// positions' selector indices of the first from 8 on and of the second from 12 on.
pub fn read_chunk(
    supply: &Supply,
    right: bool,
    bottom: bool,
    r: Carried,
    s: Stream,
    out: &mut [u64; 16],
) -> Chunk
    requires seg_long { length supply.now.seg.now < too_long }
    requires served { Served supply.now.planes supply.now.lookup.now supply.now.sorted.now }
    requires onward { Onward supply.now.seg.now r s }
    ensures { Reads supply.now.lookup.now supply.now.sorted.now supply.now.seg.now supply.now.planes right bottom r s out.new result }
{
    let (encoding, pending, t) = next_encoding(supply, r.pending, s)?;
    let n = tile_count(encoding) as usize;
    let (e0, e1, u) = all_tiles(supply, n, r.e0, r.e1, t, out)?;
    let (s0, s1, v) = positions(supply, right, bottom, r.s0, r.s1, u, out)?;
    let next = Carried {
        pending,
        e0,
        e1,
        s0,
        s1,
    };
    Ok((encoding, next, v))
}
