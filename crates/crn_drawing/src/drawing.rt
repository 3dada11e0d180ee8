// The level: its tables made, its chunks painted; the budget counted down, and the grid cleared after a refusal.
ghost use Rattle.std.specs.Prelude.{◌≡◌, List, ℕ, ◌<◌, ◌≤◌, length};
ghost use Rattle.crn_format.specs.Header.{kind_of};
ghost use Rattle.crn_format.specs.Unpacking.{cutout_count, drawn_level};
ghost use Rattle.crn_formats.specs.Lent.{lent};
ghost use Rattle.crn_formats.specs.Records.{tables_sliced, record_sliced};
ghost use Rattle.crn_chunks.specs.Meaning.{Coded};
ghost use Rattle.crn_blocks.specs.Sheet.{Room, standing};
ghost use Rattle.crn_unpacker.specs.Going.{given_in, Fit};
ghost use Rattle.crn_drawing.specs.Unpacks.{Unpacks};
ghost use Rattle.crn_decoders.specs.Tables.{Long, AllFair, Able};
ghost use Rattle.crn_drawing.specs.Levels.{Refuses, Finishes, Checked, ended_by};

use crate::{Drawn, Refused, Unpacked};
use crn_blocks::{clear, cutouts};
use crn_chunks::{Stop, Stream, Supply};
use crn_decoders::{Sizes, make_tables, planes_of, sizes_for};
use crn_format::{Grid, Header, Kind};
use crn_formats::{Palettes, TableSlices};
use crn_symbol_codec::start;
use crn_unpacker::{Level, paint};

// A refusal of the stream zeroes the grid's blocks.
fn refuse(x: Stop, all: u64, g: Grid, budget: &mut u64, dst: &mut [u8]) -> Refused
    requires { (Room g (length dst.old)) × (x.left ≤ all) }
    ensures { Refuses x all g budget.new dst.old dst.new result }
{
    clear(dst, g);
    *budget = x.left;
    Refused {
        refusal: x.refusal,
        symbols: all - x.left,
        at: x.at,
    }
}

// "DXT1 blocks, over all faces .. (0 for other formats)."
fn count_cutouts(kind: Kind, dst: &[u8], g: Grid) -> u64
    requires { Room g (length dst.now) }
    ensures { result ≡ cutout_count kind g (standing g dst.now) }
{
    match kind {
        Kind::DXT1 => cutouts(dst, g),
        _ => 0,
    }
}

fn finish(left: u64, all: u64, kind: Kind, g: Grid, budget: &mut u64, dst: &[u8]) -> Unpacked
    requires { (Room g (length dst.now)) × (left ≤ all) }
    ensures { Finishes left all kind g budget.new dst.now result }
{
    *budget = left;
    Unpacked {
        symbols: all - left,
        cutouts: count_cutouts(kind, dst, g),
    }
}

// The chunks, by decoder tables that are made.
pub fn draw_chunks(format: u32, level: &Level, budget: &mut u64, dst: &mut [u8]) -> Drawn
    requires { Fit (given_in level.now) (length dst.old) }
    ensures { (cs : ℕ → List ℕ) → Coded cs level.now.supply.planes level.now.supply.lookup.now level.now.supply.sorted.now
        → Unpacks (ended_by (kind_of format) cs (given_in level.now) budget.old dst.old) budget.old budget.new dst.new result }
{
    let all = *budget;
    let first = Stream {
        cursor: start(level.supply.seg),
        blamed: 0,
        left: all,
    };
    match paint(dst, level, first) {
        Ok((_, last)) => Ok(finish(last.left, all, Kind::from(format), level.grid, budget, dst)),
        Err(x) => Err(refuse(x, all, level.grid, budget, dst)),
    }
}

// The level by decoder tables that are made in arrays of so many words and symbols.
fn draw_in<const WORDS: usize, const SYMBOLS: usize>(
    h: Header,
    tables: &TableSlices,
    s: Sizes,
    seg: &[u8],
    palettes: &Palettes,
    g: Grid,
    budget: &mut u64,
    dst: &mut [u8],
) -> Drawn
    requires checked { Checked (record_sliced h tables.now) seg.now (lent palettes.now) g (length dst.old) }
    requires all_fair { AllFair (tables_sliced tables.now) s.sorted_step }
    requires able { Able s WORDS SYMBOLS }
    requires in_memory { (WORDS < 65536) × (SYMBOLS < 65536) }
    ensures { Unpacks (drawn_level (record_sliced h tables.now) seg.now (lent palettes.now) g budget.old dst.old)
        budget.old budget.new dst.new result }
{
    let mut lookup = [0u32; WORDS];
    let mut sorted = [0u16; SYMBOLS];
    let kind = Kind::from(h.format);
    make_tables(
        kind.has_color(),
        kind.has_alpha(),
        tables,
        s,
        &mut lookup,
        &mut sorted,
    );
    let level = Level {
        supply: Supply {
            lookup: &lookup,
            sorted: &sorted,
            seg,
            planes: planes_of(h, s),
        },
        palettes: *palettes,
        grid: g,
    };
    draw_chunks(h.format, &level, budget, dst)
}

// A level whose checks have passed. No more is zeroed than its tables need: a small grid has small lookups, few symbols little room.
pub fn draw_level(
    h: Header,
    tables: &TableSlices,
    seg: &[u8],
    palettes: &Palettes,
    g: Grid,
    budget: &mut u64,
    dst: &mut [u8],
) -> Drawn
    requires checked { Checked (record_sliced h tables.now) seg.now (lent palettes.now) g (length dst.old) }
    requires long { Long (tables_sliced tables.now) }
    ensures { Unpacks (drawn_level (record_sliced h tables.now) seg.now (lent palettes.now) g budget.old dst.old)
        budget.old budget.new dst.new result }
{
    let s = sizes_for(tables.counts, g.columns, g.rows);
    if 1024 < s.sorted_step {
        draw_in::<20640, 40960>(h, tables, s, seg, palettes, g, budget, dst)
    } else if 288 < s.lookup_step {
        draw_in::<10400, 5120>(h, tables, s, seg, palettes, g, budget, dst)
    } else {
        draw_in::<1440, 5120>(h, tables, s, seg, palettes, g, budget, dst)
    }
}
