// All levels of a file from one on, in one call: the decoder tables are made once.
#![tactic(auto)]

ghost use Rattle.std.specs.Prelude.{◌≡◌, true, ◌-◌, ◌<◌};
ghost use Rattle.crn_format.specs.Refusals.{number_of};
ghost use Rattle.crn_format.specs.Header.{within_limits};
ghost use Rattle.crn_format.specs.Unpacking.{tables_hold};
ghost use Rattle.crn_format.specs.declared.Tables.{Tables};
ghost use Rattle.crn_formats.specs.Lent.{lent};
ghost use Rattle.crn_formats.specs.Records.{tables_sliced, record_lent, record_sliced};
ghost use Rattle.crn_decoders.specs.Tables.{AllFair, Able};
ghost use Rattle.crn_drawing.specs.Levels.{Made, Tabled, record_with};
ghost use Rattle.crn_levels.specs.Several.{begun, several_from, several_of, Gives};
ghost use Rattle.crn_levels.specs.Answers.{stopped_by, none_by};

use crn_bounds::within_limits;
use crn_decoders::{Decoders, Sizes, make_tables, sizes_for, tables_hold};
use crn_drawing::Refused;
use crn_format::{Header, Kind, Refusal};
use crn_formats::{CodeTables, Palettes, TableSlices};
use crn_grid::{columns_of, rows_of};
use crn_level::unpack_made;
use crn_sizes::level_sizes;

// How many levels went through and their cut-outs, and the symbols drawn in all; and the refusal of the level after them, with the bit that
// it names, 0 where each went through.
#[repr(C)]
#[derive(Clone, Copy)]
pub struct Several {
    pub refusal: u32,
    pub at: usize,
    pub levels: u32,
    pub symbols: u64,
    pub cutouts: u64,
}

// The answer where a level is refused.
fn stopped(e: Refused, levels: u32, symbols: u64, cutouts: u64) -> Several
    ensures { result ≡ stopped_by e levels symbols cutouts }
{
    Several {
        refusal: e.refusal.into(),
        at: e.at,
        levels,
        symbols,
        cutouts,
    }
}

// The levels from `first` on, by decoder tables that are made.
fn levels_by(
    h: Header,
    made: &Decoders,
    file: &[u8],
    palettes: &Palettes,
    first: u32,
    budget: &mut u64,
    dst: &mut [u8],
) -> Several
    requires { Tabled h made.now.sizes made.now.lookup.now made.now.sorted.now }
    ensures { (t : Tables) → Made (record_with h t) made.now.sizes made.now.lookup.now made.now.sorted.now
        → Gives (several_from (h.levels - first) (record_with h t) file.now (lent palettes.now) (begun first budget.old) dst.old)
        budget.new dst.new result }
{
    let all = *budget;
    let mut from = 0;
    let mut cutouts = 0;
    for level in first..h.levels {
        let z = level_sizes(h, level);
        match unpack_made(
            h,
            made,
            file,
            palettes,
            level,
            z.pitch,
            z.distance,
            budget,
            &mut dst[from..],
        ) {
            Err(e) => return stopped(e, level - first, all - *budget, cutouts),
            Ok(unpacked) => {
                from += z.bytes;
                cutouts += unpacked.cutouts;
            }
        }
    }
    Several {
        refusal: 0,
        at: 0,
        levels: h.levels.saturating_sub(first),
        symbols: all - *budget,
        cutouts,
    }
}

// The decoder tables made in arrays of so many words and symbols, and then the levels.
fn levels_in<const WORDS: usize, const SYMBOLS: usize>(
    h: Header,
    tables: &TableSlices,
    s: Sizes,
    file: &[u8],
    palettes: &Palettes,
    first: u32,
    budget: &mut u64,
    dst: &mut [u8],
) -> Several
    requires within_limits { within_limits h ≡ true }
    requires tables_hold { tables_hold (tables_sliced tables.now) ≡ true }
    requires all_fair { AllFair (tables_sliced tables.now) s.sorted_step }
    requires able { Able s WORDS SYMBOLS }
    requires in_memory { (WORDS < 65536) × (SYMBOLS < 65536) }
    ensures { Gives (several_from (h.levels - first) (record_sliced h tables.now) file.now (lent palettes.now)
        (begun first budget.old) dst.old)
        budget.new dst.new result }
{
    let mut lookup = [0u32; WORDS];
    let mut sorted = [0u16; SYMBOLS];
    let kind = Kind::from(h.format);
    make_tables(
        kind.has_color(),
        kind.has_alpha(),
        tables,
        s,
        &mut lookup,
        &mut sorted,
    );
    let made = Decoders {
        sizes: s,
        lookup: &lookup,
        sorted: &sorted,
    };
    levels_by(h, &made, file, palettes, first, budget, dst)
}

// The answer where the first level is refused before the tables are made.
fn none(refusal: Refusal) -> Several
    ensures { result ≡ none_by (number_of refusal) }
{
    Several {
        refusal: refusal.into(),
        at: 0,
        levels: 0,
        symbols: 0,
        cutouts: 0,
    }
}

// The levels of a record, which comes by its parts, from `first` on to the last, each with its rows and faces close together, and its
// blocks where those of the level before end. No more is zeroed for the decoder tables than the first level's need.
pub fn unpack_levels(
    header: Header,
    tables: &CodeTables,
    file: &[u8],
    palettes: &Palettes,
    first: u32,
    budget: &mut u64,
    dst: &mut [u8],
) -> Several
    ensures { Gives (several_of (record_lent header tables.now) file.now (lent palettes.now) first budget.old dst.old)
        budget.new dst.new result }
{
    if !within_limits(header) {
        return none(Refusal::BeyondLimits);
    }
    let slices = tables.as_slices();
    if !tables_hold(&slices) {
        return none(Refusal::NoCode);
    }
    if header.levels <= first {
        return none(Refusal::NoLevel);
    }
    let s = sizes_for(
        slices.counts,
        columns_of(header, first),
        rows_of(header, first),
    );
    if 1024 < s.sorted_step {
        levels_in::<20640, 40960>(header, &slices, s, file, palettes, first, budget, dst)
    } else if 288 < s.lookup_step {
        levels_in::<10400, 5120>(header, &slices, s, file, palettes, first, budget, dst)
    } else {
        levels_in::<1440, 5120>(header, &slices, s, file, palettes, first, budget, dst)
    }
}
