// The levels of a file put into a container, each straight into its place, by decoder tables that are made once.
#![tactic(auto)]

ghost use Rattle.std.specs.Prelude.{◌≡◌, true, ◌+◌, ◌*◌, ◌<◌, ◌≤◌, length};
ghost use Rattle.crn_format.specs.Header.{within_limits};
ghost use Rattle.crn_format.specs.Unpacking.{tables_hold};
ghost use Rattle.crn_format.specs.declared.Tables.{Tables};
ghost use Rattle.crn_formats.specs.Lent.{lent};
ghost use Rattle.crn_formats.specs.Records.{tables_lent, tables_sliced, record_lent, record_sliced};
ghost use Rattle.crn_decoders.specs.Tables.{AllFair, Able};
ghost use Rattle.crn_drawing.specs.Levels.{Made, Tabled, record_with};
ghost use Rattle.picture.specs.Surfaces.{picture_of, chain as chain_of, by_face};
ghost use Rattle.picture.specs.Writing.{nothing, put_from};
ghost use Rattle.picture_levels.specs.Puts.{Puts};

use crn_decoders::{Decoders, Sizes, make_tables, sizes_for};
use crn_format::{Header, Kind, Refusal};
use crn_formats::{CodeTables, Palettes, TableSlices};
use crn_grid::{columns_of, rows_of};
use crn_level::unpack_made;
use crn_sizes::level_sizes;

// The levels of a file that went into their places: their symbols and cut-outs.
#[derive(Clone, Copy)]
pub struct Put {
    pub symbols: u64,
    pub cutouts: u64,
}

// A level refused: the refusal, the level, the bit that the refusal names, and the symbols drawn until then.
#[derive(Clone, Copy)]
pub struct NotPut {
    pub refusal: Refusal,
    pub level: u32,
    pub at: usize,
    pub symbols: u64,
}

// Faces outermost, after a head of so many bytes; from a face to the next it is the bytes of all its levels.
fn put_by_face(
    h: Header,
    made: &Decoders,
    file: &[u8],
    palettes: &Palettes,
    head: usize,
    step: usize,
    dst: &mut [u8],
) -> Result<Put, NotPut>
    requires tabled { Tabled h made.now.sizes made.now.lookup.now made.now.sorted.now }
    requires step_same { step ≡ chain_of (picture_of h) }
    requires room { head + h.faces * step ≤ length dst.old }
    ensures { (t : Tables) → Made (record_with h t) made.now.sizes made.now.lookup.now made.now.sorted.now
        → Puts (put_from h.levels (by_face head (picture_of h)) (record_with h t) file.now
        (lent palettes.now) 0 nothing dst.old)
        dst.old dst.new result }
{
    let mut from = head;
    let mut symbols = 0;
    let mut cutouts = 0;
    for level in 0..h.levels {
        let z = level_sizes(h, level);
        let mut budget = z.symbols;
        let drawn = unpack_made(
            h,
            made,
            file,
            palettes,
            level,
            z.pitch,
            step,
            &mut budget,
            &mut dst[from..],
        );
        symbols += z.symbols - budget;
        match drawn {
            Err(e) => {
                dst.fill(0);
                return Err(NotPut {
                    refusal: e.refusal,
                    level,
                    at: e.at,
                    symbols,
                });
            }
            Ok(unpacked) => {
                from += z.distance;
                cutouts += unpacked.cutouts;
            }
        }
    }
    Ok(Put { symbols, cutouts })
}

// The decoder tables made in arrays of so many words and symbols, and then the levels put.
fn put_in<const WORDS: usize, const SYMBOLS: usize>(
    h: Header,
    tables: &TableSlices,
    s: Sizes,
    file: &[u8],
    palettes: &Palettes,
    head: usize,
    chain: usize,
    dst: &mut [u8],
) -> Result<Put, NotPut>
    requires within_limits { within_limits h ≡ true }
    requires tables_hold { tables_hold (tables_sliced tables.now) ≡ true }
    requires all_fair { AllFair (tables_sliced tables.now) s.sorted_step }
    requires able { Able s WORDS SYMBOLS }
    requires in_memory { (WORDS < 65536) × (SYMBOLS < 65536) }
    requires chain_same { chain ≡ chain_of (picture_of h) }
    requires room { head + h.faces * chain ≤ length dst.old }
    ensures { Puts (put_from h.levels (by_face head (picture_of h))
        (record_sliced h tables.now) file.now
        (lent palettes.now) 0 nothing dst.old)
        dst.old dst.new result }
{
    let mut lookup = [0u32; WORDS];
    let mut sorted = [0u16; SYMBOLS];
    let kind = Kind::from(h.format);
    make_tables(
        kind.has_color(),
        kind.has_alpha(),
        tables,
        s,
        &mut lookup,
        &mut sorted,
    );
    let made = Decoders {
        sizes: s,
        lookup: &lookup,
        sorted: &sorted,
    };
    put_by_face(h, &made, file, palettes, head, chain, dst)
}

// The levels put into their places, or all zero where one is refused; by small or by large decoder tables: of each there is room for five.
pub fn put_levels(
    h: Header,
    tables: &CodeTables,
    file: &[u8],
    palettes: &Palettes,
    head: usize,
    chain: usize,
    dst: &mut [u8],
) -> Result<Put, NotPut>
    requires within_limits { within_limits h ≡ true }
    requires tables_hold { tables_hold (tables_lent tables.now) ≡ true }
    requires chain_same { chain ≡ chain_of (picture_of h) }
    requires room { head + h.faces * chain ≤ length dst.old }
    ensures { Puts (put_from h.levels (by_face head (picture_of h))
        (record_lent h tables.now) file.now
        (lent palettes.now) 0 nothing dst.old)
        dst.old dst.new result }
{
    let slices = tables.as_slices();
    let s = sizes_for(slices.counts, columns_of(h, 0), rows_of(h, 0));
    if 1024 < s.sorted_step {
        put_in::<20640, 40960>(h, &slices, s, file, palettes, head, chain, dst)
    } else if 288 < s.lookup_step {
        put_in::<10400, 5120>(h, &slices, s, file, palettes, head, chain, dst)
    } else {
        put_in::<1440, 5120>(h, &slices, s, file, palettes, head, chain, dst)
    }
}
