// Unpacking a level: "2, 6, 10, 4, 5, 11, 12, all before the first draw and with the destination untouched, then the stream"
// (document 01, Refusal numbers).
ghost use Rattle.std.specs.Prelude.{◌≡◌, true, ◌<◌, length};
ghost use Rattle.crn_format.specs.Limits.{too_long};
ghost use Rattle.crn_format.specs.Refusals.{number_in};
ghost use Rattle.crn_format.specs.Unpacking.{level_stands, level_segment, grid_of, unpacking as unpacking_of};
ghost use Rattle.crn_format.specs.declared.Tables.{Tables};
ghost use Rattle.crn_formats.specs.Lent.{lent};
ghost use Rattle.crn_formats.specs.Records.{record_lent};
ghost use Rattle.crn_drawing.specs.Unpacks.{Unpacks};
ghost use Rattle.crn_drawing.specs.Levels.{record_with, Made, Tabled};
ghost use Rattle.crn_level.specs.Refusals.{refusal_by, refused};

use crn_bounds::within_limits;
use crn_chunks::Supply;
use crn_decoders::{Decoders, planes_of, tables_hold};
use crn_drawing::{Drawn, Refused, draw_chunks, draw_level};
use crn_format::{Grid, Header, Kind, Record, Refusal};
use crn_formats::{CodeTables, Counts, Palettes};
use crn_grid::{columns_of, grid_fits, reaches, rows_of};
use crn_level_checks::{level_end, level_stands, level_start, palettes_reach};
use crn_unpacker::Level;

// The checks of a level with n bytes lent for it, in their order: the first that fails decides. Whether the tables hold is known.
#[tactic(auto, unfolding(crate::specs::Refusals::first_failed))]
fn check(
    h: Header,
    tables: bool,
    file: &[u8],
    palettes: &Palettes,
    level: u32,
    pitch: usize,
    distance: usize,
    n: usize,
) -> Result<(), Refusal>
    ensures { number_in result ≡ refusal_by h tables file.now (lent palettes.now) level pitch distance n }
{
    if !within_limits(h) {
        return Err(Refusal::BeyondLimits);
    }
    if !tables {
        return Err(Refusal::NoCode);
    }
    if h.levels <= level {
        return Err(Refusal::NoLevel);
    }
    if !level_stands(file, h, level) {
        return Err(Refusal::NoSegment);
    }
    if !palettes_reach(h, palettes) {
        return Err(Refusal::ShortPalettes);
    }
    if !grid_fits(h, level, pitch, distance) {
        return Err(Refusal::WrongGrid);
    }
    if !reaches(h, level, pitch, distance, n) {
        return Err(Refusal::NoRoom);
    }
    Ok(())
}

fn grid_of(h: Header, level: u32, pitch: usize, distance: usize) -> Grid
    ensures { result ≡ grid_of h level pitch distance }
{
    Grid {
        faces: h.faces as usize,
        columns: columns_of(h, level),
        rows: rows_of(h, level),
        bytes: Kind::from(h.format).block_bytes() as usize,
        pitch,
        distance,
    }
}

fn segment_of(file: &[u8], h: Header, level: u32) -> &[u8]
    requires { level_stands file.now h level ≡ true }
    ensures { (result.now ≡ level_segment file.now h level) × (length result.now < too_long) }
{
    let start = level_start(h, level);
    let end = level_end(file, h, level);
    &file[start..end]
}

// A refusal before the first draw.
fn refused(refusal: Refusal) -> Drawn
    ensures { result ≡ refused refusal }
{
    Err(Refused {
        refusal,
        symbols: 0,
        at: 0,
    })
}

// A level, all faces, into the lent destination; the budget is counted down by the symbols drawn. The record comes by its parts, with the
// lengths of its tables lent: a record is too large to be copied at each level.
pub fn unpack_level_by(
    header: Header,
    tables: &CodeTables,
    file: &[u8],
    palettes: &Palettes,
    level: u32,
    pitch: usize,
    distance: usize,
    budget: &mut u64,
    dst: &mut [u8],
) -> Drawn
    ensures { Unpacks (unpacking_of (record_lent header tables.now) file.now (lent palettes.now) level pitch distance budget.old dst.old)
        budget.old budget.new dst.new result }
{
    let slices = tables.as_slices();
    let hold = tables_hold(&slices);
    match check(
        header,
        hold,
        file,
        palettes,
        level,
        pitch,
        distance,
        dst.len(),
    ) {
        Err(refusal) => refused(refusal),
        Ok(()) => draw_level(
            header,
            &slices,
            segment_of(file, header, level),
            palettes,
            grid_of(header, level, pitch, distance),
            budget,
            dst,
        ),
    }
}

// The same by decoder tables that are made of the record's, which hold.
pub fn unpack_made(
    header: Header,
    made: &Decoders,
    file: &[u8],
    palettes: &Palettes,
    level: u32,
    pitch: usize,
    distance: usize,
    budget: &mut u64,
    dst: &mut [u8],
) -> Drawn
    requires { Tabled header made.now.sizes made.now.lookup.now made.now.sorted.now }
    ensures { (t : Tables) → Made (record_with header t) made.now.sizes made.now.lookup.now made.now.sorted.now
        → Unpacks (unpacking_of (record_with header t) file.now (lent palettes.now) level pitch distance budget.old dst.old)
        budget.old budget.new dst.new result }
{
    match check(
        header,
        true,
        file,
        palettes,
        level,
        pitch,
        distance,
        dst.len(),
    ) {
        Err(refusal) => refused(refusal),
        Ok(()) => {
            let drawn = Level {
                supply: Supply {
                    lookup: made.lookup,
                    sorted: made.sorted,
                    seg: segment_of(file, header, level),
                    planes: planes_of(header, made.sizes),
                },
                palettes: *palettes,
                grid: grid_of(header, level, pitch, distance),
            };
            draw_chunks(header.format, &drawn, budget, dst)
        }
    }
}

// The level of a record that is handed over whole.
pub fn unpack_level(
    record: Record,
    file: &[u8],
    palettes: &Palettes,
    level: u32,
    pitch: usize,
    distance: usize,
    budget: &mut u64,
    dst: &mut [u8],
) -> Drawn
    ensures { Unpacks (unpacking_of «record» file.now (lent palettes.now) level pitch distance budget.old dst.old)
        budget.old budget.new dst.new result }
{
    let tables = CodeTables {
        counts: Counts {
            chunk: record.tables.chunk_encoding.count,
            color_ends: record.tables.color_endpoint_delta.count,
            color_sels: record.tables.color_selector_delta.count,
            alpha_ends: record.tables.alpha_endpoint_delta.count,
            alpha_sels: record.tables.alpha_selector_delta.count,
        },
        chunk: &record.tables.chunk_encoding.lengths,
        color_ends: &record.tables.color_endpoint_delta.lengths,
        color_sels: &record.tables.color_selector_delta.lengths,
        alpha_ends: &record.tables.alpha_endpoint_delta.lengths,
        alpha_sels: &record.tables.alpha_selector_delta.lengths,
    };
    unpack_level_by(
        record.header,
        &tables,
        file,
        palettes,
        level,
        pitch,
        distance,
        budget,
        dst,
    )
}
