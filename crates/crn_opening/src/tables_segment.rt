// The tables segment: the code tables of the file's levels (document 01, Codes), received into five lent arrays.
ghost use Rattle.std.specs.Prelude.{◌≡◌, ◌<◌, length, replicate};
ghost use Rattle.crn_format.specs.Limits.{too_long, max_symbols};
ghost use Rattle.crn_format.specs.Reading.{start, run, from_bits};
ghost use Rattle.crn_format.specs.Opening.{sent_tables};
ghost use Rattle.crn_symbol_codec.specs.Cursors.{Holds};
ghost use Rattle.crn_opening.specs.SentTables.{Pairs, told, sent_of};
ghost use Rattle.crn_opening.specs.Lending.{lengths_in, SameLengths, NoLengths};

use crate::lent::LengthsMut;
use crn_code_tables::receive;
use crn_format::{Fault, Header};
use crn_formats::Counts;
use crn_symbol_codec::Cursor;

// How many symbols a plane's two delta tables have, and the cursor after them. The tables of a plane that is absent are empty, and nothing
// is read for them.
fn plane_tables(
    seg: &[u8],
    c: Cursor,
    there: bool,
    endpoints: &mut [u8; 8192],
    selectors: &mut [u8; 8192],
) -> Result<((u32, u32), Cursor), Fault>
    requires holds { Holds seg.now c }
    requires seg_long { length seg.now < too_long }
    requires both_zero { (endpoints.old ≡ replicate max_symbols 0) × (selectors.old ≡ replicate max_symbols 0) }
    ensures { Pairs seg.now there c result endpoints.new selectors.new }
{
    if !there {
        return Ok(((0, 0), c));
    }
    let (ends, next) = receive(seg, c, endpoints)?;
    let (sels, after) = receive(seg, next, selectors)?;
    Ok(((ends, sels), after))
}

// "Chunk table; if colour endpoints are present, their delta table and the colour selectors'; likewise alpha."
pub fn read_tables(seg: &[u8], h: Header, lengths: &mut LengthsMut) -> Result<Counts, Fault>
    requires seg_long { length seg.now < too_long }
    requires all_zero { NoLengths (lengths_in lengths.old) }
    ensures same { SameLengths lengths.old lengths.new }
    ensures tells { told result (lengths_in lengths.new) ≡ sent_of (run (from_bits seg.now) (sent_tables h) start) }
{
    let (chunk, after_chunk) = receive(seg, crn_symbol_codec::start(seg), lengths.chunk)?;
    let ((color_ends, color_sels), after_color) = plane_tables(
        seg,
        after_chunk,
        0 < h.color_endpoints.count,
        lengths.color_ends,
        lengths.color_sels,
    )?;
    let ((alpha_ends, alpha_sels), _) = plane_tables(
        seg,
        after_color,
        0 < h.alpha_endpoints.count,
        lengths.alpha_ends,
        lengths.alpha_sels,
    )?;
    Ok(Counts {
        chunk,
        color_ends,
        color_sels,
        alpha_ends,
        alpha_sels,
    })
}
