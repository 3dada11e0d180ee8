// A DDS file written from an opened one, and how many bytes that takes.
#![tactic(auto)]

ghost use Rattle.std.specs.Prelude.{◌≡◌, true, ◌+◌, ◌*◌};
ghost use Rattle.crn_format.specs.Refusals.{number_of};
ghost use Rattle.crn_format.specs.Header.{within_limits};
ghost use Rattle.crn_formats.specs.Lent.{lent};
ghost use Rattle.crn_formats.specs.Records.{record_lent};
ghost use Rattle.picture.specs.Surfaces.{picture_of, chain as chain_of};
ghost use Rattle.picture.specs.Writing.{early, writing};
ghost use Rattle.picture.specs.Answers.{stopped_by, Writes, needed, needed_for};
ghost use Rattle.dds.specs.Header.{head_bytes, dds_of};

use crn_bounds::within_limits;
use crn_decoders::tables_hold;
use crn_format::{Header, Refusal};
use crn_formats::{CodeTables, Palettes};
use header::{HEAD_BYTES, put_header};
use picture::{Written, chain_bytes, goes_out};
use picture_levels::put_levels;

mod header; // the magic and the header

// Of a header within the limits, whose levels of one face have `chain` bytes.
fn total_of(h: Header, chain: usize) -> usize
    requires within_limits { within_limits h ≡ true }
    requires chain_same { chain ≡ chain_of (picture_of h) }
    ensures { result ≡ head_bytes + h.faces * chain }
{
    HEAD_BYTES + h.faces as usize * chain
}

// What a host has to lend for a file of this header.
pub fn dds_bytes(header: Header) -> Result<usize, Refusal>
    ensures { needed result ≡ needed_for dds_of header }
{
    if !within_limits(header) {
        return Err(Refusal::BeyondLimits);
    }
    if !goes_out(header.format) {
        return Err(Refusal::NotWritten);
    }
    Ok(total_of(header, chain_bytes(header)))
}

// The answer where nothing is written.
fn none(refusal: Refusal) -> Written
    ensures { result ≡ stopped_by (early (number_of refusal)) }
{
    Written {
        refusal: refusal.into(),
        level: 0,
        at: 0,
        bytes: 0,
        symbols: 0,
        cutouts: 0,
    }
}

// A record, which comes by its parts, written as a DDS file. "2 and 6 on the record first, then 16 any other format, then 12, all before any
// byte is written; a level's later refusal zeroes the whole output region."
pub fn write_dds(
    header: Header,
    tables: &CodeTables,
    file: &[u8],
    palettes: &Palettes,
    dst: &mut [u8],
) -> Written
    ensures { Writes (writing dds_of
        (record_lent header tables.now) file.now
        (lent palettes.now) dst.old)
        dst.new result }
{
    if !within_limits(header) {
        return none(Refusal::BeyondLimits);
    }
    let slices = tables.as_slices();
    if !tables_hold(&slices) {
        return none(Refusal::NoCode);
    }
    let chain = chain_bytes(header);
    let total = total_of(header, chain);
    if !goes_out(header.format) {
        return none(Refusal::NotWritten);
    }
    if dst.len() < total {
        return none(Refusal::NoRoom);
    }
    let region = &mut dst[..total];
    let put = put_levels(header, tables, file, palettes, HEAD_BYTES, chain, region);
    match put {
        Ok(levels) => {
            put_header(header, region);
            Written {
                refusal: 0,
                level: 0,
                at: 0,
                bytes: total,
                symbols: levels.symbols,
                cutouts: levels.cutouts,
            }
        }
        Err(e) => Written {
            refusal: e.refusal.into(),
            level: e.level,
            at: e.at,
            bytes: 0,
            symbols: e.symbols,
            cutouts: 0,
        },
    }
}
