// A DDS file written, and how many bytes it takes.
ghost use Rattle.std.specs.Prelude.{◌≡◌};
ghost use Rattle.crn_formats.specs.Lent.{lent_of};
ghost use Rattle.crn_formats.specs.Records.{record_by};
ghost use Rattle.picture.specs.Writing.{writing};
ghost use Rattle.picture.specs.Answers.{Writes, needed_for};
ghost use Rattle.dds.specs.Header.{dds_of};

use crn_format::Header;
use crn_formats::{CodeTables, Counts, Palettes};
use crunch::Written;
use picture::Needed;

// What a host has to lend for a DDS file of this header: refusal 2 or 16, or so many bytes.
pub fn crunch_dds_bytes(header: Header) -> Needed
    ensures { result ≡ needed_for dds_of header }
{
    match crunch::dds_bytes(header) {
        Ok(bytes) => Needed { refusal: 0, bytes },
        Err(refusal) => Needed {
            refusal: refusal.into(),
            bytes: 0,
        },
    }
}

// All levels of a record by its parts, as a DDS file in the first bytes of a lent destination.
pub fn crunch_write_dds_parts<'a>(
    header: Header,
    counts: Counts,
    chunk: &'a [u8; 8192],
    color_ends: &'a [u8; 8192],
    color_sels: &'a [u8; 8192],
    alpha_ends: &'a [u8; 8192],
    alpha_sels: &'a [u8; 8192],
    file: &[u8],
    color_endpoints: &[u32],
    color_selectors: &[u32],
    alpha_endpoints: &[u16],
    alpha_selectors: &[u16],
    dst: &mut [u8],
) -> Written
    ensures { Writes (writing dds_of
        (record_by header counts chunk.now color_ends.now color_sels.now alpha_ends.now
        alpha_sels.now) file.now
        (lent_of color_endpoints.now color_selectors.now alpha_endpoints.now
        alpha_selectors.now) dst.old)
        dst.new result }
{
    crunch::write_dds(
        header,
        &CodeTables {
            counts,
            chunk,
            color_ends,
            color_sels,
            alpha_ends,
            alpha_sels,
        },
        file,
        &Palettes {
            color_endpoints,
            color_selectors,
            alpha_endpoints,
            alpha_selectors,
        },
        dst,
    )
}
