// The palettes and tables of a file that was looked at, by the look's header (document 02, request 2).
ghost use Rattle.crn_formats.specs.Lent.{lent_of};
ghost use Rattle.std.specs.Prelude.{◌≡◌};
ghost use Rattle.crn_opening.specs.Opens.{arrays_of};
ghost use Rattle.crunch_abi.specs.Opening.{flat_of, Loads};

use crn_format::{Fault, Header};
use crn_formats::Counts;
use crunch::OpenedParts;

// Refusal 0 with the header and the tables' counts; else the refusal, the bit that it names (0 before the streams), and the empty record's.
#[repr(C)]
#[derive(Clone, Copy)]
pub struct OpenedHeader {
    pub refusal: u32,
    pub at: usize,
    pub header: Header,
    pub counts: Counts,
}

// An opening's answer as one struct.
pub fn flat(opened: Result<OpenedParts, Fault>) -> OpenedHeader
    ensures { result ≡ flat_of opened }
{
    match opened {
        Ok(parts) => OpenedHeader {
            refusal: 0,
            at: 0,
            header: parts.header,
            counts: parts.counts,
        },
        Err(fault) => OpenedHeader {
            refusal: fault.refusal.into(),
            at: fault.at,
            header: Header::default(),
            counts: Counts::default(),
        },
    }
}

// Refusal 17, with nothing touched that was lent, where the header is not what the look finds in this file; else what `crunch_open_parts`
// answers and leaves.
pub fn crunch_load_parts(
    header: Header,
    file: &[u8],
    color_endpoints: &mut [u32],
    color_selectors: &mut [u32],
    alpha_endpoints: &mut [u16],
    alpha_selectors: &mut [u16],
    chunk: &mut [u8; 8192],
    color_ends: &mut [u8; 8192],
    color_sels: &mut [u8; 8192],
    alpha_ends: &mut [u8; 8192],
    alpha_sels: &mut [u8; 8192],
) -> OpenedHeader
    ensures { Loads header file.now
        (lent_of color_endpoints.old color_selectors.old
        alpha_endpoints.old alpha_selectors.old)
        (lent_of color_endpoints.new color_selectors.new
        alpha_endpoints.new alpha_selectors.new)
        (arrays_of chunk.old color_ends.old color_sels.old
        alpha_ends.old alpha_sels.old)
        (arrays_of chunk.new color_ends.new color_sels.new
        alpha_ends.new alpha_sels.new)
        result }
{
    flat(crunch::load_into(
        header,
        file,
        color_endpoints,
        color_selectors,
        alpha_endpoints,
        alpha_selectors,
        chunk,
        color_ends,
        color_sels,
        alpha_ends,
        alpha_sels,
    ))
}
