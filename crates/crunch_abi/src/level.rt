// A level unpacked, its answer as one struct; and several levels.
ghost use Rattle.std.specs.Prelude.{◌≡◌};
ghost use Rattle.crn_format.specs.Unpacking.{unpacking as unpacking_of};
ghost use Rattle.crn_formats.specs.Lent.{lent_of};
ghost use Rattle.crn_formats.specs.Records.{record_by};
ghost use Rattle.crn_levels.specs.Several.{several_of, Gives};
ghost use Rattle.crunch_abi.specs.Answers.{answer_of, Answers};

use crn_format::Header;
use crn_formats::{CodeTables, Counts, Palettes};
use crn_level::Drawn;
use crn_levels::Several;

// Refusal 0 with the symbols drawn and the cut-outs; or the refusal, the bit that it names and the symbols drawn.
#[repr(C)]
#[derive(Clone, Copy)]
pub struct Answer {
    pub refusal: u32,
    pub at: usize,
    pub symbols: u64,
    pub cutouts: u64,
}

// An answer as one struct: an enum is nothing that a host of another language could take apart.
fn flat(u: Drawn) -> Answer
    ensures { result ≡ answer_of u }
{
    match u {
        Ok(unpacked) => Answer {
            refusal: 0,
            at: 0,
            symbols: unpacked.symbols,
            cutouts: unpacked.cutouts,
        },
        Err(refused) => Answer {
            refusal: refused.refusal.into(),
            at: refused.at,
            symbols: refused.symbols,
            cutouts: 0,
        },
    }
}

// A level unpacked into a lent destination, of a record by its parts.
pub fn crunch_unpack_level_parts<'a>(
    header: Header,
    counts: Counts,
    chunk: &'a [u8; 8192],
    color_ends: &'a [u8; 8192],
    color_sels: &'a [u8; 8192],
    alpha_ends: &'a [u8; 8192],
    alpha_sels: &'a [u8; 8192],
    file: &[u8],
    color_endpoints: &[u32],
    color_selectors: &[u32],
    alpha_endpoints: &[u16],
    alpha_selectors: &[u16],
    level: u32,
    pitch: usize,
    distance: usize,
    budget: &mut u64,
    dst: &mut [u8],
) -> Answer
    ensures { Answers (unpacking_of (record_by header counts chunk.now color_ends.now color_sels.now alpha_ends.now alpha_sels.now) file.now (lent_of color_endpoints.now color_selectors.now alpha_endpoints.now alpha_selectors.now) level pitch distance budget.old dst.old) budget.old budget.new dst.new result }
{
    flat(crunch::unpack_level_by(
        header,
        &CodeTables {
            counts,
            chunk,
            color_ends,
            color_sels,
            alpha_ends,
            alpha_sels,
        },
        file,
        &Palettes {
            color_endpoints,
            color_selectors,
            alpha_endpoints,
            alpha_selectors,
        },
        level,
        pitch,
        distance,
        budget,
        dst,
    ))
}

// The levels from `first` on to the last, of a record by its parts, one after another in a lent destination.
pub fn crunch_unpack_levels_parts<'a>(
    header: Header,
    counts: Counts,
    chunk: &'a [u8; 8192],
    color_ends: &'a [u8; 8192],
    color_sels: &'a [u8; 8192],
    alpha_ends: &'a [u8; 8192],
    alpha_sels: &'a [u8; 8192],
    file: &[u8],
    color_endpoints: &[u32],
    color_selectors: &[u32],
    alpha_endpoints: &[u16],
    alpha_selectors: &[u16],
    first: u32,
    budget: &mut u64,
    dst: &mut [u8],
) -> Several
    ensures { Gives (several_of (record_by header counts chunk.now color_ends.now color_sels.now alpha_ends.now alpha_sels.now) file.now (lent_of color_endpoints.now color_selectors.now alpha_endpoints.now alpha_selectors.now) first budget.old dst.old) budget.new dst.new result }
{
    crn_levels::unpack_levels(
        header,
        &CodeTables {
            counts,
            chunk,
            color_ends,
            color_sels,
            alpha_ends,
            alpha_sels,
        },
        file,
        &Palettes {
            color_endpoints,
            color_selectors,
            alpha_endpoints,
            alpha_selectors,
        },
        first,
        budget,
        dst,
    )
}
