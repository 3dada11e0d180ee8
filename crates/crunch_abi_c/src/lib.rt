// What C and Rust link: each function of `crunch_abi` and of `texels_abi` under its own name, by the C calling convention and with the same
// clauses. A library exports nothing itself. `rust/archive` makes the archive.
#![tactic(auto)]

ghost use Rattle.std.specs.Prelude.{◌≡◌};
ghost use Rattle.crn_format.specs.Look.{look_at, look_of};
ghost use Rattle.crn_format.specs.Opening.{opening as opening_of};
ghost use Rattle.crn_format.specs.Unpacking.{unpacking as unpacking_of};
ghost use Rattle.crn_formats.specs.Lent.{lent_of};
ghost use Rattle.crn_formats.specs.Records.{record_by};
ghost use Rattle.crn_levels.specs.Several.{several_of, Gives};
ghost use Rattle.crn_opening.specs.Opens.{arrays_of, Opens};
ghost use Rattle.crn_sizes.specs.Sizes.{level_sizes};
ghost use Rattle.crunch_abi.specs.Answers.{Answers};
ghost use Rattle.crunch_abi.specs.Opening.{opened_by, Loads};
ghost use Rattle.crunch_abi.specs.Sizes.{palette_words};
ghost use Rattle.crunch_abi.specs.Version.{abi_version};
ghost use Rattle.dds.specs.Header.{dds_of};
ghost use Rattle.picture.specs.Answers.{Writes, needed_for};
ghost use Rattle.picture.specs.Writing.{writing};
ghost use Rattle.texels.specs.Answers.{Answered};

use bcn_format::Face;
use crn_format::{Header, Looked};
use crn_formats::Counts;
use crunch_abi::{Answer, LevelSizes, Needed, OpenedHeader, PaletteWords, Several, Written};

// The version that this archive has.
#[unsafe(no_mangle)]
pub extern "C" fn crunch_abi_version() -> u32
    ensures { result ≡ abi_version }
{
    crunch_abi::crunch_abi_version()
}

// The header of a file, by which a host sizes the palettes' buffers: refusal 1, 2 or 3 of opening, or 0.
#[unsafe(no_mangle)]
pub extern "C" fn crunch_look(file: &[u8]) -> Looked
    ensures { result ≡ look_of file.now }
{
    crunch_abi::crunch_look(file)
}

// The same of a file of so many bytes that begins with these: its first 122 bytes, or all of a shorter one, are enough.
#[unsafe(no_mangle)]
pub extern "C" fn crunch_look_at(head: &[u8], length: usize) -> Looked
    ensures { result ≡ look_at head.now length }
{
    crunch_abi::crunch_look_at(head, length)
}

// A file opened with four lent buffers, and its record by its parts: the header and the tables' counts in the answer, the tables' lengths
// in five lent arrays.
#[unsafe(no_mangle)]
pub extern "C" fn crunch_open_parts(
    file: &[u8],
    color_endpoints: &mut [u32],
    color_selectors: &mut [u32],
    alpha_endpoints: &mut [u16],
    alpha_selectors: &mut [u16],
    chunk: &mut [u8; 8192],
    color_ends: &mut [u8; 8192],
    color_sels: &mut [u8; 8192],
    alpha_ends: &mut [u8; 8192],
    alpha_sels: &mut [u8; 8192],
) -> OpenedHeader
    ensures { Opens (opening_of file.now (lent_of color_endpoints.old color_selectors.old alpha_endpoints.old alpha_selectors.old)) (lent_of color_endpoints.new color_selectors.new alpha_endpoints.new alpha_selectors.new) (opened_by result chunk.new color_ends.new color_sels.new alpha_ends.new alpha_sels.new) }
{
    crunch_abi::crunch_open_parts(
        file,
        color_endpoints,
        color_selectors,
        alpha_endpoints,
        alpha_selectors,
        chunk,
        color_ends,
        color_sels,
        alpha_ends,
        alpha_sels,
    )
}

// Refusal 17, with nothing touched that was lent, where the header is not what the look finds in this file; else what `crunch_open_parts`
// answers and leaves.
#[unsafe(no_mangle)]
pub extern "C" fn crunch_load_parts(
    header: Header,
    file: &[u8],
    color_endpoints: &mut [u32],
    color_selectors: &mut [u32],
    alpha_endpoints: &mut [u16],
    alpha_selectors: &mut [u16],
    chunk: &mut [u8; 8192],
    color_ends: &mut [u8; 8192],
    color_sels: &mut [u8; 8192],
    alpha_ends: &mut [u8; 8192],
    alpha_sels: &mut [u8; 8192],
) -> OpenedHeader
    ensures { Loads header file.now
        (lent_of color_endpoints.old color_selectors.old
        alpha_endpoints.old alpha_selectors.old)
        (lent_of color_endpoints.new color_selectors.new
        alpha_endpoints.new alpha_selectors.new)
        (arrays_of chunk.old color_ends.old color_sels.old
        alpha_ends.old alpha_sels.old)
        (arrays_of chunk.new color_ends.new color_sels.new
        alpha_ends.new alpha_sels.new)
        result }
{
    crunch_abi::crunch_load_parts(
        header,
        file,
        color_endpoints,
        color_selectors,
        alpha_endpoints,
        alpha_selectors,
        chunk,
        color_ends,
        color_sels,
        alpha_ends,
        alpha_sels,
    )
}

// The words of the four palettes: an alpha selector is three, and a plane without endpoints has none.
#[unsafe(no_mangle)]
pub extern "C" fn crunch_palette_words(header: Header) -> PaletteWords
    ensures { result ≡ palette_words header }
{
    crunch_abi::crunch_palette_words(header)
}

// The sizes of a level whose rows and faces stand close together.
#[unsafe(no_mangle)]
pub extern "C" fn crunch_level_sizes(header: Header, level: u32) -> LevelSizes
    ensures { result ≡ level_sizes header level }
{
    crunch_abi::crunch_level_sizes(header, level)
}

// A level unpacked into a lent destination, of a record by its parts.
#[unsafe(no_mangle)]
pub extern "C" fn crunch_unpack_level_parts<'a>(
    header: Header,
    counts: Counts,
    chunk: &'a [u8; 8192],
    color_ends: &'a [u8; 8192],
    color_sels: &'a [u8; 8192],
    alpha_ends: &'a [u8; 8192],
    alpha_sels: &'a [u8; 8192],
    file: &[u8],
    color_endpoints: &[u32],
    color_selectors: &[u32],
    alpha_endpoints: &[u16],
    alpha_selectors: &[u16],
    level: u32,
    pitch: usize,
    distance: usize,
    budget: &mut u64,
    dst: &mut [u8],
) -> Answer
    ensures { Answers (unpacking_of (record_by header counts chunk.now color_ends.now color_sels.now alpha_ends.now alpha_sels.now) file.now (lent_of color_endpoints.now color_selectors.now alpha_endpoints.now alpha_selectors.now) level pitch distance budget.old dst.old) budget.old budget.new dst.new result }
{
    crunch_abi::crunch_unpack_level_parts(
        header,
        counts,
        chunk,
        color_ends,
        color_sels,
        alpha_ends,
        alpha_sels,
        file,
        color_endpoints,
        color_selectors,
        alpha_endpoints,
        alpha_selectors,
        level,
        pitch,
        distance,
        budget,
        dst,
    )
}

// The levels from `first` on to the last, of a record by its parts, one after another in a lent destination.
#[unsafe(no_mangle)]
pub extern "C" fn crunch_unpack_levels_parts<'a>(
    header: Header,
    counts: Counts,
    chunk: &'a [u8; 8192],
    color_ends: &'a [u8; 8192],
    color_sels: &'a [u8; 8192],
    alpha_ends: &'a [u8; 8192],
    alpha_sels: &'a [u8; 8192],
    file: &[u8],
    color_endpoints: &[u32],
    color_selectors: &[u32],
    alpha_endpoints: &[u16],
    alpha_selectors: &[u16],
    first: u32,
    budget: &mut u64,
    dst: &mut [u8],
) -> Several
    ensures { Gives (several_of (record_by header counts chunk.now color_ends.now color_sels.now alpha_ends.now alpha_sels.now) file.now (lent_of color_endpoints.now color_selectors.now alpha_endpoints.now alpha_selectors.now) first budget.old dst.old) budget.new dst.new result }
{
    crunch_abi::crunch_unpack_levels_parts(
        header,
        counts,
        chunk,
        color_ends,
        color_sels,
        alpha_ends,
        alpha_sels,
        file,
        color_endpoints,
        color_selectors,
        alpha_endpoints,
        alpha_selectors,
        first,
        budget,
        dst,
    )
}

// What a host has to lend for a DDS file of this header: refusal 2 or 16, or so many bytes.
#[unsafe(no_mangle)]
pub extern "C" fn crunch_dds_bytes(header: Header) -> Needed
    ensures { result ≡ needed_for dds_of header }
{
    crunch_abi::crunch_dds_bytes(header)
}

// All levels of a record by its parts, as a DDS file in the first bytes of a lent destination.
#[unsafe(no_mangle)]
pub extern "C" fn crunch_write_dds_parts<'a>(
    header: Header,
    counts: Counts,
    chunk: &'a [u8; 8192],
    color_ends: &'a [u8; 8192],
    color_sels: &'a [u8; 8192],
    alpha_ends: &'a [u8; 8192],
    alpha_sels: &'a [u8; 8192],
    file: &[u8],
    color_endpoints: &[u32],
    color_selectors: &[u32],
    alpha_endpoints: &[u16],
    alpha_selectors: &[u16],
    dst: &mut [u8],
) -> Written
    ensures { Writes (writing dds_of
        (record_by header counts chunk.now color_ends.now color_sels.now alpha_ends.now
        alpha_sels.now) file.now
        (lent_of color_endpoints.now color_selectors.now alpha_endpoints.now
        alpha_selectors.now) dst.old)
        dst.new result }
{
    crunch_abi::crunch_write_dds_parts(
        header,
        counts,
        chunk,
        color_ends,
        color_sels,
        alpha_ends,
        alpha_sels,
        file,
        color_endpoints,
        color_selectors,
        alpha_endpoints,
        alpha_selectors,
        dst,
    )
}

// Refusal 2, 18, 28 or 12, with nothing touched; or 0, with four bytes for each pixel, red, green, blue and alpha, in their places.
#[unsafe(no_mangle)]
pub extern "C" fn crunch_texels(format: u32, face: Face, blocks: &[u8], rgba: &mut [u8]) -> u32
    ensures { Answered format face blocks.now rgba.old result rgba.new }
{
    texels_abi::crunch_texels(format, face, blocks, rgba)
}
