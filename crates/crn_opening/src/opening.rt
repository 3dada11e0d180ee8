// Opening a file, in one call or by a look's record: the header, the segments and the lent buffers, then the streams (document 01, Refusal
// numbers; document 02, request 2).
ghost use Rattle.std.specs.Prelude.{◌≡◌};
ghost use Rattle.crn_format.specs.Opening.{streams, after_look, opening as opening_of};
ghost use Rattle.crn_formats.specs.Lent.{lent_of};
ghost use Rattle.crn_opening.specs.Lending.{held, SamePalettes, lengths_in, SameLengths, NoLengths};
ghost use Rattle.crn_opening.specs.Streams.{Seen, Passed};
ghost use Rattle.crn_opening.specs.Opens.{refused_before, opened_by, opened_in, left_by, arrays_of, Opens, Loads};

use crate::lent::{LengthsMut, PalettesMut};
use crate::palettes::{read_palettes, segment};
use crate::tables_segment::read_tables;
use crn_decomp::{agrees, look};
use crn_format::{Fault, Header, Refusal};
use crn_formats::Counts;
use crn_segments::segments_stand;

// A file opened: its record but for the tables' lengths, which are left in lent arrays.
#[derive(Clone, Copy)]
pub struct OpenedParts {
    pub header: Header,
    pub counts: Counts,
}

// A refusal before the streams.
fn refused(refusal: Refusal) -> Result<OpenedParts, Fault>
    ensures { result ≡ refused_before refusal }
{
    Err(Fault { refusal, at: 0 })
}

// The tables, then the palettes. After a refusal all that was lent is to be cleared.
fn tables_and_palettes(
    file: &[u8],
    h: Header,
    lent: &mut PalettesMut,
    lengths: &mut LengthsMut,
) -> Result<OpenedParts, Fault>
    requires passed { Passed file.now h (held lent.old) }
    requires all_zero { NoLengths (lengths_in lengths.old) }
    ensures same_palettes { SamePalettes lent.old lent.new }
    ensures same_lengths { SameLengths lengths.old lengths.new }
    ensures opens { streams file.now (held lent.old) h ≡ left_by (held lent.old) (held lent.new) (lengths_in lengths.new) result }
{
    let counts = read_tables(segment(file, h.tables_offset, h.tables_size), h, lengths)?;
    read_palettes(file, h, lent)?;
    Ok(OpenedParts { header: h, counts })
}

// The streams. A refusal leaves the four palettes zero, and no lengths in the tables.
fn read_streams(
    file: &[u8],
    h: Header,
    lent: &mut PalettesMut,
    lengths: &mut LengthsMut,
) -> Result<OpenedParts, Fault>
    requires passed { Passed file.now h (held lent.old) }
    requires all_zero { NoLengths (lengths_in lengths.old) }
    ensures same_palettes { SamePalettes lent.old lent.new }
    ensures same_lengths { SameLengths lengths.old lengths.new }
    ensures opens { Opens (streams file.now (held lent.old) h) (held lent.new) (opened_in result (lengths_in lengths.new)) }
{
    let opened = tables_and_palettes(file, h, lent, lengths);
    if opened.is_err() {
        lent.clear();
        lengths.clear();
    }
    opened
}

// "4 for every segment it reads, 5, then the stream", by a header that a look has let through. The tables' lengths go into the lent arrays,
// whatever these held.
fn after_look(
    file: &[u8],
    h: Header,
    lent: &mut PalettesMut,
    lengths: &mut LengthsMut,
) -> Result<OpenedParts, Fault>
    requires { Seen file.now h }
    ensures same_palettes { SamePalettes lent.old lent.new }
    ensures same_lengths { SameLengths lengths.old lengths.new }
    ensures opens { Opens (after_look file.now (held lent.old) h) (held lent.new) (opened_in result (lengths_in lengths.new)) }
{
    lengths.clear();
    if !segments_stand(file, h) {
        return refused(Refusal::NoSegment);
    }
    if !lent.has_room(h) {
        return refused(Refusal::ShortPalettes);
    }
    read_streams(file, h, lent, lengths)
}

// A file opened with four lent buffers: "1, 2, 3, 4 for every segment it reads, 5, then the stream".
pub fn open_into(
    file: &[u8],
    color_endpoints: &mut [u32],
    color_selectors: &mut [u32],
    alpha_endpoints: &mut [u16],
    alpha_selectors: &mut [u16],
    chunk: &mut [u8; 8192],
    color_ends: &mut [u8; 8192],
    color_sels: &mut [u8; 8192],
    alpha_ends: &mut [u8; 8192],
    alpha_sels: &mut [u8; 8192],
) -> Result<OpenedParts, Fault>
    ensures { Opens (opening_of file.now
        (lent_of color_endpoints.old color_selectors.old
        alpha_endpoints.old alpha_selectors.old))
        (lent_of color_endpoints.new color_selectors.new
        alpha_endpoints.new alpha_selectors.new)
        (opened_by result chunk.new color_ends.new color_sels.new
        alpha_ends.new alpha_sels.new) }
{
    let mut lent = PalettesMut {
        color_endpoints,
        color_selectors,
        alpha_endpoints,
        alpha_selectors,
    };
    let mut lengths = LengthsMut {
        chunk,
        color_ends,
        color_sels,
        alpha_ends,
        alpha_sels,
    };
    match look(file) {
        Err(refusal) => {
            lengths.clear();
            refused(refusal)
        }
        Ok(header) => after_look(file, header, &mut lent, &mut lengths),
    }
}

// The palettes of a file that was looked at (document 02, request 2): "17, record and file disagree (also where the look refuses the file),
// comes first in the load", with nothing touched that was lent; then as opening goes on.
pub fn load_into(
    header: Header,
    file: &[u8],
    color_endpoints: &mut [u32],
    color_selectors: &mut [u32],
    alpha_endpoints: &mut [u16],
    alpha_selectors: &mut [u16],
    chunk: &mut [u8; 8192],
    color_ends: &mut [u8; 8192],
    color_sels: &mut [u8; 8192],
    alpha_ends: &mut [u8; 8192],
    alpha_sels: &mut [u8; 8192],
) -> Result<OpenedParts, Fault>
    ensures { Loads header file.now
        (lent_of color_endpoints.old color_selectors.old
        alpha_endpoints.old alpha_selectors.old)
        (lent_of color_endpoints.new color_selectors.new
        alpha_endpoints.new alpha_selectors.new)
        (arrays_of chunk.old color_ends.old color_sels.old
        alpha_ends.old alpha_sels.old)
        (arrays_of chunk.new color_ends.new color_sels.new
        alpha_ends.new alpha_sels.new)
        result }
{
    if !agrees(header, file) {
        return refused(Refusal::Disagrees);
    }
    let mut lent = PalettesMut {
        color_endpoints,
        color_selectors,
        alpha_endpoints,
        alpha_selectors,
    };
    let mut lengths = LengthsMut {
        chunk,
        color_ends,
        color_sels,
        alpha_ends,
        alpha_sels,
    };
    after_look(file, header, &mut lent, &mut lengths)
}
