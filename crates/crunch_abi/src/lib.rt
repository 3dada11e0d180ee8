// The entry for C and Rust, which `crunch_abi_c` exports. No function asks anything of its caller; an answer is a number or a flat struct
// by value.
// A record is taken and given by its parts, so that its 41,000 bytes are never copied.
#![tactic(auto)]

ghost use Rattle.std.specs.Prelude.{◌≡◌};
ghost use Rattle.crn_format.specs.Opening.{opening as opening_of};
ghost use Rattle.crn_formats.specs.Lent.{lent_of};
ghost use Rattle.crn_format.specs.Look.{looked as looked_of, look_at, look_of};
ghost use Rattle.crn_opening.specs.Opens.{Opens};
ghost use Rattle.crunch_abi.specs.Opening.{opened_by};

use crn_format::{Header, Looked, Refusal};
use loading::flat;

mod containers; // DDS files written
mod level; // a level unpacked
mod loading; // the palettes of a file that was looked at
mod sizes; // the sizes of a host's buffers
mod version; // the version of the exports

pub use containers::{crunch_dds_bytes, crunch_write_dds_parts};
pub use crn_levels::Several;
pub use crn_sizes::LevelSizes;
pub use crunch::Written;
pub use level::{Answer, crunch_unpack_level_parts, crunch_unpack_levels_parts};
pub use loading::{OpenedHeader, crunch_load_parts};
pub use picture::Needed;
pub use sizes::{PaletteWords, crunch_level_sizes, crunch_palette_words};
pub use version::crunch_abi_version;

// A look's answer as one struct: a refusal has the empty header.
fn seen(looked: Result<Header, Refusal>) -> Looked
    ensures { result ≡ looked_of looked }
{
    match looked {
        Ok(header) => Looked { refusal: 0, header },
        Err(refusal) => Looked {
            refusal: refusal.into(),
            header: Header::default(),
        },
    }
}

// The header of a file, by which a host sizes the palettes' buffers: refusal 1, 2 or 3 of opening, or 0.
pub fn crunch_look(file: &[u8]) -> Looked
    ensures { result ≡ look_of file.now }
{
    seen(crunch::look(file))
}

// The same of a file of so many bytes that begins with these: its first 122 bytes, or all of a shorter one, are enough.
pub fn crunch_look_at(head: &[u8], length: usize) -> Looked
    ensures { result ≡ look_at head.now length }
{
    seen(crunch::look_at(head, length))
}

// A file opened with four lent buffers, and its record by its parts: the header and the tables' counts in the answer, the tables' lengths
// in five lent arrays.
pub fn crunch_open_parts(
    file: &[u8],
    color_endpoints: &mut [u32],
    color_selectors: &mut [u32],
    alpha_endpoints: &mut [u16],
    alpha_selectors: &mut [u16],
    chunk: &mut [u8; 8192],
    color_ends: &mut [u8; 8192],
    color_sels: &mut [u8; 8192],
    alpha_ends: &mut [u8; 8192],
    alpha_sels: &mut [u8; 8192],
) -> OpenedHeader
    ensures { Opens (opening_of file.now (lent_of color_endpoints.old color_selectors.old alpha_endpoints.old alpha_selectors.old)) (lent_of color_endpoints.new color_selectors.new alpha_endpoints.new alpha_selectors.new) (opened_by result chunk.new color_ends.new color_sels.new alpha_ends.new alpha_sels.new) }
{
    flat(crunch::open_into(
        file,
        color_endpoints,
        color_selectors,
        alpha_endpoints,
        alpha_selectors,
        chunk,
        color_ends,
        color_sels,
        alpha_ends,
        alpha_sels,
    ))
}
