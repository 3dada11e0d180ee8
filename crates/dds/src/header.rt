// The magic and the header of a DDS file.
ghost use Rattle.std.specs.Prelude.{◌≡◌, true, ◌≤◌, length};
ghost use Rattle.std.proofs.lemmas.List.Edits.{sets};
ghost use Rattle.crn_format.specs.Header.{within_limits, kind_of};
ghost use Rattle.picture.specs.Kinds.{goes_out};
ghost use Rattle.picture.specs.Surfaces.{picture_of};
ghost use Rattle.dds.specs.Header.{letters, caps as caps_of, caps2 as caps2_of, head_bytes, dds_header};

use crn_format::Header;
use crn_sizes::level_sizes;
use picture::{put_bytes, put_words};

// How many bytes the magic and the header have.
pub const HEAD_BYTES: usize = 128;

// How many bytes the header has, and its pixel format.
const HEADER_SIZE: u32 = 124;

const PIXEL_FORMAT_SIZE: u32 = 32;

// Caps, height, width, pixel format, mip map count and linear size are given.
const HEADER_FLAGS: u32 = 0xA1007;

// The pixel format is told by four letters.
const BY_LETTERS: u32 = 4;

// DXT1, DXT5, BC5U or BC4U.
fn letters_of(format: u32) -> u32
    requires { goes_out format ≡ true }
    ensures { result ≡ letters (kind_of format) }
{
    u32::from_le_bytes(match format {
        0 => *b"DXT1",
        2 => *b"DXT5",
        7 => *b"BC5U",
        _ => *b"BC4U",
    })
}

// A texture; a mip map where there are levels below the first; complex where there is more than one surface.
fn caps_of(h: Header) -> u32
    ensures { result ≡ caps_of (picture_of h) }
{
    if h.levels > 1 {
        0x401008
    } else if h.faces == 6 {
        0x1008
    } else {
        0x1000
    }
}

// A cube map, with each of its faces.
fn caps2_of(h: Header) -> u32
    ensures { result ≡ caps2_of (picture_of h) }
{
    if h.faces == 6 { 0xFE00 } else { 0 }
}

// The first bytes of a file.
pub fn put_header(h: Header, dst: &mut [u8])
    requires within_limits { within_limits h ≡ true }
    requires goes_out { goes_out h.format ≡ true }
    requires room { head_bytes ≤ length dst.old }
    ensures { dst.new ≡ sets dst.old 0 (dds_header (picture_of h)) }
{
    let linear = level_sizes(h, 0).distance as u32;
    let letters = letters_of(h.format);
    put_bytes(b"DDS ", 0, dst);
    let words = [
        HEADER_SIZE,
        HEADER_FLAGS,
        h.height,
        h.width,
        linear,
        0,
        h.levels,
        0,
        0,
        0,
        0,
        0,
        0,
        0,
        0,
        0,
        0,
        0,
        PIXEL_FORMAT_SIZE,
        BY_LETTERS,
        letters,
        0,
        0,
        0,
        0,
        0,
        caps_of(h),
        caps2_of(h),
        0,
        0,
        0,
    ];
    put_words(&words, 4, dst);
}
