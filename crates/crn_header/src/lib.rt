// The signature and the fields of a header (document 01, Header). A byte past the end of what is handed in counts as 0.
#![tactic(auto)]

ghost use Rattle.std.specs.Prelude.{◌≡◌};
ghost use Rattle.crn_format.specs.Limits.{max_levels};
ghost use Rattle.crn_format.specs.Header.{signed_in, part_at, offset_at, offsets_from, header_of};

use crn_format::{Header, Part};
use crn_formats::MIN_SIZE;
use crn_utils::{big16, big24, big32, byte};

// "The signature is the two bytes 48 78 (hex), compared as they stand": of a file of so many bytes that begins with these.
pub fn is_signed(head: &[u8], length: usize) -> bool
    ensures { result ≡ signed_in head.now length }
{
    (MIN_SIZE <= length) & head.starts_with(b"Hx")
}

// A palette: offset 3, size 3, count 2.
fn part_at(file: &[u8], at: u8) -> Part
    ensures { result ≡ part_at file.now at }
{
    let at = u32::from(at);
    Part {
        offset: big24(file, at),
        size: big24(file, at + 3),
        count: big16(file, at + 6),
    }
}

// "From byte 70 one 4-byte offset per level": that of level i, 0 where the file has no such level.
fn offset_at(file: &[u8], levels: u32, i: u8) -> u32
    ensures { result ≡ offset_at file.now levels i }
{
    let i = u32::from(i);
    if i < levels {
        big32(file, 70 + 4 * i)
    } else {
        0
    }
}

// The offsets of all levels that a header can hold.
fn offsets(file: &[u8], levels: u32) -> [u32; 13]
    ensures { result ≡ offsets_from file.now levels 0 max_levels }
{
    let mut offsets = [0; 13];
    for (i, offset) in offsets.iter_mut().enumerate() {
        *offset = offset_at(file, levels, i as u8);
    }
    offsets
}

// The fields as read.
pub fn header_of(file: &[u8]) -> Header
    ensures { result ≡ header_of file.now }
{
    let levels = byte(file, 16);
    Header {
        header_size: big16(file, 2),
        header_crc16: big16(file, 4),
        data_size: big32(file, 6),
        data_crc16: big16(file, 10),
        width: big16(file, 12),
        height: big16(file, 14),
        levels: levels,
        faces: byte(file, 17),
        format: byte(file, 18),
        flags: big16(file, 19),
        reserved: big32(file, 21),
        userdata0: big32(file, 25),
        userdata1: big32(file, 29),
        color_endpoints: part_at(file, 33),
        color_selectors: part_at(file, 41),
        alpha_endpoints: part_at(file, 49),
        alpha_selectors: part_at(file, 57),
        tables_size: big16(file, 65),
        tables_offset: big24(file, 67),
        level_offsets: offsets(file, levels),
    }
}
