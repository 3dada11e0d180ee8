// The edits of a record that `crn_cases` makes, each a field, an index and a value (docs/CASES.md).
#![tactic(auto)]

ghost use Rattle.std.specs.Prelude.{◌≡◌, ◌%◌, set, eqb};
ghost use Rattle.crn_format.specs.Choice.{pick};
ghost use Rattle.crn_edits.specs.Edits.{chosen as chosen_of, part_edited, header_edited, table_edited, tables_edited, record_edited};

use crn_format::{Header, Part, Record, Table, Tables};

// The value for the field that is edited, the old one for any other.
fn chosen(field: u32, this: u32, value: u32, old: u32) -> u32
    ensures { result ≡ chosen_of field this value old }
{
    if field == this { value } else { old }
}

// `offset`, `size` and `count` are the fields of this part.
fn edited_part(p: Part, offset: u32, size: u32, count: u32, field: u32, value: u32) -> Part
    ensures { result ≡ part_edited p offset size count field value }
{
    Part {
        offset: chosen(field, offset, value, p.offset),
        size: chosen(field, size, value, p.size),
        count: chosen(field, count, value, p.count),
    }
}

// The items with the one at an index edited, if they are the field that is. An index out of range changes nothing.
fn edited_at<T: Copy, const N: usize>(items: [T; N], edited: bool, index: usize, value: T) -> [T; N]
    ensures { result ≡ pick edited (set items index value) items }
{
    let mut items = items;
    if edited && index < N {
        items[index] = value;
    }
    items
}

fn edited_header(h: Header, field: u32, index: usize, value: u32) -> Header
    ensures { result ≡ header_edited h field index value }
{
    Header {
        header_size: chosen(field, 21, value, h.header_size),
        header_crc16: chosen(field, 22, value, h.header_crc16),
        data_size: chosen(field, 23, value, h.data_size),
        data_crc16: chosen(field, 24, value, h.data_crc16),
        width: chosen(field, 1, value, h.width),
        height: chosen(field, 2, value, h.height),
        levels: chosen(field, 3, value, h.levels),
        faces: chosen(field, 4, value, h.faces),
        format: chosen(field, 5, value, h.format),
        flags: chosen(field, 25, value, h.flags),
        reserved: chosen(field, 26, value, h.reserved),
        userdata0: chosen(field, 27, value, h.userdata0),
        userdata1: chosen(field, 28, value, h.userdata1),
        color_endpoints: edited_part(h.color_endpoints, 31, 35, 6, field, value),
        color_selectors: edited_part(h.color_selectors, 32, 36, 7, field, value),
        alpha_endpoints: edited_part(h.alpha_endpoints, 33, 37, 8, field, value),
        alpha_selectors: edited_part(h.alpha_selectors, 34, 38, 9, field, value),
        tables_size: chosen(field, 29, value, h.tables_size),
        tables_offset: chosen(field, 30, value, h.tables_offset),
        level_offsets: edited_at(h.level_offsets, field == 10, index, value),
    }
}

// `count` and `length` are the fields of this table. A length is a byte: a value is cut to it.
fn edited_table(t: Table, count: u32, length: u32, field: u32, index: usize, value: u32) -> Table
    ensures { result ≡ table_edited t count length field index value }
{
    Table {
        count: chosen(field, count, value, t.count),
        lengths: edited_at(t.lengths, field == length, index, (value % 256) as u8),
    }
}

fn edited_tables(t: Tables, field: u32, index: usize, value: u32) -> Tables
    ensures { result ≡ tables_edited t field index value }
{
    Tables {
        chunk_encoding: edited_table(t.chunk_encoding, 11, 16, field, index, value),
        color_endpoint_delta: edited_table(t.color_endpoint_delta, 12, 17, field, index, value),
        color_selector_delta: edited_table(t.color_selector_delta, 13, 18, field, index, value),
        alpha_endpoint_delta: edited_table(t.alpha_endpoint_delta, 14, 19, field, index, value),
        alpha_selector_delta: edited_table(t.alpha_selector_delta, 15, 20, field, index, value),
    }
}

// The record with one edit made.
pub fn edited(r: Record, field: u32, index: usize, value: u32) -> Record
    ensures { result ≡ record_edited r field index value }
{
    Record {
        header: edited_header(r.header, field, index, value),
        tables: edited_tables(r.tables, field, index, value),
    }
}
