// The code tables of a handed record (refusal 6), which may hold anything.
ghost use Rattle.std.specs.Prelude.{◌≡◌, ◌≤◌, length};
ghost use Rattle.crn_format.specs.Limits.{max_symbols};
ghost use Rattle.crn_format.specs.Unpacking.{table_holds, tables_hold};
ghost use Rattle.crn_formats.specs.Records.{table_by, tables_sliced};
ghost use Rattle.crn_decoders.specs.Tables.{Long};

use crn_formats::TableSlices;
use crn_static_huffman_data_model::is_code;

// A table has no codes, or lengths that make a code.
fn table_holds(count: u32, lengths: &[u8]) -> bool
    requires { max_symbols ≤ length lengths.now }
    ensures { result ≡ table_holds (table_by count lengths.now) }
{
    count <= 8192 && (count == 0 || is_code(&lengths[..count as usize]))
}

// The five tables.
pub fn tables_hold(tables: &TableSlices) -> bool
    requires { Long (tables_sliced tables.now) }
    ensures { result ≡ tables_hold (tables_sliced tables.now) }
{
    let counts = tables.counts;
    table_holds(counts.chunk, tables.chunk)
        & table_holds(counts.color_ends, tables.color_ends)
        & table_holds(counts.color_sels, tables.color_sels)
        & table_holds(counts.alpha_ends, tables.alpha_ends)
        & table_holds(counts.alpha_sels, tables.alpha_sels)
}
