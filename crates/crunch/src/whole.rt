// The record put together, for those who want it whole.
ghost use Rattle.crn_format.specs.Opening.{opening as opening_of};
ghost use Rattle.crn_format.specs.Loading.{loading};
ghost use Rattle.crn_formats.specs.Lent.{lent_of};
ghost use Rattle.crn_opening.specs.Opens.{Opens, whole};

use crn_decomp::look;
use crn_format::{Fault, Header, Record, Table, Tables};
use crn_opening::load_into;

// The palettes of a file that was looked at, loaded as `load_into` loads them, with the record handed back whole.
pub fn load(
    header: Header,
    file: &[u8],
    color_endpoints: &mut [u32],
    color_selectors: &mut [u32],
    alpha_endpoints: &mut [u16],
    alpha_selectors: &mut [u16],
) -> Result<Record, Fault>
    ensures { Opens (loading header file.now
        (lent_of color_endpoints.old color_selectors.old
        alpha_endpoints.old alpha_selectors.old))
        (lent_of color_endpoints.new color_selectors.new
        alpha_endpoints.new alpha_selectors.new)
        (whole result) }
{
    let mut chunk = [0u8; 8192];
    let mut color_ends = [0u8; 8192];
    let mut color_sels = [0u8; 8192];
    let mut alpha_ends = [0u8; 8192];
    let mut alpha_sels = [0u8; 8192];
    let opened = load_into(
        header,
        file,
        color_endpoints,
        color_selectors,
        alpha_endpoints,
        alpha_selectors,
        &mut chunk,
        &mut color_ends,
        &mut color_sels,
        &mut alpha_ends,
        &mut alpha_sels,
    )?;
    let counts = opened.counts;
    Ok(Record {
        header: opened.header,
        tables: Tables {
            chunk_encoding: Table {
                count: counts.chunk,
                lengths: chunk,
            },
            color_endpoint_delta: Table {
                count: counts.color_ends,
                lengths: color_ends,
            },
            color_selector_delta: Table {
                count: counts.color_sels,
                lengths: color_sels,
            },
            alpha_endpoint_delta: Table {
                count: counts.alpha_ends,
                lengths: alpha_ends,
            },
            alpha_selector_delta: Table {
                count: counts.alpha_sels,
                lengths: alpha_sels,
            },
        },
    })
}

// A file opened: a look at its header, and a load by what the look gave.
pub fn open(
    file: &[u8],
    color_endpoints: &mut [u32],
    color_selectors: &mut [u32],
    alpha_endpoints: &mut [u16],
    alpha_selectors: &mut [u16],
) -> Result<Record, Fault>
    ensures { Opens (opening_of file.now
        (lent_of color_endpoints.old color_selectors.old
        alpha_endpoints.old alpha_selectors.old))
        (lent_of color_endpoints.new color_selectors.new
        alpha_endpoints.new alpha_selectors.new)
        (whole result) }
{
    match look(file) {
        Err(refusal) => Err(Fault { refusal, at: 0 }),
        Ok(header) => load(
            header,
            file,
            color_endpoints,
            color_selectors,
            alpha_endpoints,
            alpha_selectors,
        ),
    }
}
