// The four palettes, each from its segment into its lent buffer. "A plane's palettes are read only where its endpoint count is above 0"
// (document 01, Codes). After a refusal the buffers are to be cleared.
ghost use Rattle.std.specs.Prelude.{◌≡◌, ◌+◌, ◌≤◌, length};
ghost use Rattle.crn_format.specs.Palettes.{color_endpoints, color_selectors, alpha_endpoints, alpha_selectors};
ghost use Rattle.crn_format.specs.Opening.{segment as segment_of};
ghost use Rattle.crn_opening.specs.Lending.{held, SamePalettes};
ghost use Rattle.crn_opening.specs.Streams.{Passed, PlaneFits, PlaneEnds, PalettesEnd};

use crate::lent::PalettesMut;
use crn_endpoints::{alpha_endpoints, color_endpoints};
use crn_format::{Fault, Header, Part};
use crn_selectors::{alpha_selectors, color_selectors};

// The bytes of a part of the file.
pub fn segment(file: &[u8], offset: u32, size: u32) -> &[u8]
    requires { offset + size ≤ length file.now }
    ensures { (result.now ≡ segment_of file.now offset size) × (length result.now ≤ length file.now) }
{
    let start = offset as usize;
    let end = start + size as usize;
    &file[start..end]
}

// The colour plane's endpoints, then its selectors, where the plane is present.
fn color_palettes(
    file: &[u8],
    ends: Part,
    sels: Part,
    endpoints: &mut [u32],
    selectors: &mut [u32],
) -> Result<(), Fault>
    requires { PlaneFits file.now ends sels 1 endpoints.old selectors.old }
    ensures { PlaneEnds file.now ends sels color_endpoints color_selectors endpoints.old selectors.old endpoints.new selectors.new result }
{
    if ends.count == 0 {
        return Ok(());
    }
    color_endpoints(
        segment(file, ends.offset, ends.size),
        ends.count as usize,
        endpoints,
    )?;
    color_selectors(
        segment(file, sels.offset, sels.size),
        sels.count as usize,
        selectors,
    )
}

// The alpha plane's, likewise.
fn alpha_palettes(
    file: &[u8],
    ends: Part,
    sels: Part,
    endpoints: &mut [u16],
    selectors: &mut [u16],
) -> Result<(), Fault>
    requires { PlaneFits file.now ends sels 3 endpoints.old selectors.old }
    ensures { PlaneEnds file.now ends sels alpha_endpoints alpha_selectors endpoints.old selectors.old endpoints.new selectors.new result }
{
    if ends.count == 0 {
        return Ok(());
    }
    alpha_endpoints(
        segment(file, ends.offset, ends.size),
        ends.count as usize,
        endpoints,
    )?;
    alpha_selectors(
        segment(file, sels.offset, sels.size),
        sels.count as usize,
        selectors,
    )
}

// The colour plane's palettes, then the alpha plane's.
pub fn read_palettes(file: &[u8], h: Header, lent: &mut PalettesMut) -> Result<(), Fault>
    requires { Passed file.now h (held lent.old) }
    ensures same { SamePalettes lent.old lent.new }
    ensures ends { PalettesEnd file.now h (held lent.old) (held lent.new) result }
{
    color_palettes(
        file,
        h.color_endpoints,
        h.color_selectors,
        lent.color_endpoints,
        lent.color_selectors,
    )?;
    alpha_palettes(
        file,
        h.alpha_endpoints,
        h.alpha_selectors,
        lent.alpha_endpoints,
        lent.alpha_selectors,
    )
}
