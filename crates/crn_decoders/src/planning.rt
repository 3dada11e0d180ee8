// The planes of a format, in the order of their draws, with the numbers of their decoder tables.
ghost use Rattle.std.specs.Prelude.{◌≡◌};
ghost use Rattle.crn_decoders.specs.Tables.{tables_in};
ghost use Rattle.crn_decoders.specs.Planning.{color_side, alpha_side, planes_for};

use crate::decoders::Sizes;
use crn_chunks::{Planes, Side};
use crn_format::{Header, Kind};

// The colour plane, whose tables come after the alpha plane's.
fn color_side(h: Header, alpha: bool) -> Side
    ensures { result ≡ color_side h alpha }
{
    let (ends, sels) = if alpha { (3, 4) } else { (1, 2) };
    Side {
        ends,
        sels,
        endpoints: u64::from(h.color_endpoints.count),
        selectors: u64::from(h.color_selectors.count),
        alpha: false,
    }
}

// The alpha plane.
fn alpha_side(h: Header) -> Side
    ensures { result ≡ alpha_side h }
{
    Side {
        ends: 1,
        sels: 2,
        endpoints: u64::from(h.alpha_endpoints.count),
        selectors: u64::from(h.alpha_selectors.count),
        alpha: true,
    }
}

// "DXT5: alpha, then colour; DXN: first, then second"; of one plane the second is not looked at. The chunk symbols have a table, and each
// plane two.
pub fn planes_of(h: Header, s: Sizes) -> Planes
    ensures { result ≡ planes_for h s }
{
    let kind = Kind::from(h.format);
    let color = kind.has_color();
    let alpha = kind.has_alpha();
    let colors = color_side(h, alpha);
    let alphas = alpha_side(h);
    let second = if color { colors } else { alphas };
    let first = if alpha { alphas } else { colors };
    let tables = if color & alpha { 5 } else { 3 };
    Planes {
        two: kind.block_bytes() == 16,
        first,
        second,
        tables,
        lookup_step: s.lookup_step,
        sorted_step: s.sorted_step,
    }
}
