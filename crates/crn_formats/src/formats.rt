// What a format's number says, by its `Kind` (document 01, Header).
ghost use Rattle.std.specs.Prelude.{◌≡◌};
ghost use Rattle.crn_format.specs.Header.{kind_of, known, has_color, has_alpha, block_bytes};

use crn_format::Kind;

// DXT1 and DXT5 have a colour plane.
pub fn has_color(format: u32) -> bool
    ensures { result ≡ has_color (kind_of format) }
{
    Kind::from(format).has_color()
}

// DXT5, DXN and DXT5A have an alpha plane.
pub fn has_alpha(format: u32) -> bool
    ensures { result ≡ has_alpha (kind_of format) }
{
    Kind::from(format).has_alpha()
}

// A format that is known has a plane.
pub fn is_known(format: u32) -> bool
    ensures { result ≡ known (kind_of format) }
{
    Kind::from(format).is_known()
}

// The bytes of a block: eight for each plane.
pub fn block_bytes(format: u32) -> u32
    ensures { result ≡ block_bytes (kind_of format) }
{
    Kind::from(format).block_bytes()
}
