// What is lent beside a header: the code tables of a record, and the palettes.
ghost use Rattle.std.specs.Prelude.{◌≡◌};
ghost use Rattle.crn_formats.specs.Records.{tables_lent, tables_sliced, Long};

// How many symbols each of the five tables of a record is for.
#[repr(C)]
#[derive(Clone, Copy, Default)]
pub struct Counts {
    pub chunk: u32,
    pub color_ends: u32,
    pub color_sels: u32,
    pub alpha_ends: u32,
    pub alpha_sels: u32,
}

// The code tables of a record by their counts and their lengths: a record is too large to be copied.
#[derive(Clone, Copy)]
pub struct CodeTables<'a> {
    pub counts: Counts,
    pub chunk: &'a [u8; 8192],
    pub color_ends: &'a [u8; 8192],
    pub color_sels: &'a [u8; 8192],
    pub alpha_ends: &'a [u8; 8192],
    pub alpha_sels: &'a [u8; 8192],
}

// The same with slices, for lengths that need not stand in an array of a record's size.
#[derive(Clone, Copy)]
pub struct TableSlices<'a> {
    pub counts: Counts,
    pub chunk: &'a [u8],
    pub color_ends: &'a [u8],
    pub color_sels: &'a [u8],
    pub alpha_ends: &'a [u8],
    pub alpha_sels: &'a [u8],
}

impl<'a> CodeTables<'a> {
    // Each array as a slice.
    pub fn as_slices(&self) -> TableSlices<'a>
        ensures same { tables_sliced result ≡ tables_lent self.now }
        ensures long { Long (tables_sliced result) }
    {
        let chunk = self.chunk;
        let color_ends = self.color_ends;
        let color_sels = self.color_sels;
        let alpha_ends = self.alpha_ends;
        let alpha_sels = self.alpha_sels;
        TableSlices {
            counts: self.counts,
            chunk,
            color_ends,
            color_sels,
            alpha_ends,
            alpha_sels,
        }
    }
}

// The four palettes.
#[derive(Clone, Copy)]
pub struct Palettes<'a> {
    pub color_endpoints: &'a [u32],
    pub color_selectors: &'a [u32],
    pub alpha_endpoints: &'a [u16],
    pub alpha_selectors: &'a [u16],
}
