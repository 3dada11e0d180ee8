// The records of a CRN file, as the definitions in specs/ speak of them.
#![tactic(auto)]

ghost use Rattle.std.specs.Prelude.{◌≡◌};
ghost use Rattle.crn_format.specs.Header.{kind_of, known, has_color, has_alpha, block_bytes};
ghost use Rattle.crn_format.specs.Refusals.{number_of};

// Why a call is refused, with document 01's number.
#[derive(Clone, Copy, PartialEq, Eq)]
pub enum Refusal {
    NotSigned = 1,
    BeyondLimits = 2,
    WrongSizes = 3,
    NoSegment = 4,
    ShortPalettes = 5,
    NoCode = 6,
    NoSymbol = 7,
    Ended = 8,
    NoSelector = 9,
    NoLevel = 10,
    WrongGrid = 11,
    NoRoom = 12,
    NoEncoding = 13,
    NoEntry = 14,
    OutOfBudget = 15,
    NotWritten = 16,
    Disagrees = 17,
    ShortPitch = 18,
    FewBlocks = 28,
}

impl From<Refusal> for u32 {
    ghost from_gives = { λ refusal number. number ≡ number_of refusal };

    fn from(refusal: Refusal) -> u32 {
        refusal as u32
    }
}

// A refusal in a stream, and the bit that it names.
#[derive(Clone, Copy)]
pub struct Fault {
    pub refusal: Refusal,
    pub at: usize,
}

// What a format's number means: "0 DXT1; 2 to 6 DXT5 and its swizzles; 7, 8 DXN; 9 DXT5A" (document 01, Header).
#[derive(Clone, Copy, PartialEq, Eq)]
pub enum Kind {
    DXT1,
    DXT5,
    DXT5A,
    DXN,
    Unknown,
}

impl From<u32> for Kind {
    ghost from_gives = { λ format kind. kind ≡ kind_of format };

    #[tactic(auto, unfolding(crate::specs::Header::kind_of))]
    fn from(format: u32) -> Kind {
        match format {
            0 => Kind::DXT1,
            2..=6 => Kind::DXT5,
            7 | 8 => Kind::DXN,
            9 => Kind::DXT5A,
            _ => Kind::Unknown,
        }
    }
}

impl Kind {
    // A format that is known has a plane.
    pub fn is_known(self) -> bool
        ensures { result ≡ known self }
    {
        self != Kind::Unknown
    }

    // DXT1 and DXT5 have a colour plane.
    pub fn has_color(self) -> bool
        ensures { result ≡ has_color self }
    {
        matches!(self, Kind::DXT1 | Kind::DXT5)
    }

    // DXT5, DXN and DXT5A have an alpha plane.
    pub fn has_alpha(self) -> bool
        ensures { result ≡ has_alpha self }
    {
        matches!(self, Kind::DXT5 | Kind::DXT5A | Kind::DXN)
    }

    // The bytes of a block: eight for each plane.
    pub fn block_bytes(self) -> u32
        ensures { result ≡ block_bytes self }
    {
        match self {
            Kind::DXT1 | Kind::DXT5A => 8,
            Kind::DXT5 | Kind::DXN => 16,
            Kind::Unknown => 0,
        }
    }
}

// Where a part of the file stands, and how many palette entries it has.
#[repr(C)]
#[derive(Clone, Copy, PartialEq, Eq, Default)]
pub struct Part {
    pub offset: u32,
    pub size: u32,
    pub count: u32,
}

// The header's fields as read. A level that the file does not have is at offset 0.
#[repr(C)]
#[derive(Clone, Copy, PartialEq, Eq, Default)]
pub struct Header {
    pub header_size: u32,
    pub header_crc16: u32,
    pub data_size: u32,
    pub data_crc16: u32,
    pub width: u32,
    pub height: u32,
    pub levels: u32,
    pub faces: u32,
    pub format: u32,
    pub flags: u32,
    pub reserved: u32,
    pub userdata0: u32,
    pub userdata1: u32,
    pub color_endpoints: Part,
    pub color_selectors: Part,
    pub alpha_endpoints: Part,
    pub alpha_selectors: Part,
    pub tables_size: u32,
    pub tables_offset: u32,
    pub level_offsets: [u32; 13],
}

// What a look at a header gives: refusal 0 with the header; else the number of the refusal, with the empty header.
#[repr(C)]
#[derive(Clone, Copy)]
pub struct Looked {
    pub refusal: u32,
    pub header: Header,
}

// A code table: how many symbols it was sent for, and each symbol's code length, zero beyond the count.
#[repr(C)]
#[derive(Clone, Copy)]
pub struct Table {
    pub count: u32,
    pub lengths: [u8; 8192],
}

// The five code tables of a file's levels.
#[repr(C)]
#[derive(Clone, Copy)]
pub struct Tables {
    pub chunk_encoding: Table,
    pub color_endpoint_delta: Table,
    pub color_selector_delta: Table,
    pub alpha_endpoint_delta: Table,
    pub alpha_selector_delta: Table,
}

// An opened file.
#[repr(C)]
#[derive(Clone, Copy)]
pub struct Record {
    pub header: Header,
    pub tables: Tables,
}

// The blocks of a level: faces of rows of columns, each so many bytes; a row is a pitch from the next, a face a distance.
#[derive(Clone, Copy)]
pub struct Grid {
    pub faces: usize,
    pub columns: usize,
    pub rows: usize,
    pub bytes: usize,
    pub pitch: usize,
    pub distance: usize,
}
