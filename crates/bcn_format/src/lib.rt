// The texels of BC1, BC3, BC4 and BC5 blocks, as the definitions in specs/ speak of them.
#![tactic(auto)]

// A face in pixels: its rows of texels are a pitch apart, in bytes.
#[repr(C)]
#[derive(Clone, Copy)]
pub struct Face {
    pub width: usize,
    pub height: usize,
    pub pitch: usize,
}
