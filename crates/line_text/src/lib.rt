// Text in ASCII, written into a lent slice.
#![tactic(auto)]

pub mod internal;

// A lent slice, and the place where the next byte of a text is written.
#[derive(Drop)]
pub struct Text<'a> {
    pub out: &'a mut [u8],
    pub at: usize,
}
