//! Parts of a sheet.
ghost use Rattle.std.specs.Prelude.{◌+◌, ◌<◌, ◌^◌, length};

/// A part of a sheet as it stands there, and the byte place where it begins.
#[derive(Clone, Copy)]
pub struct Part<'a> {
    pub text: &'a [u8],
    pub place: usize,
    ghost fits: { place + length text.now < 2 ^ 64 },
}

impl<'a> Part<'a> {
    ghost use Rattle.std.specs.Prelude.{◌≡◌, ◌+◌, length};

    /// The place after it.
    pub fn end(self) -> usize
        ensures { result ≡ self.entry.place + length self.entry.text.now }
    {
        self.place + self.text.len()
    }
}
