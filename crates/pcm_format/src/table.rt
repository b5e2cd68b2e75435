// A table of bytes, one for each format.
ghost use Rattle.std.specs.Prelude.{◌≡◌, ◌<◌, slice_index};

/// Bytes by place. This project's own.
#[derive(Clone, Copy)]
pub(crate) struct Table<const N: usize> {
    pub(crate) bytes: [u8; N],
}

impl<const N: usize> Table<N> {
    /// The byte at a place.
    pub(crate) fn at(&self, place: usize) -> u8
        requires { place < N }
        ensures { result ≡ slice_index self.now.bytes place }
    {
        self.bytes[place]
    }
}
