// The sizes of a ring's memory.

// The slots of the buffer, the bytes of a frame, its channels, and the bytes of one sample.
#[derive(Clone, Copy)]
pub(crate) struct Sizes {
    pub(crate) buffer: usize,
    pub(crate) frame_bytes: usize,
    pub(crate) channels: usize,
    pub(crate) sample_bytes: usize,
}
