/// Which call: a connection by its number, and a frame of it, both counted from 0.
#[derive(Clone, Copy, PartialEq, Eq)]
pub struct Key {
    pub c: u32,
    pub i: u64,
}
