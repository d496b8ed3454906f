//! The disks of a store.

/// One of them is read, and commits are appended to it.
#[derive(Drop)]
pub struct Disks<D> {
    pub a: D,
    pub b: D,
}
