//! How an item reads and writes names.

/// How an item of a module's list reads, writes and declares names, by their numbers: each as often as it does so.
#[derive(Drop)]
pub struct Access {
    /// The names that it reads.
    pub reads: Vec<usize>,
    /// The names that it assigns to without reading them.
    pub writes: Vec<usize>,
    /// The names that it declares.
    pub declares: Vec<usize>,
}
