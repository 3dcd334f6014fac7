//! What is known of an item of a list.

/// An item of a module's list, by the numbers of names.
#[derive(Drop)]
pub struct Item {
    /// The name with which it goes, if there is one: that of the function or the variable that it declares.
    pub name: Option<usize>,
    /// The other names that are declared in it, where what declares them may go.
    pub goers: Vec<usize>,
    /// The names that it keeps.
    pub notes: Vec<usize>,
}
