//! What the answers on an expression are.

/// Whether the evaluation of an expression can be observed by more than its value.
#[derive(Clone, Copy, Debug, PartialEq, Eq)]
pub enum Purity {
    MayBeImpure,
    Pure,
}

/// What is known of a value.
#[derive(Debug, PartialEq, Eq, Drop)]
pub enum Value<T> {
    Known(T),
    Unknown,
}

/// The type of a value.
#[derive(Clone, Copy, Debug, PartialEq, Eq)]
pub enum ValueType {
    Undefined,
    Null,
    Bool,
    Num,
    Str,
    Obj,
}
