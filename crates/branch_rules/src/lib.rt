//! The rules of the dead-branch remover, as relations on trees.
