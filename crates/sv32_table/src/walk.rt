//! What a walk finds: where the leaf is, the leaf as the walk left it, and the physical address.

use crate::pte::Pte;

/// The place of a leaf: a word of a table, of the root's (a superpage's) or of another's.
#[derive(Clone, Copy)]
pub(crate) struct LeafPlace {
    pub table: usize,
    pub index: usize,
    pub superpage: bool,
}

/// What a walk found: the leaf as the walk left it, and the physical address.
#[derive(Clone, Copy, PartialEq, Eq, Debug)]
pub struct Leaf {
    pub pte: Pte,
    pub physical: u64,
}
