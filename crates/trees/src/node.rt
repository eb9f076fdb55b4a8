// A node of a tree as a plug-in lends it: the number of its rule, and its cut. C has `struct dv_node { uint16_t rule, cut; }` for it.
use books::size::ROOM;

/// As many as a tree of the largest sheet has, and one.
pub const MOST_NODES: usize = 2 * ROOM;

#[repr(C)]
#[derive(Clone, Copy)]
pub struct Node {
    pub rule: u16,
    pub cut: u16,
}
