//! Outputs with their sizes, and what is found of calls.

ghost use Rattle.std.specs.Prelude.{◌≡◌, ◌≤◌, length, map};
ghost use Rattle.model_tree.specs.Limits.{most_nodes, greatest_depth, most_outputs};
ghost use Rattle.model_tree.specs.Tree.{node_count, node_count_all, depth, depth_all};
ghost use Rattle.model_sttr.specs.Cuts.{tree_of, trees_of_cuts};
ghost use Rattle.fast_cut.specs.Cuts.{plain_cut};
ghost use Rattle.apply_laws.specs.Lists.{sum_of};
ghost use Rattle.sttr_apply.specs.Cuts.{cuts_in};

use fast_cut::Cut;

/// More outputs than this aren't listed.
pub const MOST_OUTPUTS: usize = 4096;

/// Nor outputs of more nodes together.
pub const MOST_NODES: u64 = 1_048_576;

/// Nor deeper ones.
pub const MOST_LEVELS: u64 = 2000;

/// What of a load is too much.
#[derive(Clone, Copy, Debug, PartialEq, Eq)]
pub enum Load {
    Outputs,
    Nodes,
    Depth,
}

/// An output, with its size.
#[derive(Drop)]
pub struct Out<'t, V> {
    pub cut: Cut<'t, V>,
    pub nodes: u64,
    pub levels: u64,
    ghost nodes_are: { nodes ≡ node_count (tree_of (plain_cut cut)) },
    ghost levels_are: { levels ≡ depth (tree_of (plain_cut cut)) },
    ghost shallow: { levels ≤ greatest_depth },
}

/// The parts of a node, with their size.
#[derive(Drop)]
pub struct Row<'t, V> {
    pub parts: Vec<Cut<'t, V>>,
    pub nodes: u64,
    pub levels: u64,
    ghost nodes_are: { nodes ≡ node_count_all (trees_of_cuts (cuts_in (map plain_cut parts.items))) },
    ghost levels_are: { levels ≡ depth_all (trees_of_cuts (cuts_in (map plain_cut parts.items))) },
    ghost shallow: { levels ≤ greatest_depth },
}

/// The kept outputs in order, each once, and a number of an output that isn't kept.
#[derive(Drop)]
pub struct Listing<'t, V> {
    pub outs: Vec<Out<'t, V>>,
    pub far: Option<i128>,
    ghost few: { length outs.items ≤ most_outputs },
    ghost light: { sum_of (λ o. o.nodes) outs.items ≤ most_nodes },
}

/// The same of the parts of a node.
#[derive(Drop)]
pub struct RowListing<'t, V> {
    pub rows: Vec<Row<'t, V>>,
    pub far: Option<i128>,
    ghost few: { length rows.items ≤ most_outputs },
}

/// What is found of a term: that there is too much, or a list.
#[derive(Drop)]
pub enum Found<'t, V> {
    TooMuch(Load),
    Listed(Listing<'t, V>),
}

/// What is found of the parts of a node.
#[derive(Drop)]
pub enum FoundRows<'t, V> {
    TooMuch(Load),
    Listed(RowListing<'t, V>),
}
