//! A class, and what counts of the classes of children.

ghost use Rattle.std.specs.Prelude.{◌≡◌, ◌<◌, length, map, All};
ghost use Rattle.std.specs.List.{list_all};
ghost use Rattle.model_sta.specs.Sets.{has, rows_meet};
ghost use Rattle.model_sta.specs.Least.{cost};
ghost use Rattle.sta_classes.specs.Rows.{class_rows_at, class_counts_at};

use crate::row::Row;

/// One more than the greatest number of nodes of a tree that is shown.
pub const CAP: u64 = 1_048_577;

/// A set of states that trees have, the number of nodes of a least tree that has it, up to the cap, and how that tree is
/// made from those of earlier classes.
#[derive(Drop)]
pub struct Class<V> {
    pub row: Row,
    pub nodes: u64,
    pub constructor: u32,
    pub value: V,
    pub children: Vec<usize>,
}

/// Whether the row has each of the states.
pub fn row_has_each(row: &Row, states: &[u64]) -> bool
    ensures { result ≡ list_all (has row.now) states.now }
{
    for state in states {
        if !row.has(*state) {
            return false;
        }
    }
    true
}

/// Whether each child's class has the states that are demanded of it.
pub fn demands_met<V>(found: &[Class<V>], children: &[usize], demands: &[Vec<u64>]) -> bool
    requires { All (λ k. k < length found.now) children.now }
    ensures { result ≡ rows_meet (class_rows_at found.now children.now) (map (λ d. d.items) demands.now) }
{
    let mut i = 0;
    for child in children {
        if i >= demands.len() {
            return true;
        }
        if !row_has_each(&found[*child].row, &demands[i]) {
            return false;
        }
        i += 1;
    }
    true
}

/// The number of nodes over these children, up to the cap.
pub fn cost_over<V>(found: &[Class<V>], children: &[usize]) -> u64
    requires { All (λ k. k < length found.now) children.now }
    ensures { result ≡ cost CAP (class_counts_at found.now children.now) }
{
    let mut nodes = 1;
    for child in children {
        let more = found[*child].nodes;
        if more >= CAP - nodes {
            return CAP;
        }
        nodes += more;
    }
    nodes
}
