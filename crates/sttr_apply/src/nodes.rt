//! New nodes over rows of parts.

ghost use Rattle.std.specs.Prelude.{◌≡◌, ◌+◌, ◌<◌, ◌^◌, true, map, Some, IfOk, IfErr};
ghost use Rattle.model_tree.specs.Limits.{greatest_depth};
ghost use Rattle.model_sttr.specs.Cuts.{new};
ghost use Rattle.label_core.specs.Meaning.{KeepsValue};
ghost use Rattle.apply_laws.specs.Listing.{only_if};
ghost use Rattle.apply_laws.specs.Found.{listed, IsNodeFound};
ghost use Rattle.sttr_apply.specs.Labels.{keeps, Outside};
ghost use Rattle.sttr_apply.specs.Nodes.{IsRoomless};
ghost use Rattle.sttr_apply.specs.Plain.{out_cut, row_cuts, found_of, rows_found};

use crate::outs::{Found, FoundRows, Listing, Load, MOST_LEVELS, MOST_NODES, Out, Row, RowListing};
use crate::products::has_row;
use fast_cut::{Cut, CutNode};
use fast_fault::Memory;
use label_core::{Applied, Labels, Theory};
use std::alloc::Global;

/// What is left of so many nodes without those of a node over the row.
fn room<'t, V>(left: u64, row: &Row<'t, V>) -> Result<u64, Load>
    ensures left { IfOk result (λ now. now + (row.now.nodes + 1) ≡ left) }
    ensures shallow { IfOk result (λ _. row.now.levels < greatest_depth) }
    ensures none { IfErr result (IsRoomless left row.now) }
{
    if row.levels >= MOST_LEVELS {
        return Err(Load::Depth);
    }
    if left <= row.nodes {
        return Err(Load::Nodes);
    }
    Ok(left - row.nodes - 1)
}

/// The node over the row.
fn node_over<'t, V>(constructor: u32, label: V, row: Row<'t, V>) -> Out<'t, V>
    requires shallow { row.levels < greatest_depth }
    requires nodes { row.nodes + 1 < 2 ^ 64 }
    ensures cut { out_cut result ≡ new constructor label (row_cuts row.entry) }
    ensures nodes { result.nodes ≡ row.entry.nodes + 1 }
{
    let Row {
        parts,
        nodes,
        levels,
    } = row;
    Out {
        cut: Cut::Node(CutNode {
            constructor,
            label,
            parts,
        }),
        nodes: nodes + 1,
        levels: levels + 1,
    }
}

/// A node over each of the rows, with labels that mean the same.
fn nodes_over<'t, T: Theory>(
    theory: &T,
    alloc: Global,
    constructor: u32,
    label: T::Value,
    listing: RowListing<'t, T::Value>,
) -> Result<Found<'t, T::Value>, Memory>
    requires { keeps (T.label_of label) ≡ true }
    ensures { IfOk result (λ found. IsNodeFound T.label_of keeps Outside constructor (T.label_of label) (listed (map row_cuts listing.entry.rows.items) listing.entry.far) (found_of found)) }
{
    let RowListing { rows, far } = listing;
    let mut rows = rows;
    let mut outs = Vec::with_capacity(alloc, rows.len())?;
    let last = match rows.pop() {
        Some(last) => last,
        None => return Ok(Found::Listed(Listing { outs, far })),
    };
    let mut left = MOST_NODES;
    'rows: for row in rows {
        match room(left, &row) {
            Ok(now) => left = now,
            Err(load) => return Ok(Found::TooMuch(load)),
        }
        let label = theory.copy_value(alloc, &label)?;
        outs.push(node_over(constructor, label, row))?;
    }
    match room(left, &last) {
        Ok(_) => {}
        Err(load) => return Ok(Found::TooMuch(load)),
    }
    outs.push(node_over(constructor, label, last))?;
    Ok(Found::Listed(Listing { outs, far }))
}

/// The number, if there are parts.
fn far_if(some: bool, far: i128) -> Option<i128>
    ensures { result ≡ only_if some (Some far) }
{
    if some { Some(far) } else { None }
}

/// A node with the label that the map makes, over parts.
pub fn build<'t, T: Labels>(
    theory: &T,
    alloc: Global,
    constructor: u32,
    map: &T::Map,
    value: &T::Value,
    rows: FoundRows<'t, T::Value>,
) -> Result<Found<'t, T::Value>, Memory>
    requires map_fits { T.map_fits theory.now map.now }
    requires value_fits { KeepsValue (T.meaning theory.now) value.now }
    ensures { IfOk result (λ found. IsNodeFound T.label_of keeps Outside constructor (T.make map.now (T.label_of value.now)) (rows_found rows.entry) (found_of found)) }
{
    match rows {
        FoundRows::TooMuch(load) => Ok(Found::TooMuch(load)),
        FoundRows::Listed(listing) => match theory.apply(alloc, map, value)? {
            Applied::Value(label) => {
                let found = nodes_over(theory, alloc, constructor, label, listing)?;
                Ok(found)
            }
            Applied::Range(number) => {
                let far = far_if(has_row(&listing), number);
                let outs = Vec::new(alloc);
                Ok(Found::Listed(Listing { outs, far }))
            }
        },
    }
}
