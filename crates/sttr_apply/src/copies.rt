//! Copies of outputs, with labels of their own.

ghost use Rattle.std.specs.Prelude.{◌≡◌, map, IfOk};
ghost use Rattle.fast_cut.specs.Cuts.{plain_cut};
ghost use Rattle.apply_laws.specs.Meant.{meant, all_meant};
ghost use Rattle.sttr_apply.specs.Plain.{out_cut, row_cuts};

use crate::outs::{Listing, Out, Row};
use fast_cut::{Cut, CutNode};
use fast_fault::Memory;
use label_core::Theory;
use std::alloc::Global;

/// A cut that means the same.
pub fn copy_cut<'t, T: Theory>(
    theory: &T,
    alloc: Global,
    cut: &Cut<'t, T::Value>,
) -> Result<Cut<'t, T::Value>, Memory>
    ensures { IfOk result (λ copy. meant T.label_of (plain_cut copy) ≡ meant T.label_of (plain_cut cut.now)) }
{
    match cut {
        Cut::Keep(tree) => Ok(Cut::Keep(*tree)),
        Cut::Node(node) => {
            let label = theory.copy_value(alloc, &node.label)?;
            let mut parts = Vec::with_capacity(alloc, node.parts.len())?;
            'parts: for part in &node.parts {
                parts.push(copy_cut(theory, alloc, part)?)?;
            }
            let constructor = node.constructor;
            Ok(Cut::Node(CutNode {
                constructor,
                label,
                parts,
            }))
        }
    }
}

/// An output that means the same.
pub fn copy_out<'t, T: Theory>(
    theory: &T,
    alloc: Global,
    out: &Out<'t, T::Value>,
) -> Result<Out<'t, T::Value>, Memory>
    ensures meaning { IfOk result (λ copy. meant T.label_of (out_cut copy) ≡ meant T.label_of (out_cut out.now)) }
    ensures nodes { IfOk result (λ copy. copy.nodes ≡ out.now.nodes) }
{
    let cut = copy_cut(theory, alloc, &out.cut)?;
    let nodes = out.nodes;
    let levels = out.levels;
    Ok(Out { cut, nodes, levels })
}

/// Parts that mean the same, with room for one more.
pub fn copy_row<'t, T: Theory>(
    theory: &T,
    alloc: Global,
    row: &Row<'t, T::Value>,
) -> Result<Row<'t, T::Value>, Memory>
    ensures meaning { IfOk result (λ copy. all_meant T.label_of (row_cuts copy) ≡ all_meant T.label_of (row_cuts row.now)) }
    ensures nodes { IfOk result (λ copy. copy.nodes ≡ row.now.nodes) }
{
    let mut parts = Vec::with_capacity(alloc, row.parts.len() + 1)?;
    'copies: for part in &row.parts {
        parts.push(copy_cut(theory, alloc, part)?)?;
    }
    let nodes = row.nodes;
    let levels = row.levels;
    Ok(Row {
        parts,
        nodes,
        levels,
    })
}

/// A list of outputs that mean the same.
pub fn copy_listing<'t, T: Theory>(
    theory: &T,
    alloc: Global,
    listing: &Listing<'t, T::Value>,
) -> Result<Listing<'t, T::Value>, Memory>
    ensures cuts { IfOk result (λ copy. map (meant T.label_of) (map out_cut copy.outs.items) ≡ map (meant T.label_of) (map out_cut listing.now.outs.items)) }
    ensures far { IfOk result (λ copy. copy.far ≡ listing.now.far) }
{
    let mut outs = Vec::with_capacity(alloc, listing.outs.len())?;
    'outs: for out in &listing.outs {
        outs.push(copy_out(theory, alloc, out)?)?;
    }
    let far = listing.far;
    Ok(Listing { outs, far })
}
