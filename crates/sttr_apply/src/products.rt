//! Parts of a node, one before others.

ghost use Rattle.std.specs.Prelude.{◌≡◌, ◌+◌, ◌<◌, ◌^◌, ◌++◌, map, IfOk, OnSome, IfSome, IfNone};
ghost use Rattle.model_tree.specs.Limits.{most_nodes};
ghost use Rattle.model_sttr.specs.Cuts.{cut};
ghost use Rattle.apply_laws.specs.Meant.{meant};
ghost use Rattle.apply_laws.specs.Listing.{products, has_some, first_some, only_if};
ghost use Rattle.apply_laws.specs.Found.{IsProduct, IsProductOf, StillTooMuch};
ghost use Rattle.sttr_apply.specs.Plain.{out_cut, row_cuts, found_of, rows_found, load_of};
ghost use Rattle.sttr_apply.specs.Products.{row_nodes, product_nodes, meant_rows};

use crate::copies::{copy_out, copy_row};
use crate::outs::{
    Found, FoundRows, Listing, Load, MOST_NODES, MOST_OUTPUTS, Out, Row, RowListing,
};
use fast_fault::Memory;
use label_core::Theory;
use std::alloc::Global;

/// What is left of so many nodes without those of a part and of parts.
fn without(left: u64, first: u64, rest: u64) -> Option<u64>
    ensures none { IfNone result (left < first + rest) }
    ensures some { IfSome result (λ now. now + (first + rest) ≡ left) }
{
    left.checked_sub(first)?.checked_sub(rest)
}

/// The part before the parts.
fn with_first<'t, V: Drop>(first: Out<'t, V>, rest: Row<'t, V>) -> Result<Row<'t, V>, Memory>
    requires { first.nodes + rest.nodes < 2 ^ 64 }
    ensures cuts { IfOk result (λ row. row_cuts row ≡ cut (out_cut first.entry) (row_cuts rest.entry)) }
    ensures nodes { IfOk result (λ row. row.nodes ≡ first.entry.nodes + rest.entry.nodes) }
{
    let Out { cut, nodes, levels } = first;
    let Row {
        mut parts,
        nodes: others,
        levels: below,
    } = rest;
    parts.insert(0, cut)?;
    let nodes = nodes + others;
    let levels = levels.max(below);
    Ok(Row {
        parts,
        nodes,
        levels,
    })
}

/// Adds the part before each of the parts, in copies. Tells what is left of so many nodes, if they have no more.
fn add_copies<'t, T: Theory>(
    theory: &T,
    alloc: Global,
    first: &Out<'t, T::Value>,
    rests: &[Row<'t, T::Value>],
    rows: &mut Vec<Row<'t, T::Value>>,
    left: u64,
) -> Result<Option<u64>, Memory>
    ensures none { IfOk result (λ r. IfNone r (left < row_nodes first.now rests.now)) }
    ensures some { IfOk result (λ r. IfSome r (λ now. now + row_nodes first.now rests.now ≡ left)) }
    ensures rows { IfOk result (λ r. OnSome r (meant_rows T.label_of rows.new.items ≡ meant_rows T.label_of rows.old.items ++ map (cut (meant T.label_of (out_cut first.now))) (meant_rows T.label_of rests.now))) }
{
    let mut left = left;
    'rests: for rest in rests {
        match without(left, first.nodes, rest.nodes) {
            Some(now) => left = now,
            None => return Ok(None),
        }
        let first = copy_out(theory, alloc, first)?;
        let rest = copy_row(theory, alloc, rest)?;
        rows.push(with_first(first, rest)?)?;
    }
    Ok(Some(left))
}

/// The same, with copies of the part alone, and none for the last of the parts.
fn add_rows<'t, T: Theory>(
    theory: &T,
    alloc: Global,
    first: Out<'t, T::Value>,
    rests: Vec<Row<'t, T::Value>>,
    rows: &mut Vec<Row<'t, T::Value>>,
    left: u64,
) -> Result<Option<u64>, Memory>
    ensures none { IfOk result (λ r. IfNone r (left < row_nodes first.entry rests.entry.items)) }
    ensures rows { IfOk result (λ r. OnSome r (meant_rows T.label_of rows.new.items ≡ meant_rows T.label_of rows.old.items ++ map (cut (meant T.label_of (out_cut first.entry))) (meant_rows T.label_of rests.entry.items))) }
{
    let mut left = left;
    let mut rests = rests;
    let last = match rests.pop() {
        Some(last) => last,
        None => return Ok(Some(left)),
    };
    'rests: for rest in rests {
        match without(left, first.nodes, rest.nodes) {
            Some(now) => left = now,
            None => return Ok(None),
        }
        let first = copy_out(theory, alloc, &first)?;
        rows.push(with_first(first, rest)?)?;
    }
    match without(left, first.nodes, last.nodes) {
        Some(now) => left = now,
        None => return Ok(None),
    }
    rows.push(with_first(first, last)?)?;
    Ok(Some(left))
}

/// Each of the first parts before each of the parts, in order, if they have no more nodes than is shown.
fn product<'t, T: Theory>(
    theory: &T,
    alloc: Global,
    firsts: Vec<Out<'t, T::Value>>,
    rests: Vec<Row<'t, T::Value>>,
) -> Result<Option<Vec<Row<'t, T::Value>>>, Memory>
    ensures none { IfOk result (λ r. IfNone r (most_nodes < product_nodes firsts.entry.items rests.entry.items)) }
    ensures rows { IfOk result (λ r. IfSome r (λ rows. meant_rows T.label_of rows.items ≡ products (map (meant T.label_of) (map out_cut firsts.entry.items)) (meant_rows T.label_of rests.entry.items))) }
{
    let mut rows = Vec::new(alloc);
    let mut firsts = firsts;
    let last = match firsts.pop() {
        Some(last) => last,
        None => return Ok(Some(rows)),
    };
    let mut left = MOST_NODES;
    'firsts: for first in &firsts {
        match add_copies(theory, alloc, first, &rests, &mut rows, left)? {
            Some(now) => left = now,
            None => return Ok(None),
        }
    }
    match add_rows(theory, alloc, last, rests, &mut rows, left)? {
        Some(_) => Ok(Some(rows)),
        None => Ok(None),
    }
}

/// Whether there is an output.
fn has_out<'t, V>(listing: &Listing<'t, V>) -> bool
    ensures { result ≡ has_some (map out_cut listing.now.outs.items) listing.now.far }
{
    !listing.outs.is_empty() || listing.far.is_some()
}

/// Whether there are parts.
pub fn has_row<'t, V>(listing: &RowListing<'t, V>) -> bool
    ensures { result ≡ has_some (map row_cuts listing.now.rows.items) listing.now.far }
{
    !listing.rows.is_empty() || listing.far.is_some()
}

/// Too much still, if there are any at all.
fn still<'t, V>(alloc: Global, load: Load, some: bool) -> FoundRows<'t, V>
    ensures { StillTooMuch (load_of load) some (rows_found result) }
{
    if some {
        return FoundRows::TooMuch(load);
    }
    FoundRows::Listed(RowListing {
        rows: Vec::new(alloc),
        far: None,
    })
}

/// A number of an output of both, if both have any.
fn far_of_both(first: Option<i128>, rest: Option<i128>, some: bool) -> Option<i128>
    ensures { result ≡ only_if some (first_some first rest) }
{
    if !some {
        return None;
    }
    match first {
        Some(number) => Some(number),
        None => rest,
    }
}

/// A list of parts before lists of parts.
fn combine_lists<'t, T: Theory>(
    theory: &T,
    alloc: Global,
    first: Listing<'t, T::Value>,
    rest: RowListing<'t, T::Value>,
) -> Result<FoundRows<'t, T::Value>, Memory>
    ensures { IfOk result (λ both. IsProductOf T.label_of (map out_cut first.entry.outs.items) first.entry.far (map row_cuts rest.entry.rows.items) rest.entry.far (rows_found both)) }
{
    if first.outs.len().saturating_mul(rest.rows.len()) > MOST_OUTPUTS {
        return Ok(FoundRows::TooMuch(Load::Outputs));
    }
    let some = has_out(&first) && has_row(&rest);
    let far = far_of_both(first.far, rest.far, some);
    let Listing { outs, .. } = first;
    let RowListing { rows, .. } = rest;
    match product(theory, alloc, outs, rows)? {
        Some(rows) => Ok(FoundRows::Listed(RowListing { rows, far })),
        None => Ok(FoundRows::TooMuch(Load::Nodes)),
    }
}

/// A part before parts.
pub fn combine<'t, T: Theory>(
    theory: &T,
    alloc: Global,
    first: Found<'t, T::Value>,
    rest: FoundRows<'t, T::Value>,
) -> Result<FoundRows<'t, T::Value>, Memory>
    ensures { IfOk result (λ both. IsProduct T.label_of (found_of first.entry) (rows_found rest.entry) (rows_found both)) }
{
    match first {
        Found::TooMuch(load) => match rest {
            FoundRows::TooMuch(_) => Ok(FoundRows::TooMuch(load)),
            FoundRows::Listed(rest) => Ok(still(alloc, load, has_row(&rest))),
        },
        Found::Listed(first) => match rest {
            FoundRows::TooMuch(load) => Ok(still(alloc, load, has_out(&first))),
            FoundRows::Listed(rest) => {
                let both = combine_lists(theory, alloc, first, rest)?;
                Ok(both)
            }
        },
    }
}
