//! Which nodes over a class tell it from others: one for each place, each list of kinds at the other places, and each value.

ghost use Rattle.std.specs.Prelude.{◌≡◌, ◌<◌, ◌^◌, length, map, IfOk, OnOk};
ghost use Rattle.sta_classes.specs.Grow.{Grown, Some};
ghost use Rattle.sta_classes.specs.Rows.{lists_of};
ghost use Rattle.sta_min.specs.Kinds.{nested};
ghost use Rattle.sta_min.specs.Probes.{plain_probe, with_one, IsProbeWith, IsProbeOf, ArePlainProbes};

use crate::lists::combinations;
use fast_fault::Memory;
use std::alloc::Global;

/// A constructor, the number of one of its values, and classes for its children, of which the one at the place is put in.
#[derive(Drop)]
pub struct Probe {
    pub constructor: u32,
    pub value: usize,
    pub place: usize,
    pub children: Vec<u32>,
}

/// Adds a probe with the children for each of the values.
fn add_values(
    alloc: Global,
    constructor: u32,
    place: usize,
    children: &[u32],
    values: usize,
    probes: &mut Vec<Probe>,
) -> Result<(), Memory>
    ensures { OnOk result (Grown (map plain_probe probes.old.items) (map plain_probe probes.new.items) (IsProbeWith constructor place values children.now)) }
{
    'values: for value in 0..values {
        let children = Vec::from_slice(alloc, children)?;
        probes.push(Probe {
            constructor,
            value,
            place,
            children,
        })?;
    }
    Ok(())
}

/// The choices, with one alone for the place.
fn choices_with(alloc: Global, kinds: &[Vec<u32>], place: usize) -> Result<Vec<Vec<u32>>, Memory>
    ensures { IfOk result (λ choices. lists_of choices.items ≡ with_one (lists_of kinds.now) place) }
{
    let mut choices = Vec::new(alloc);
    'places: for j in 0..kinds.len() {
        let mut those = Vec::from_slice(alloc, &kinds[j])?;
        if j == place {
            those.truncate(1);
        }
        choices.push(those)?;
    }
    Ok(choices)
}

/// Adds probes with each of the lists as children.
fn add_lists(
    alloc: Global,
    constructor: u32,
    place: usize,
    lists: &[Vec<u32>],
    values: usize,
    probes: &mut Vec<Probe>,
) -> Result<(), Memory>
    ensures { OnOk result (Grown (map plain_probe probes.old.items) (map plain_probe probes.new.items) (Some (λ v. IsProbeWith constructor place values v.items) lists.now)) }
{
    'lists: for list in lists {
        add_values(alloc, constructor, place, list, values, probes)?;
    }
    Ok(())
}

/// Adds the probes at each place of the constructor.
fn add_places(
    alloc: Global,
    constructor: u32,
    kinds: &[Vec<u32>],
    values: usize,
    probes: &mut Vec<Probe>,
) -> Result<(), Memory>
    ensures { OnOk result (Grown (map plain_probe probes.old.items) (map plain_probe probes.new.items) (IsProbeOf constructor values (lists_of kinds.now))) }
{
    'places: for place in 0..kinds.len() {
        let choices = choices_with(alloc, kinds, place)?;
        let lists = combinations(alloc, &choices)?;
        add_lists(alloc, constructor, place, &lists, values, probes)?;
    }
    Ok(())
}

/// The probes of all constructors, for classes of all kinds at each place and the values of each constructor.
pub fn all_probes<V>(
    alloc: Global,
    kinds: &[Vec<Vec<u32>>],
    values: &[Vec<V>],
) -> Result<Vec<Probe>, Memory>
    requires few { length kinds.now < 2 ^ 32 }
    requires values { length values.now ≡ length kinds.now }
    ensures { IfOk result (λ probes. ArePlainProbes (nested kinds.now) (map (λ v. length v.items) values.now) (map plain_probe probes.items)) }
{
    let mut probes = Vec::new(alloc);
    'constructors: for constructor in 0..kinds.len() {
        let count = values[constructor].len();
        add_places(
            alloc,
            constructor as u32,
            &kinds[constructor],
            count,
            &mut probes,
        )?;
    }
    Ok(probes)
}
