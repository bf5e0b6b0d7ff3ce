//! Nodes whose children are begun, of which the rules for "not s" are made.

ghost use Rattle.std.specs.Prelude.{ℕ, ◌≡◌, ◌<◌, ◌++◌, ◌∷◌, [], cond, length, map, get_or, All, Contains, IfOk, OnOk};
ghost use Rattle.std.specs.List.{list_all};
ghost use Rattle.model_sta.specs.Sets.{has, rows_meet};
ghost use Rattle.model_sta.specs.Least.{rows_of, rows_at};
ghost use Rattle.sta_core.specs.Machine.{plain_rule};
ghost use Rattle.sta_classes.specs.Grow.{Grown};
ghost use Rattle.sta_classes.specs.Plain.{class_row};
ghost use Rattle.sta_theory.specs.Opposite.{signed};
ghost use Rattle.sta_theory.specs.Made.{AreNext};
ghost use Rattle.sta_ops.specs.Opposites.{plain_begun, rows_in, demands_in, opposite_in, Asks, AnyAsks, ArePicked, answers, AddsNext, AreOfClasses, AreAllBegun};

use fast_fault::Memory;
use indexmap::IndexSet;
use sta_classes::Table;
use sta_core::StaRule;
use std::alloc::Global;

/// The first children of a node by their classes, and the states that each of them is to have.
#[derive(Drop)]
pub struct Begun {
    pub children: Vec<u32>,
    pub demands: Vec<Vec<u64>>,
}

/// Whether the class has each of the states.
fn has_each<A, V>(table: &Table<A, V>, class: u32, states: &[u64]) -> bool
    requires { class < length table.now.found }
    ensures { result ≡ list_all (has (class_row table.now class)) states.now }
{
    for state in states {
        if !table.has(class, *state) {
            return false;
        }
    }
    true
}

/// Whether children of these classes, as far as there are any, have what is demanded of them.
pub fn demands_met<A, V>(table: &Table<A, V>, children: &[u32], demands: &[Vec<u64>]) -> bool
    requires { All (λ k. k < length table.now.found) children.now }
    ensures { result ≡ rows_meet (rows_at table.now.found children.now) (map (λ d. d.items) demands.now) }
{
    let mut i = 0;
    for child in children {
        if i >= demands.len() {
            return true;
        }
        if !has_each(table, *child, &demands[i]) {
            return false;
        }
        i += 1;
    }
    true
}

/// Adds the states.
fn add_states(states: &[u64], asked: &mut IndexSet<u64>) -> Result<(), Memory>
    ensures { OnOk result (Grown asked.old.keys asked.new.keys (Contains states.now)) }
{
    'states: for state in states {
        asked.insert(*state)?;
    }
    Ok(())
}

/// Adds the states that the rule demands of the next child, if it may still apply.
fn add_of_rule<A, V>(
    table: &Table<A, V>,
    rule: &StaRule<A>,
    constructor: u32,
    children: &[u32],
    asked: &mut IndexSet<u64>,
) -> Result<(), Memory>
    requires { All (λ k. k < length table.now.found) children.now }
    ensures { OnOk result (Grown asked.old.keys asked.new.keys (Asks constructor (plain_rule rule.now) (rows_at table.now.found children.now))) }
{
    if rule.constructor != constructor {
        return Ok(());
    }
    if children.len() >= rule.demands.len() {
        return Ok(());
    }
    if !demands_met(table, children, &rule.demands) {
        return Ok(());
    }
    add_states(&rule.demands[children.len()], asked)?;
    Ok(())
}

/// The states that rules which may still apply demand of the next child.
fn asked_states<A, V>(
    alloc: Global,
    table: &Table<A, V>,
    rules: &[StaRule<A>],
    constructor: u32,
    children: &[u32],
) -> Result<IndexSet<u64>, Memory>
    requires { All (λ k. k < length table.now.found) children.now }
    ensures { IfOk result (λ asked. (s : ℕ) → (Contains asked.keys s → AnyAsks constructor (map plain_rule rules.now) (rows_at table.now.found children.now) s) × (AnyAsks constructor (map plain_rule rules.now) (rows_at table.now.found children.now) s → Contains asked.keys s)) }
{
    let mut asked = IndexSet::new(alloc);
    'rules: for rule in rules {
        add_of_rule(table, rule, constructor, children, &mut asked)?;
    }
    Ok(asked)
}

/// Of each of the states, whether the class has it.
fn signs<A, V>(
    alloc: Global,
    table: &Table<A, V>,
    class: u32,
    states: &[u64],
) -> Result<Vec<bool>, Memory>
    requires { class < length table.now.found }
    ensures { IfOk result (λ signs. signs.items ≡ map (has (class_row table.now class)) states.now) }
{
    let mut signs = Vec::new(alloc);
    for state in states {
        signs.push(table.has(class, *state))?;
    }
    Ok(signs)
}

/// Puts the class behind the others, if it has a new combination.
fn note(picked: &mut Vec<u32>, class: u32, new: bool) -> Result<(), Memory>
    ensures { OnOk result (picked.new.items ≡ cond new (picked.old.items ++ class ∷ []) picked.old.items) }
{
    if new {
        picked.push(class)?;
    }
    Ok(())
}

/// One class for each combination of these states that classes have.
fn pick<A, V>(alloc: Global, table: &Table<A, V>, states: &[u64]) -> Result<Vec<u32>, Memory>
    ensures { IfOk result (λ picked. ArePicked (rows_of table.now.found) states.now picked.items) }
{
    let mut seen = IndexSet::new(alloc);
    let mut picked = Vec::new(alloc);
    'classes: for class in 0..table.len() {
        let new = seen.insert(signs(alloc, table, class, states)?)?;
        note(&mut picked, class, new)?;
    }
    Ok(picked)
}

/// The state if the class has it, and else its opposite.
fn signed<A, V>(table: &Table<A, V>, class: u32, state: u64, opposites: &[u64]) -> u64
    requires class { class < length table.now.found }
    requires state { state < length opposites.now }
    ensures { result ≡ signed (opposite_in opposites.now) (has (class_row table.now class) state) state }
{
    if table.has(class, state) {
        return state;
    }
    opposites[state as usize]
}

/// What a child is to have that has of these states those that the class has.
fn answers<A, V>(
    alloc: Global,
    table: &Table<A, V>,
    class: u32,
    states: &[u64],
    opposites: &[u64],
) -> Result<Vec<u64>, Memory>
    requires class { class < length table.now.found }
    requires states { All (λ s. s < length opposites.now) states.now }
    ensures { IfOk result (λ made. made.items ≡ answers (rows_of table.now.found) opposites.now states.now class) }
{
    let mut made = Vec::new(alloc);
    for state in states {
        made.push(signed(table, class, *state, opposites))?;
    }
    Ok(made)
}

/// Copies of the demands.
pub fn copy_demands(alloc: Global, demands: &[Vec<u64>]) -> Result<Vec<Vec<u64>>, Memory>
    ensures { IfOk result (λ copies. map (λ d. d.items) copies.items ≡ map (λ d. d.items) demands.now) }
{
    let mut copies = Vec::new(alloc);
    for states in demands {
        copies.push(Vec::from_slice(alloc, states)?)?;
    }
    Ok(copies)
}

/// The same with a child more, which is to have the states.
fn with_child(alloc: Global, begun: &Begun, class: u32, states: Vec<u64>) -> Result<Begun, Memory>
    ensures { IfOk result (λ made. plain_begun made ≡ record { children = begun.now.children.items ++ class ∷ []; demands = map (λ d. d.items) begun.now.demands.items ++ states.items ∷ [] }) }
{
    let mut children = Vec::from_slice(alloc, &begun.children)?;
    children.push(class)?;
    let mut demands = copy_demands(alloc, &begun.demands)?;
    demands.push(states)?;
    Ok(Begun { children, demands })
}

/// Adds the same with one child more, for each combination of these states that classes have.
fn add_next<A, V>(
    alloc: Global,
    table: &Table<A, V>,
    begun: &Begun,
    states: &[u64],
    opposites: &[u64],
    nodes: &mut Vec<Begun>,
) -> Result<(), Memory>
    requires states { All (λ s. s < length opposites.now) states.now }
    ensures { OnOk result (AddsNext (rows_of table.now.found) opposites.now states.now (plain_begun begun.now) (map plain_begun nodes.old.items) (map plain_begun nodes.new.items)) }
{
    let picked = pick(alloc, table, states)?;
    for class in &picked {
        let states = answers(alloc, table, *class, states, opposites)?;
        nodes.push(with_child(alloc, begun, *class, states)?)?;
    }
    Ok(())
}

/// The same with one child more, for each combination of the states asked for it that classes have.
fn longer<A, V>(
    alloc: Global,
    table: &Table<A, V>,
    rules: &[StaRule<A>],
    constructor: u32,
    opposites: &[u64],
    nodes: &[Begun],
) -> Result<Vec<Begun>, Memory>
    requires classes { AreOfClasses (rows_of table.now.found) (map plain_begun nodes.now) }
    requires states { All (λ r. All (λ d. All (λ s. s < length opposites.now) d.items) r.demands.items) rules.now }
    ensures next { IfOk result (λ made. AreNext (opposite_in opposites.now) (rows_in (rows_of table.now.found)) demands_in (AnyAsks constructor (map plain_rule rules.now)) (rows_of table.now.found) (map plain_begun nodes.now) (map plain_begun made.items)) }
    ensures classes { IfOk result (λ made. AreOfClasses (rows_of table.now.found) (map plain_begun made.items)) }
{
    let mut made = Vec::new(alloc);
    'nodes: for begun in nodes {
        let asked = asked_states(alloc, table, rules, constructor, &begun.children)?;
        add_next(alloc, table, begun, asked.as_slice(), opposites, &mut made)?;
    }
    Ok(made)
}

/// A node with no children.
fn none_begun(alloc: Global) -> Result<Vec<Begun>, Memory>
    ensures { IfOk result (λ nodes. map plain_begun nodes.items ≡ record { children = []; demands = [] } ∷ []) }
{
    let mut nodes = Vec::new(alloc);
    nodes.push(Begun {
        children: Vec::new(alloc),
        demands: Vec::new(alloc),
    })?;
    Ok(nodes)
}

/// Nodes with so many children, for all combinations of the states asked for them that classes have.
pub fn all_begun<A, V>(
    alloc: Global,
    table: &Table<A, V>,
    rules: &[StaRule<A>],
    constructor: u32,
    opposites: &[u64],
    rank: u32,
) -> Result<Vec<Begun>, Memory>
    requires states { All (λ r. All (λ d. All (λ s. s < length opposites.now) d.items) r.demands.items) rules.now }
    ensures begun { IfOk result (λ nodes. AreAllBegun (rows_of table.now.found) (map plain_rule rules.now) constructor opposites.now rank (map plain_begun nodes.items)) }
    ensures classes { IfOk result (λ nodes. AreOfClasses (rows_of table.now.found) (map plain_begun nodes.items)) }
{
    let mut nodes = none_begun(alloc)?;
    'places: for place in 0..rank {
        nodes = longer(alloc, table, rules, constructor, opposites, &nodes)?;
    }
    Ok(nodes)
}
