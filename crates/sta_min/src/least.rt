//! The least deterministic and complete automaton of a language.

ghost use Rattle.std.specs.Prelude.{◌≡◌, ◌<◌, ◌^◌, length, All, IfOk, IfErr};
ghost use Rattle.model_sta.specs.Automaton.{is_accepted};
ghost use Rattle.sta_core.specs.Fits.{RulesFit};
ghost use Rattle.sta_core.specs.Sta.{automaton_of, AtomsFit};
ghost use Rattle.sta_classes.specs.Meant.{IsBuilt, StopsClasses};
ghost use Rattle.sta_classes.specs.declared.class.TheConstants.{CAP};
ghost use Rattle.sta_classes.specs.Plain.{HasKinds};
ghost use Rattle.sta_classes.specs.Rows.{lists_of};
ghost use Rattle.sta_classes.specs.Rules.{plain_rules};
ghost use Rattle.sta_ops.specs.Languages.{IsMadeOfBoth};
ghost use Rattle.sta_min.specs.Least.{HasLeast, HasLittle, ListsFinals, IsMinimalOf};
ghost use Rattle.sta_min.specs.Steps.{IsRead};
ghost use Rattle.sta_min.specs.Written.{AreBlocksOf, AreAllRules};

use crate::dense::Blocks;
use crate::heads::all_heads;
use crate::joined::joined;
use crate::kinds::of_all_places;
use crate::parents::all_parents;
use crate::partition::{finals_of, partition};
use crate::steps::{Steps, steps_of};
use crate::written::rules_of_blocks;
use fast_fault::Memory;
use label_core::Theory;
use sta_classes::{ClassStop, classes};
use sta_core::{Lang, Sta, StaRule};
use std::alloc::Global;

/// A language as the last state of an automaton. The states before it are those of the least deterministic and complete
/// automaton, and the language is that of the final ones among them, which are listed in ascending order.
#[derive(Drop)]
pub struct Minimal<A> {
    pub lang: Lang<A>,
    pub finals: Vec<u32>,
    pub count: u32,
}

/// How many states the least deterministic and complete automaton of the language has. Takes no memory.
pub fn classes_of<A>(minimal: &Minimal<A>) -> u32
    ensures { result ≡ minimal.now.count }
{
    minimal.count
}

/// The rules of the blocks, and behind them those of the final ones together.
fn block_rules<T: Theory>(
    theory: &T,
    alloc: Global,
    steps: &Steps<T::Atom, T::Value>,
    ranks: &[u32],
    blocks: &Blocks,
    finals: &[u32],
) -> Result<Vec<Vec<StaRule<T::Atom>>>, Memory>
    requires few { length ranks.now < 2 ^ 32 }
    requires ranks { ranks.now ≡ steps.now.table.now.machine.ranks }
    requires read { IsRead (T.meaning theory.now) (T.atom_fits theory.now) steps.now }
    requires built { IsBuilt (T.meaning theory.now) CAP steps.now.table.now }
    requires blocks { AreBlocksOf steps.now.table.now blocks.now.firsts.items blocks.now.dense.items }
    requires finals { All (λ i. i < length blocks.now.firsts.items) finals.now }
    ensures { IfOk result (λ rules. AreAllRules T.Atom.eq T.label_of T.atom_holds steps.now.table.now (lists_of steps.now.values.items) blocks.now.firsts.items blocks.now.dense.items finals.now (plain_rules rules.items)) }
{
    let heads = all_heads(alloc, steps.table, ranks, blocks.firsts.len() as u32)?;
    let parents = all_parents(theory, alloc, steps, &blocks.firsts, &heads)?;
    let mut rules = rules_of_blocks(theory, alloc, steps.table, blocks, &parents)?;
    let last = joined(alloc, &rules, finals)?;
    rules.push(last)?;
    Ok(rules)
}

/// The language of the state.
fn lang_of<A: Drop>(
    alloc: Global,
    ranks: &[u32],
    rules: Vec<Vec<StaRule<A>>>,
    state: u32,
) -> Result<Lang<A>, Memory>
    requires { RulesFit ranks.now rules.items }
    ensures ranks { IfOk result (λ made. made.sta.ranks ≡ ranks.now) }
    ensures rules { IfOk result (λ made. made.sta.rules ≡ plain_rules rules.items) }
    ensures state { IfOk result (λ made. made.state ≡ state) }
{
    let ranks = Vec::from_slice(alloc, ranks)?;
    let sta = Sta::new(ranks, rules);
    let state = state as u64;
    Ok(Lang { sta, state })
}

/// The least automaton, by what is read of a table.
fn least_of<T: Theory>(
    theory: &T,
    alloc: Global,
    steps: &Steps<T::Atom, T::Value>,
    ranks: &[u32],
    state: u64,
) -> Result<Minimal<T::Atom>, Memory>
    requires few { length ranks.now < 2 ^ 32 }
    requires ranks { ranks.now ≡ steps.now.table.now.machine.ranks }
    requires read { IsRead (T.meaning theory.now) (T.atom_fits theory.now) steps.now }
    requires built { IsBuilt (T.meaning theory.now) CAP steps.now.table.now }
    requires kinds { HasKinds T.atom_holds steps.now.table.now }
    requires atoms { AtomsFit (T.atom_fits theory.now) steps.now.table.now.machine }
    ensures { IfOk result (IsMinimalOf (T.meaning theory.now) (T.atom_fits theory.now) (record { sta = steps.now.table.now.machine; state = state })) }
{
    let kinds = of_all_places(alloc, steps.table, ranks)?;
    let blocks = partition(theory, alloc, steps, &kinds, state)?;
    let finals = finals_of(alloc, steps.table, &blocks.firsts, state)?;
    let rules = block_rules(theory, alloc, steps, ranks, &blocks, &finals)?;
    let count = blocks.firsts.len() as u32;
    let lang = lang_of(alloc, ranks, rules, count)?;
    Ok(Minimal {
        lang,
        finals,
        count,
    })
}

/// The least deterministic and complete automaton of the language, with a state for the language behind its own.
pub fn minimize<T: Theory>(
    theory: &T,
    alloc: Global,
    a: &Lang<T::Atom>,
    most: u32,
) -> Result<Minimal<T::Atom>, ClassStop<T::Chain>>
    requires state { a.now.state < length a.now.sta.rules }
    requires fit { AtomsFit (T.atom_fits theory.now) a.now.sta }
    ensures least { IfOk result (HasLeast (T.meaning theory.now) a.now) }
    ensures little { IfOk result (HasLittle (T.meaning theory.now) a.now) }
    ensures finals { IfOk result ListsFinals }
    ensures made { IfOk result (λ m. IsMadeOfBoth (T.meaning theory.now) (T.atom_fits theory.now) a.now a.now m.lang) }
    ensures stop { IfErr result (StopsClasses (T.meaning theory.now) a.now.sta most) }
{
    // so many constructors are out of reach of any memory
    if a.sta.ranks().len() > u32::MAX as usize {
        return Err(ClassStop::Memory);
    }
    let constructors = a.sta.ranks().len() as u32;
    let table = classes(theory, alloc, &a.sta, most)?;
    let steps = steps_of(theory, alloc, &table, a.sta.rules(), constructors)?;
    let made = least_of(theory, alloc, &steps, a.sta.ranks(), a.state)?;
    Ok(made)
}
