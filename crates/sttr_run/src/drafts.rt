//! Ways as they are made.

ghost use Rattle.std.specs.Prelude.{◌≡◌, ◌↔◌, ◌⊎◌, ◌++◌, ◌∷◌, [], ℕ, true, map, Contains, IfOk, OnOk};
ghost use Rattle.label_core.specs.Formula.{plain_formula};
ghost use Rattle.model_sttr.specs.Terms.{Term};
ghost use Rattle.sttr_theory.specs.Triples.{LookName, middle};
ghost use Rattle.sttr_theory.specs.Triples as theory;
ghost use Rattle.sttr_run.specs.Drafts.{name_of, IsAskedIn, Asks, IsCopy, AddsCopies, IsBoth, AddsProducts, AreProducts};
ghost use Rattle.sttr_run.specs.Plain.{plain_triple, plain_way_term};

use crate::picks::Run;
use crate::triples::{Triple, WayTerm};
use fast_fault::Memory;
use label_core::{Duplicate, Formula, Labels};
use std::alloc::Global;

/// What is asked of a child: that a state of the second's lookahead accepts it, or that a state of the first has an output
/// on it that all of some states accept.
#[derive(Drop)]
pub enum Ask {
    State(u64),
    Output(u64, Vec<u64>),
}

/// What is asked of which child.
#[derive(Drop)]
pub struct Demand {
    pub child: u32,
    pub ask: Ask,
}

/// Guards of the first's label, what is asked of children, and terms.
#[derive(Drop)]
pub struct Draft<A, M> {
    pub guards: Vec<Formula<A>>,
    pub demands: Vec<Demand>,
    pub terms: Vec<WayTerm<M>>,
}

/// Whether the same is asked.
fn is_same_ask(ask: &Ask, other: &Ask) -> bool
    ensures { result ≡ true → name_of ask.now ≡ name_of other.now }
{
    match ask {
        Ask::State(state) => match other {
            Ask::State(as_state) => state == as_state,
            Ask::Output(_, _) => false,
        },
        Ask::Output(state, all) => match other {
            Ask::State(_) => false,
            Ask::Output(as_state, as_all) => state == as_state && all == as_all,
        },
    }
}

/// Whether one of the demands is this one.
fn has_demand(demands: &[Demand], demand: &Demand) -> bool
    ensures { result ≡ true → IsAskedIn demands.now demand.now.child (name_of demand.now.ask) }
{
    'demands: for one in demands {
        if one.child == demand.child && is_same_ask(&one.ask, &demand.ask) {
            return true;
        }
    }
    false
}

/// The same again.
fn copy_ask(alloc: Global, ask: &Ask) -> Result<Ask, Memory>
    ensures { IfOk result (λ copy. name_of copy ≡ name_of ask.now) }
{
    match ask {
        Ask::State(state) => Ok(Ask::State(*state)),
        Ask::Output(state, all) => Ok(Ask::Output(*state, Vec::from_slice(alloc, all)?)),
    }
}

/// The same again.
fn copy_triple(alloc: Global, triple: &Triple) -> Result<Triple, Memory>
    ensures { IfOk result (λ copy. plain_triple copy ≡ plain_triple triple.now) }
{
    let first = triple.first;
    let all = Vec::from_slice(alloc, &triple.all)?;
    let second = triple.second;
    Ok(Triple { first, all, second })
}

/// Puts copies of the formulas behind others.
pub fn add_guards<A: Duplicate + Drop>(
    alloc: Global,
    guards: &[Formula<A>],
    to: &mut Vec<Formula<A>>,
) -> Result<(), Memory>
    ensures { OnOk result (map plain_formula to.new.items ≡ map plain_formula to.old.items ++ map plain_formula guards.now) }
{
    'guards: for guard in guards {
        to.push(guard.copy(alloc)?)?;
    }
    Ok(())
}

/// Puts a copy of the demand behind others, unless it is there.
fn add_demand(alloc: Global, demand: &Demand, to: &mut Vec<Demand>) -> Result<(), Memory>
    ensures { OnOk result (Asks to.new.items to.old.items (demand.now ∷ [])) }
{
    if has_demand(to, demand) {
        return Ok(());
    }
    let child = demand.child;
    let ask = copy_ask(alloc, &demand.ask)?;
    to.push(Demand { child, ask })?;
    Ok(())
}

/// Puts copies of the demands behind others, unless they are there.
fn add_demands(alloc: Global, demands: &[Demand], to: &mut Vec<Demand>) -> Result<(), Memory>
    ensures { OnOk result (Asks to.new.items to.old.items demands.now) }
{
    'demands: for demand in demands {
        add_demand(alloc, demand, to)?;
    }
    Ok(())
}

impl<A, M> Draft<A, M> {
    /// Nothing asked, and nothing given.
    pub fn plain(alloc: Global) -> Draft<A, M>
        ensures guards { result.guards.items ≡ [] }
        ensures demands { result.demands.items ≡ [] }
        ensures terms { result.terms.items ≡ [] }
    {
        let guards = Vec::new(alloc);
        let demands = Vec::new(alloc);
        let terms = Vec::new(alloc);
        Draft {
            guards,
            demands,
            terms,
        }
    }
}

impl<'r, T: Labels> Run<'r, T> {
    /// The same with equal maps.
    fn copy_term(&self, term: &WayTerm<T::Map>) -> Result<WayTerm<T::Map>, Memory>
        ensures { IfOk result (λ copy. IsCopy T.Map.eq (plain_way_term copy) (plain_way_term term.now)) }
    {
        match term {
            WayTerm::Call(triple, child) => {
                Ok(WayTerm::Call(copy_triple(self.alloc, triple)?, *child))
            }
            WayTerm::Node(constructor, map, parts) => {
                let map = self.theory.copy_map(self.alloc, map)?;
                let mut copies = Vec::new(self.alloc);
                'parts: for part in parts {
                    copies.push(self.copy_term(part)?)?;
                }
                Ok(WayTerm::Node(*constructor, map, copies))
            }
        }
    }

    /// Puts copies of the terms behind others.
    fn add_terms(
        &self,
        terms: &[WayTerm<T::Map>],
        to: &mut Vec<WayTerm<T::Map>>,
    ) -> Result<(), Memory>
        ensures { OnOk result (AddsCopies T.Map.eq (map plain_way_term to.new.items) (map plain_way_term to.old.items) (map plain_way_term terms.now)) }
    {
        'terms: for term in terms {
            to.push(self.copy_term(term)?)?;
        }
        Ok(())
    }

    /// The way that both make.
    fn both(
        &self,
        first: &Draft<T::Atom, T::Map>,
        second: &Draft<T::Atom, T::Map>,
    ) -> Result<Draft<T::Atom, T::Map>, Memory>
        ensures { IfOk result (IsBoth T.Map.eq first.now second.now) }
    {
        let mut guards = Vec::new(self.alloc);
        add_guards(self.alloc, &first.guards, &mut guards)?;
        add_guards(self.alloc, &second.guards, &mut guards)?;
        let mut demands = Vec::new(self.alloc);
        add_demands(self.alloc, &first.demands, &mut demands)?;
        add_demands(self.alloc, &second.demands, &mut demands)?;
        let mut terms = Vec::new(self.alloc);
        self.add_terms(&first.terms, &mut terms)?;
        self.add_terms(&second.terms, &mut terms)?;
        Ok(Draft {
            guards,
            demands,
            terms,
        })
    }

    /// Adds a way by the first and each of the others.
    pub fn add_products(
        &self,
        first: &Draft<T::Atom, T::Map>,
        seconds: &[Draft<T::Atom, T::Map>],
        made: &mut Vec<Draft<T::Atom, T::Map>>,
    ) -> Result<(), Memory>
        ensures { OnOk result (AddsProducts T.Map.eq first.now seconds.now made.old.items made.new.items) }
    {
        'seconds: for second in seconds {
            made.push(self.both(first, second)?)?;
        }
        Ok(())
    }

    /// A way by each of the first and each of the second.
    pub fn products(
        &self,
        firsts: &[Draft<T::Atom, T::Map>],
        seconds: &[Draft<T::Atom, T::Map>],
    ) -> Result<Vec<Draft<T::Atom, T::Map>>, Memory>
        ensures { IfOk result (λ ys. AreProducts T.Map.eq firsts.now seconds.now ys.items) }
    {
        let mut made = Vec::new(self.alloc);
        'firsts: for first in firsts {
            self.add_products(first, seconds, &mut made)?;
        }
        Ok(made)
    }
}
