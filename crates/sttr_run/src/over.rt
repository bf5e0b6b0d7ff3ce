//! The ways in which demanded states, and a head, run over a term.

ghost use Rattle.std.specs.Prelude.{◌≡◌, [], map, All, IsSome, IfOk, IfErr};
ghost use Rattle.std.specs.Option.{option_map};
ghost use Rattle.model_sttr.specs.Terms.{with_maps};
ghost use Rattle.model_tree.specs.Label.{Label};
ghost use Rattle.sttr_core.specs.Terms.{plain_term};
ghost use Rattle.sttr_run.specs.Found.{IsWithin, IsNodeIn, MayRun, HeadMayRun, MayKeep, DraftStands, PickStands, used_by, IsFree, IsGiven, IsRest, IsAt, IsOver, AreOver, AreKept, AreFreePicks, AreKeptPicks, AreGivenPicks};
ghost use Rattle.sttr_run.specs.Plain.{plain_second, plain_triple, plain_head};
ghost use Rattle.sttr_run.specs.Runs.{CanRun, IsRunStop};

use crate::drafts::Draft;
use crate::leaves::{called, demanded, plain, unchanged};
use crate::picks::{Node, Pick, Run, wanted};
use crate::running::RunStop;
use crate::states::StateSet;
use crate::triples::Head;
use label_core::Labels;
use sttr_core::Term;

/// Whether there is a term and it uses the child.
fn is_used<M>(term: Option<&Term<M>>, child: usize) -> bool
    ensures { (make : M → Label → Label) → result ≡ used_by (option_map (λ t. with_maps make (plain_term t.now)) term.entry) child }
{
    match term {
        None => false,
        Some(term) => term.uses_up_to(child as u64, 1) == 1,
    }
}

impl<'r, T: Labels> Run<'r, T> {
    /// The ways in which demanded states run over the term.
    #[cycle(free)]
    pub fn free(
        &self,
        term: &'r Term<T::Map>,
        all: &StateSet,
    ) -> Result<Vec<Draft<T::Atom, T::Map>>, RunStop>
        requires can { CanRun T.atom_fits T.map_fits T.map_makes self.now.theory.now (plain_second self.now.second.now) (plain_term self.now.term.now) (plain_triple self.now.triple.now) }
        requires within { IsWithin (plain_term self.now.term.now) (plain_term term.now) }
        ensures found { IfOk result (λ ys. IsFree T.atom_holds T.make (T.meaning self.now.theory.now).has (plain_second self.now.second.now) (plain_term term.now) all.now.states.items ys.items) }
        ensures made { IfOk result (λ ys. All (DraftStands T.Map.eq T.is_put T.is_chained (T.atom_fits self.now.theory.now) (T.map_fits self.now.theory.now) T.map_makes (plain_second self.now.second.now) (plain_term self.now.term.now) (plain_triple self.now.triple.now).second) ys.items) }
        ensures stop { IfErr result (IsRunStop T.put_outside T.chain_outside (plain_second self.now.second.now) (plain_term self.now.term.now)) }
    {
        match term {
            Term::Same(child) => {
                let ways = demanded(self.alloc, Head::Same, *child, all)?;
                Ok(ways)
            }
            Term::Call(state, child) => {
                let ways = demanded(self.alloc, Head::Run(*state), *child, all)?;
                Ok(ways)
            }
            Term::Node(constructor, map, parts) => {
                let node = Node {
                    constructor: *constructor,
                    map,
                    parts,
                };
                let picks = self.picks(&node, all)?;
                let ways = self.free_each(&node, picks)?;
                Ok(ways)
            }
        }
    }

    /// The ways in which what the picked rules demand runs over the parts of the node.
    #[cycle(free)]
    fn free_each(
        &self,
        node: &Node<'r, T::Map>,
        picks: Vec<Pick<'r, T::Atom, T::Map>>,
    ) -> Result<Vec<Draft<T::Atom, T::Map>>, RunStop>
        requires can { CanRun T.atom_fits T.map_fits T.map_makes self.now.theory.now (plain_second self.now.second.now) (plain_term self.now.term.now) (plain_triple self.now.triple.now) }
        requires node { IsNodeIn (plain_term self.now.term.now) node.now.map.now (map plain_term node.now.parts.now) }
        requires picks { All (PickStands T.Map.eq T.is_put T.is_chained (T.atom_fits self.now.theory.now) (T.map_fits self.now.theory.now) T.map_makes (plain_second self.now.second.now) (plain_term self.now.term.now) (plain_triple self.now.triple.now).second) picks.items }
        ensures found { IfOk result (λ ys. AreFreePicks T.atom_holds T.make (T.meaning self.now.theory.now).has (plain_second self.now.second.now) (map plain_term node.now.parts.now) picks.entry.items ys.items) }
        ensures made { IfOk result (λ ys. All (DraftStands T.Map.eq T.is_put T.is_chained (T.atom_fits self.now.theory.now) (T.map_fits self.now.theory.now) T.map_makes (plain_second self.now.second.now) (plain_term self.now.term.now) (plain_triple self.now.triple.now).second) ys.items) }
        ensures stop { IfErr result (IsRunStop T.put_outside T.chain_outside (plain_second self.now.second.now) (plain_term self.now.term.now)) }
    {
        let mut picks = picks;
        let mut found = Vec::new(self.alloc);
        'picks: while let Some(pick) = picks.pop() {
            let rest = self.rest(node, &pick.demands, None)?;
            self.guard(pick.guards, &rest, &mut found)?;
        }
        Ok(found)
    }

    /// The ways in which what is demanded of the parts that the term doesn't use runs over them.
    #[cycle(free)]
    fn rest(
        &self,
        node: &Node<'r, T::Map>,
        demands: &[&'r [Vec<u64>]],
        term: Option<&'r Term<T::Map>>,
    ) -> Result<Vec<Draft<T::Atom, T::Map>>, RunStop>
        requires can { CanRun T.atom_fits T.map_fits T.map_makes self.now.theory.now (plain_second self.now.second.now) (plain_term self.now.term.now) (plain_triple self.now.triple.now) }
        requires node { IsNodeIn (plain_term self.now.term.now) node.now.map.now (map plain_term node.now.parts.now) }
        ensures found { IfOk result (λ ys. IsRest T.atom_holds T.make (T.meaning self.now.theory.now).has (plain_second self.now.second.now) (map plain_term node.now.parts.now) (map (λ d. map (λ s. s.items) d.now) demands.now) (option_map (λ t. plain_term t.now) term.entry) ys.items) }
        ensures made { IfOk result (λ ys. All (DraftStands T.Map.eq T.is_put T.is_chained (T.atom_fits self.now.theory.now) (T.map_fits self.now.theory.now) T.map_makes (plain_second self.now.second.now) (plain_term self.now.term.now) (plain_triple self.now.triple.now).second) ys.items) }
        ensures stop { IfErr result (IsRunStop T.put_outside T.chain_outside (plain_second self.now.second.now) (plain_term self.now.term.now)) }
    {
        let mut ways = plain(self.alloc)?;
        let mut left = node.parts.len();
        'parts: while left > 0 {
            left -= 1;
            if !is_used(term, left) {
                let all = wanted(self.alloc, demands, left)?;
                let free = self.free(&node.parts[left], &all)?;
                ways = self.products(&free, &ways)?;
            }
        }
        Ok(ways)
    }

    /// The ways in which demanded states and a head run over the term.
    #[cycle(gives)]
    pub fn gives(
        &self,
        term: &'r Term<T::Map>,
        all: &StateSet,
        head: Head,
    ) -> Result<Vec<Draft<T::Atom, T::Map>>, RunStop>
        requires can { CanRun T.atom_fits T.map_fits T.map_makes self.now.theory.now (plain_second self.now.second.now) (plain_term self.now.term.now) (plain_triple self.now.triple.now) }
        requires within { IsWithin (plain_term self.now.term.now) (plain_term term.now) }
        requires head { HeadMayRun (plain_second self.now.second.now) (plain_triple self.now.triple.now).second (plain_head head) }
        ensures found { IfOk result (λ ys. IsGiven T.atom_holds T.make (T.meaning self.now.theory.now).has (plain_second self.now.second.now) (plain_term term.now) all.now.states.items (plain_head head) ys.items) }
        ensures made { IfOk result (λ ys. All (DraftStands T.Map.eq T.is_put T.is_chained (T.atom_fits self.now.theory.now) (T.map_fits self.now.theory.now) T.map_makes (plain_second self.now.second.now) (plain_term self.now.term.now) (plain_triple self.now.triple.now).second) ys.items) }
        ensures stop { IfErr result (IsRunStop T.put_outside T.chain_outside (plain_second self.now.second.now) (plain_term self.now.term.now)) }
    {
        match term {
            Term::Same(child) => {
                let ways = unchanged(self.alloc, *child, all, head)?;
                Ok(ways)
            }
            Term::Call(state, child) => {
                let ways = called(self.alloc, *state, *child, all, head)?;
                Ok(ways)
            }
            Term::Node(constructor, map, parts) => {
                let node = Node {
                    constructor: *constructor,
                    map,
                    parts,
                };
                let picks = self.picks(&node, all)?;
                match head {
                    Head::Same => {
                        let ways = self.keep_each(&node, picks)?;
                        Ok(ways)
                    }
                    Head::Run(state) => {
                        let picks = self.with_rule(&node, state, &picks)?;
                        let ways = self.run_each(&node, picks)?;
                        Ok(ways)
                    }
                }
            }
        }
    }

    /// The ways in which the node is kept, of each pick.
    #[cycle(gives)]
    fn keep_each(
        &self,
        node: &Node<'r, T::Map>,
        picks: Vec<Pick<'r, T::Atom, T::Map>>,
    ) -> Result<Vec<Draft<T::Atom, T::Map>>, RunStop>
        requires can { CanRun T.atom_fits T.map_fits T.map_makes self.now.theory.now (plain_second self.now.second.now) (plain_term self.now.term.now) (plain_triple self.now.triple.now) }
        requires node { IsNodeIn (plain_term self.now.term.now) node.now.map.now (map plain_term node.now.parts.now) }
        requires picks { All (PickStands T.Map.eq T.is_put T.is_chained (T.atom_fits self.now.theory.now) (T.map_fits self.now.theory.now) T.map_makes (plain_second self.now.second.now) (plain_term self.now.term.now) (plain_triple self.now.triple.now).second) picks.items }
        requires keeps { MayKeep (plain_second self.now.second.now) (plain_triple self.now.triple.now).second }
        ensures found { IfOk result (λ ys. AreKeptPicks T.atom_holds T.make (T.meaning self.now.theory.now).has (plain_second self.now.second.now) (map plain_term node.now.parts.now) node.now.constructor node.now.map.now picks.entry.items ys.items) }
        ensures made { IfOk result (λ ys. All (DraftStands T.Map.eq T.is_put T.is_chained (T.atom_fits self.now.theory.now) (T.map_fits self.now.theory.now) T.map_makes (plain_second self.now.second.now) (plain_term self.now.term.now) (plain_triple self.now.triple.now).second) ys.items) }
        ensures stop { IfErr result (IsRunStop T.put_outside T.chain_outside (plain_second self.now.second.now) (plain_term self.now.term.now)) }
    {
        let mut picks = picks;
        let mut found = Vec::new(self.alloc);
        'picks: while let Some(pick) = picks.pop() {
            let parts = self.kept(node, &pick.demands)?;
            let ways = self.nodes(node.constructor, node.map, None, parts)?;
            self.guard(pick.guards, &ways, &mut found)?;
        }
        Ok(found)
    }

    /// The ways of the term of each pick.
    #[cycle(gives)]
    fn run_each(
        &self,
        node: &Node<'r, T::Map>,
        picks: Vec<Pick<'r, T::Atom, T::Map>>,
    ) -> Result<Vec<Draft<T::Atom, T::Map>>, RunStop>
        requires can { CanRun T.atom_fits T.map_fits T.map_makes self.now.theory.now (plain_second self.now.second.now) (plain_term self.now.term.now) (plain_triple self.now.triple.now) }
        requires node { IsNodeIn (plain_term self.now.term.now) node.now.map.now (map plain_term node.now.parts.now) }
        requires picks { All (PickStands T.Map.eq T.is_put T.is_chained (T.atom_fits self.now.theory.now) (T.map_fits self.now.theory.now) T.map_makes (plain_second self.now.second.now) (plain_term self.now.term.now) (plain_triple self.now.triple.now).second) picks.items }
        requires terms { All (λ x. IsSome x.term) picks.items }
        ensures found { IfOk result (λ ys. AreGivenPicks T.atom_holds T.make (T.meaning self.now.theory.now).has (plain_second self.now.second.now) (map plain_term node.now.parts.now) node.now.constructor node.now.map.now picks.entry.items ys.items) }
        ensures made { IfOk result (λ ys. All (DraftStands T.Map.eq T.is_put T.is_chained (T.atom_fits self.now.theory.now) (T.map_fits self.now.theory.now) T.map_makes (plain_second self.now.second.now) (plain_term self.now.term.now) (plain_triple self.now.triple.now).second) ys.items) }
        ensures stop { IfErr result (IsRunStop T.put_outside T.chain_outside (plain_second self.now.second.now) (plain_term self.now.term.now)) }
    {
        let mut picks = picks;
        let mut found = Vec::new(self.alloc);
        'picks: while let Some(pick) = picks.pop() {
            let Some(term) = pick.term else {
                continue;
            };
            let rest = self.rest(node, &pick.demands, Some(term))?;
            let terms = self.over(node, &pick.demands, term)?;
            let ways = self.products(&rest, &terms)?;
            self.guard(pick.guards, &ways, &mut found)?;
        }
        Ok(found)
    }

    /// The ways in which the parts of the node are kept.
    #[cycle(gives)]
    fn kept(
        &self,
        node: &Node<'r, T::Map>,
        demands: &[&'r [Vec<u64>]],
    ) -> Result<Vec<Draft<T::Atom, T::Map>>, RunStop>
        requires can { CanRun T.atom_fits T.map_fits T.map_makes self.now.theory.now (plain_second self.now.second.now) (plain_term self.now.term.now) (plain_triple self.now.triple.now) }
        requires node { IsNodeIn (plain_term self.now.term.now) node.now.map.now (map plain_term node.now.parts.now) }
        requires keeps { MayKeep (plain_second self.now.second.now) (plain_triple self.now.triple.now).second }
        ensures found { IfOk result (λ ys. AreKept T.atom_holds T.make (T.meaning self.now.theory.now).has (plain_second self.now.second.now) (map plain_term node.now.parts.now) (map (λ d. map (λ s. s.items) d.now) demands.now) node.now.map.now ys.items) }
        ensures made { IfOk result (λ ys. All (DraftStands T.Map.eq T.is_put T.is_chained (T.atom_fits self.now.theory.now) (T.map_fits self.now.theory.now) T.map_makes (plain_second self.now.second.now) (plain_term self.now.term.now) (plain_triple self.now.triple.now).second) ys.items) }
        ensures stop { IfErr result (IsRunStop T.put_outside T.chain_outside (plain_second self.now.second.now) (plain_term self.now.term.now)) }
    {
        let mut ways = plain(self.alloc)?;
        let mut left = node.parts.len();
        'parts: while left > 0 {
            left -= 1;
            let firsts = self.at(node, demands, left, Head::Same)?;
            ways = self.products(&firsts, &ways)?;
        }
        Ok(ways)
    }

    /// The ways of the second's term at the node.
    #[cycle(gives)]
    fn over(
        &self,
        node: &Node<'r, T::Map>,
        demands: &[&'r [Vec<u64>]],
        term: &'r Term<T::Map>,
    ) -> Result<Vec<Draft<T::Atom, T::Map>>, RunStop>
        requires can { CanRun T.atom_fits T.map_fits T.map_makes self.now.theory.now (plain_second self.now.second.now) (plain_term self.now.term.now) (plain_triple self.now.triple.now) }
        requires node { IsNodeIn (plain_term self.now.term.now) node.now.map.now (map plain_term node.now.parts.now) }
        requires term { MayRun (plain_second self.now.second.now) (plain_term term.now) }
        ensures found { IfOk result (λ ys. IsOver T.atom_holds T.make (T.meaning self.now.theory.now).has (plain_second self.now.second.now) (map plain_term node.now.parts.now) (map (λ d. map (λ s. s.items) d.now) demands.now) node.now.map.now (plain_term term.now) ys.items) }
        ensures made { IfOk result (λ ys. All (DraftStands T.Map.eq T.is_put T.is_chained (T.atom_fits self.now.theory.now) (T.map_fits self.now.theory.now) T.map_makes (plain_second self.now.second.now) (plain_term self.now.term.now) (plain_triple self.now.triple.now).second) ys.items) }
        ensures stop { IfErr result (IsRunStop T.put_outside T.chain_outside (plain_second self.now.second.now) (plain_term self.now.term.now)) }
    {
        match term {
            Term::Same(child) => self.at(node, demands, *child as usize, Head::Same),
            Term::Call(state, child) => {
                self.at(node, demands, *child as usize, Head::Run(*state))
            }
            Term::Node(constructor, map, parts) => {
                let rows = self.over_each(node, demands, parts)?;
                let ways = self.nodes(*constructor, node.map, Some(map), rows)?;
                Ok(ways)
            }
        }
    }

    /// The ways of terms of the second, one beside the other.
    #[cycle(gives)]
    fn over_each(
        &self,
        node: &Node<'r, T::Map>,
        demands: &[&'r [Vec<u64>]],
        terms: &'r [Term<T::Map>],
    ) -> Result<Vec<Draft<T::Atom, T::Map>>, RunStop>
        requires can { CanRun T.atom_fits T.map_fits T.map_makes self.now.theory.now (plain_second self.now.second.now) (plain_term self.now.term.now) (plain_triple self.now.triple.now) }
        requires node { IsNodeIn (plain_term self.now.term.now) node.now.map.now (map plain_term node.now.parts.now) }
        requires terms { All (λ t. MayRun (plain_second self.now.second.now) (plain_term t)) terms.now }
        ensures found { IfOk result (λ ys. AreOver T.atom_holds T.make (T.meaning self.now.theory.now).has (plain_second self.now.second.now) (map plain_term node.now.parts.now) (map (λ d. map (λ s. s.items) d.now) demands.now) node.now.map.now (map plain_term terms.now) ys.items) }
        ensures made { IfOk result (λ ys. All (DraftStands T.Map.eq T.is_put T.is_chained (T.atom_fits self.now.theory.now) (T.map_fits self.now.theory.now) T.map_makes (plain_second self.now.second.now) (plain_term self.now.term.now) (plain_triple self.now.triple.now).second) ys.items) }
        ensures stop { IfErr result (IsRunStop T.put_outside T.chain_outside (plain_second self.now.second.now) (plain_term self.now.term.now)) }
    {
        let mut ways = plain(self.alloc)?;
        let mut left = terms.len();
        'terms: while left > 0 {
            left -= 1;
            let firsts = self.over(node, demands, &terms[left])?;
            ways = self.products(&firsts, &ways)?;
        }
        Ok(ways)
    }

    /// The ways in which what is demanded of a part and a head run over it.
    #[cycle(gives)]
    fn at(
        &self,
        node: &Node<'r, T::Map>,
        demands: &[&'r [Vec<u64>]],
        child: usize,
        head: Head,
    ) -> Result<Vec<Draft<T::Atom, T::Map>>, RunStop>
        requires can { CanRun T.atom_fits T.map_fits T.map_makes self.now.theory.now (plain_second self.now.second.now) (plain_term self.now.term.now) (plain_triple self.now.triple.now) }
        requires node { IsNodeIn (plain_term self.now.term.now) node.now.map.now (map plain_term node.now.parts.now) }
        requires head { HeadMayRun (plain_second self.now.second.now) (plain_triple self.now.triple.now).second (plain_head head) }
        ensures found { IfOk result (λ ys. IsAt T.atom_holds T.make (T.meaning self.now.theory.now).has (plain_second self.now.second.now) (map plain_term node.now.parts.now) (map (λ d. map (λ s. s.items) d.now) demands.now) child (plain_head head) ys.items) }
        ensures made { IfOk result (λ ys. All (DraftStands T.Map.eq T.is_put T.is_chained (T.atom_fits self.now.theory.now) (T.map_fits self.now.theory.now) T.map_makes (plain_second self.now.second.now) (plain_term self.now.term.now) (plain_triple self.now.triple.now).second) ys.items) }
        ensures stop { IfErr result (IsRunStop T.put_outside T.chain_outside (plain_second self.now.second.now) (plain_term self.now.term.now)) }
    {
        match node.parts.get(child) {
            None => Ok(Vec::new(self.alloc)),
            Some(part) => {
                let all = wanted(self.alloc, demands, child)?;
                let ways = self.gives(part, &all, head)?;
                Ok(ways)
            }
        }
    }
}
