//! Transducers.

ghost use Rattle.std.specs.Prelude.{◌≡◌, ◌<◌, [], length, map, slice_index_or};
ghost use Rattle.sttr_core.specs.Machine.{plain_out};

use crate::term::Term;
use sta_core::{Sta, StaRule};
use std::marker::Model;

/// A rule of a state, whose demands are of the lookahead.
#[derive(Drop)]
pub struct SttrRule<A, M> {
    pub rule: StaRule<A>,
    pub term: Term<M>,
}

/// The lookahead, and the rules of each state.
#[derive(Drop)]
pub struct Sttr<A, M> {
    looks: Sta<A>,
    rules: Vec<Vec<SttrRule<A, M>>>,
}

impl<A, M> Model for Sttr<A, M> {
    ghost use Rattle.std.specs.Prelude.{map};
    ghost use Rattle.sttr_core.specs.Machine.{OutMachine, coded_machine, plain_out};

    ghost Value = { OutMachine A M };

    ghost coded = { coded_machine A.code M.code };

    ghost view = { λ s. record { looks = s.looks; rules = map (λ those. map plain_out those.items) s.rules.items } };
}

impl<A, M> Sttr<A, M> {
    /// The transducer with this lookahead and these rules.
    pub fn new(looks: Sta<A>, rules: Vec<Vec<SttrRule<A, M>>>) -> Sttr<A, M>
        ensures { result ≡ record { looks = looks; rules = map (λ those. map plain_out those.items) rules.items } }
    {
        Sttr { looks, rules }
    }

    /// How many states there are.
    pub fn states(&self) -> u64
        ensures { result ≡ length self.now.rules }
    {
        self.rules.len() as u64
    }

    /// The automaton of which the rules' demands are.
    pub fn lookahead(&self) -> &Sta<A>
        ensures { result.now ≡ self.now.looks }
    {
        &self.looks
    }

    /// The rules of each state.
    pub fn rules(&self) -> &[Vec<SttrRule<A, M>>]
        ensures { map (λ those. map plain_out those.items) result.now ≡ self.now.rules }
    {
        &self.rules
    }

    /// The rules of a state.
    #[tactic(auto, using(sta_core::proofs::Meaning::on_machines))]
    pub fn rules_of(&self, state: u64) -> &[SttrRule<A, M>]
        requires { state < length self.now.rules }
        ensures { map plain_out result.now ≡ slice_index_or self.now.rules state [] }
    {
        &self.rules[state as usize]
    }
}

/// The relation of a state.
#[derive(Drop)]
pub struct Trans<A, M> {
    pub sttr: Sttr<A, M>,
    pub state: u64,
}
