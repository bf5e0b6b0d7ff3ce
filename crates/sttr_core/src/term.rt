//! Output terms.

ghost use Rattle.std.specs.Prelude.{◌≡◌, ◌≤◌, ℕ, min};
ghost use Rattle.sttr_core.specs.Terms.{plain_term};
ghost use Rattle.sttr_core.specs.Uses.{use_count};

/// What a rule gives: a child as it is, what a state gives on a child, or a new node with a constructor, the label that a
/// map makes of the rule's own, and parts.
#[derive(Drop)]
pub enum Term<M> {
    Same(u32),
    Call(u64, u32),
    Node(u32, M, Vec<Term<M>>),
}

impl<M> Term<M> {
    /// How often the term uses the child, or `most` where it does so more often.
    #[tactic(auto, using(crate::proofs::Uses::on_uses))]
    pub fn uses_up_to(&self, child: u64, most: u64) -> u64
        ensures { result ≡ min (use_count child (plain_term self.now)) most }
    {
        match self {
            Term::Same(of) | Term::Call(_, of) => {
                if *of as u64 == child { most.min(1) } else { 0 }
            }
            Term::Node(_, _, parts) => {
                let mut found = 0;
                'parts: for part in parts {
                    found += part.uses_up_to(child, most - found);
                }
                found
            }
        }
    }

    /// A number above that of each child that the term uses.
    #[tactic(auto, using(crate::proofs::Uses::on_bounds))]
    pub fn child_bound(&self) -> u64
        ensures { (j : ℕ) → result ≤ j → use_count j (plain_term self.now) ≡ 0 }
    {
        match self {
            Term::Same(of) | Term::Call(_, of) => *of as u64 + 1,
            Term::Node(_, _, parts) => {
                let mut bound = 0;
                'parts: for part in parts {
                    bound = part.child_bound().max(bound);
                }
                bound
            }
        }
    }
}
