//! The operands of a chain, gathered one by one.

ghost use Rattle.std.specs.Prelude.{◌≡◌, []};
ghost use Rattle.fast_fault.specs.declared.place.Pos.{Pos};
ghost use Rattle.fast_syntax.specs.Plain.{plain_expr, plain_node};
ghost use Rattle.model_grammar.specs.Syntax.{chain};
ghost use Rattle.label_reader.specs.Results.{IfMade};
ghost use Rattle.label_reader.specs.Operands.{kind_of, marked, IsMore, AreTwoOf, parts_from};

use crate::keep::kept;
use crate::stop::Stop;
use fast_syntax::expressions::{Expr, Node, ProdPart, SumPart};
use model_grammar::Chain;
use std::alloc::Global;

#[derive(Drop)]
pub(crate) enum Operands {
    Or(Vec<Expr>),
    And(Vec<Expr>),
    Sum(Vec<SumPart>),
    Prod(Vec<ProdPart>),
}

impl Operands {
    pub(crate) fn new(alloc: Global, kind: Chain) -> Operands
        ensures kind { kind_of result ≡ kind }
        ensures none { marked result ≡ [] }
    {
        match kind {
            Chain::Disjunction => Operands::Or(Vec::new(alloc)),
            Chain::Conjunction => Operands::And(Vec::new(alloc)),
            Chain::Sum => Operands::Sum(Vec::new(alloc)),
            Chain::Product => Operands::Prod(Vec::new(alloc)),
        }
    }

    /// One operand more, where it was read: marked where it is subtracted, or where the remainder by it is taken.
    pub(crate) fn with(self, mark: bool, read: Result<Expr, Stop>) -> Result<Operands, Stop>
        ensures { IfMade read (λ part all. IsMore (kind_of self) (marked self) mark (plain_expr part) (kind_of all) (marked all)) result }
    {
        let (before, part) = kept(self, read)?;
        match before {
            Operands::Or(mut all) => {
                all.push(part)?;
                Ok(Operands::Or(all))
            }
            Operands::And(mut all) => {
                all.push(part)?;
                Ok(Operands::And(all))
            }
            Operands::Sum(mut all) => {
                all.push(SumPart { minus: mark, part })?;
                Ok(Operands::Sum(all))
            }
            Operands::Prod(mut all) => {
                let remainder = mark;
                all.push(ProdPart { remainder, part })?;
                Ok(Operands::Prod(all))
            }
        }
    }

    /// Two operands, of which the second is marked or not.
    pub(crate) fn two(
        alloc: Global,
        kind: Chain,
        mark: bool,
        read: Result<(Expr, Expr), Stop>,
    ) -> Result<Operands, Stop>
        ensures { IfMade read (λ both all. AreTwoOf kind mark (plain_expr both.0) (plain_expr both.1) (kind_of all) (marked all)) result }
    {
        let (first, second) = read?;
        let (second, one) = kept(second, Operands::new(alloc, kind).with(false, Ok(first)))?;
        one.with(mark, Ok(second))
    }

    pub(crate) fn into_node(self) -> Node
        ensures { (place : Pos) → plain_node result place ≡ chain (kind_of self) place (parts_from (marked self)) }
    {
        match self {
            Operands::Or(all) => Node::Or(all),
            Operands::And(all) => Node::And(all),
            Operands::Sum(all) => Node::Sum(all),
            Operands::Prod(all) => Node::Prod(all),
        }
    }
}
