//! Whole programs: one passes where none of the conditions on programs fails.

ghost use Rattle.std.specs.Prelude.{◌≡◌, ◌<◌, OnOk, IfOk, IfErr, MatchResult, Some, None, true, map, []};
ghost use Rattle.std.specs.Option.{option_map};
ghost use Rattle.std.proofs.Props.{props};
ghost use Rattle.fast_tree.specs.Signatures.{plain_signature};
ghost use Rattle.model_checks.specs.Programs.{is_well_formed, refusal_of};
ghost use Rattle.fast_syntax.specs.Plain.{plain_item, plain_program};
ghost use Rattle.program_check.specs.Numbered.{AreNumbered};
ghost use Rattle.program_check.specs.Stops.{IsStop};
ghost use Rattle.program_check.specs.Signed.{own_signature, Passes};

use crate::checker::Checker;
use crate::context::Context;
use crate::declarations::Declarations;
use crate::limits::MOST_ITEMS;
use crate::signatures::all_made;
use fast_fault::{Code, Memory, Refusal};
use fast_syntax::items::{Item, Program};
use fast_tree::Signature;
use std::alloc::Global;

/// A program that is well-formed, with the numbers of its names and the signatures of its types.
#[derive(Drop)]
pub struct Checked {
    pub(crate) program: Program,
    pub(crate) declared: Declarations,
    pub(crate) signatures: Vec<Option<Signature>>,
    ghost well_formed: { is_well_formed (plain_program program) ≡ true },
    ghost numbered: { AreNumbered (plain_program program) declared } by { Prim.hlevel props },
    ghost signed: { map (option_map plain_signature) signatures.items ≡ map own_signature (plain_program program) } by { Prim.hlevel props },
}

/// Why a program doesn't pass.
#[derive(Drop)]
pub enum CheckStop {
    Refused(Refusal),
    Memory,
}

impl From<Memory> for CheckStop {
    ghost use Rattle.std.specs.Prelude.{◌≡◌};
    ghost use Rattle.program_check.specs.declared.programs.CheckStop.TheVariants as stops;

    ghost from_gives = { λ _ e. e ≡ stops.Memory };

    fn from(_want: Memory) -> CheckStop {
        CheckStop::Memory
    }
}

/// Numbers what the items declare, and makes the signatures of their types, where the program passes.
fn number_and_sign(
    alloc: Global,
    items: &[Item],
    declared: &mut Declarations,
) -> Result<Vec<Option<Signature>>, CheckStop>
    requires { AreNumbered [] declared.old }
    ensures { MatchResult result (λ made. Passes (map plain_item items.now) declared.new made.items) (IsStop (refusal_of (map plain_item items.now))) }
{
    declared.number(alloc, items)?;
    let declared: &Declarations = declared;
    let mut checker = Checker {
        known: None,
        ran_out: false,
        alloc,
    };
    if items.len() > MOST_ITEMS {
        checker.note(Code::TooMany, items[MOST_ITEMS].place);
    }
    'items: for before in 0..items.len() {
        let context = Context {
            items,
            declared,
            before,
        };
        checker.check_item(&context, &items[before]);
    }
    if checker.ran_out {
        return Err(CheckStop::Memory);
    }
    match checker.known {
        Some(refusal) => Err(CheckStop::Refused(refusal)),
        None => Ok(all_made(alloc, items)?),
    }
}

/// Checks a program. It passes as it is where none of the conditions on programs fails; else the one that comes first in
/// the text is told. A program with a sum of more parts than a text can have is not checked, for want of memory.
pub fn check(alloc: Global, program: Program) -> Result<Checked, CheckStop>
    ensures well_formed { OnOk result (is_well_formed (plain_program program) ≡ true) }
    ensures same { IfOk result (λ checked. checked.program ≡ program) }
    ensures refused { IfErr result (IsStop (refusal_of (plain_program program))) }
{
    let mut declared = Declarations::new(alloc);
    match number_and_sign(alloc, &program.items, &mut declared) {
        Ok(signatures) => Ok(Checked {
            program,
            declared,
            signatures,
        }),
        Err(stop) => {
            program.let_go();
            Err(stop)
        }
    }
}
