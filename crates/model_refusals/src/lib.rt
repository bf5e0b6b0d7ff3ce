//! Why and where a text is refused: it is too long, its bytes are no characters, these are no tokens, a parenthesis is
//! nested too deep, or the tokens are none of the form.
//!
//! Its promise: a text has one refusal at most, and none where it is a text of the form.
#![tactic(auto)]

ghost use Rattle.std.specs.Prelude.{◌≡◌, ℕ, List};
ghost use Rattle.fast_fault.specs.declared.refusal.Refusal.{Refusal};
ghost use Rattle.model_grammar.specs.Syntax.{Item};
ghost use Rattle.model_grammar.specs.Grammar.{IsProgram};
ghost use Rattle.model_grammar.specs.TreeFiles.{FileTree, IsTreeFile};
ghost use Rattle.model_grammar.specs.Texts.{IsText};
ghost use Rattle.model_refusals.specs.Refusals.{IsRefusal};

/// A text has one refusal at most, and none where it is a program, or a tree file.
pub fn refused_once()
    ensures programs { (bytes : List ℕ) (a b : Refusal) → IsRefusal IsProgram bytes a.code a.place → IsRefusal IsProgram bytes b.code b.place → a ≡ b }
    ensures programs_never { (bytes : List ℕ) (a : Refusal) (items : List Item) → IsRefusal IsProgram bytes a.code a.place → IsText IsProgram bytes items → ⊥ }
    ensures trees { (bytes : List ℕ) (a b : Refusal) → IsRefusal IsTreeFile bytes a.code a.place → IsRefusal IsTreeFile bytes b.code b.place → a ≡ b }
    ensures trees_never { (bytes : List ℕ) (a : Refusal) (trees : List FileTree) → IsRefusal IsTreeFile bytes a.code a.place → IsText IsTreeFile bytes trees → ⊥ }
{}
