//! What holds of the grammar, whoever reads it.

ghost use Rattle.std.specs.Prelude.{◌≡◌, ℕ, ◌+◌, true, List, [], ◌∷◌, ◌++◌, Some, None};
ghost use Rattle.model_tree.specs.Tree.{LabelTree};
ghost use Rattle.model_tree.specs.Kept.{is_kept};
ghost use Rattle.model_tree.specs.Printed.{printed_tree};
ghost use Rattle.model_program.specs.declared.Word.{Word};
ghost use Rattle.model_program.specs.declared.Word.TheVariants.{RoundOpen, RoundClose, SquareOpen, SquareClose, Where, To, Lang, Def};
ghost use Rattle.model_program.specs.Lexeme.{Lexeme};
ghost use Rattle.model_grammar.specs.declared.Chain.{Chain};
ghost use Rattle.model_grammar.specs.Syntax.{Expr, Item};
ghost use Rattle.model_grammar.specs.Grammar.{IsProgram};
ghost use Rattle.model_grammar.specs.TreeFiles.{FileTree, IsTreeFile};
ghost use Rattle.model_grammar.specs.PrintedTrees.{AreNames, HasNames, ReadsAsTree};
ghost use Rattle.model_grammar.specs.Operators.{IsMany};
ghost use Rattle.model_grammar.specs.Expressions.{IsExpr, IsE, chain_of};
ghost use Rattle.model_grammar.specs.declared.Level.TheVariants.{Prim};
ghost use Rattle.model_grammar.specs.Wrong.{IsFirstWrong};
ghost use Rattle.model_grammar.specs.Nesting.{nested_at};
ghost use Rattle.model_grammar.specs.Examples.{column, tokens_of, times};

/// The tokens of a text go wrong at one place, and only where they are no program and no tree file.
pub fn goes_wrong_once()
    ensures programs { (tokens : List Lexeme) (j k : ℕ) → IsFirstWrong IsProgram tokens j → IsFirstWrong IsProgram tokens k → j ≡ k }
    ensures programs_never { (tokens : List Lexeme) (k : ℕ) (items : List Item) → IsFirstWrong IsProgram tokens k → IsProgram items tokens → ⊥ }
    ensures trees { (tokens : List Lexeme) (j k : ℕ) → IsFirstWrong IsTreeFile tokens j → IsFirstWrong IsTreeFile tokens k → j ≡ k }
    ensures trees_never { (tokens : List Lexeme) (k : ℕ) (trees : List FileTree) → IsFirstWrong IsTreeFile tokens k → IsTreeFile trees tokens → ⊥ }
{}

/// A printed tree reads as the tree, where its constructors have names that are no keywords and its numbers are kept.
pub fn printed_trees_read_back()
    ensures { (names : List (List ℕ)) (t : LabelTree) → AreNames names → HasNames names t → is_kept t ≡ true → ReadsAsTree names t (printed_tree names t) }
{}

/// An operator before its operands spells what it spells between them.
pub fn prefix_is_infix()
    ensures { (kind : Chain) (left op right : Lexeme) (a b : Expr) (front back : List Lexeme) → left.word ≡ RoundOpen → right.word ≡ RoundClose → IsMany kind op.word → IsExpr Prim a front → IsExpr Prim b back
        → IsE (chain_of kind a ((op, b) ∷ [])) (left ∷ op ∷ front ++ (back ++ right ∷ [])) × IsE (chain_of kind a ((op, b) ∷ [])) (front ++ op ∷ back) }
{}

/// 64 parentheses may be open since a `where`, a `to` or a bracket, and 2,000 elsewhere; what is closed doesn't count.
pub fn nesting_is_limited()
    ensures guard { nested_at (tokens_of (Lang ∷ Where ∷ times 64 RoundOpen [])) ≡ None }
    ensures guard_too_deep { nested_at (tokens_of (Lang ∷ Where ∷ times 65 RoundOpen [])) ≡ Some (column 67) }
    ensures output_too_deep { nested_at (tokens_of (To ∷ times 70 RoundOpen [])) ≡ Some (column 66) }
    ensures label_too_deep { nested_at (tokens_of (times 3 RoundOpen (SquareOpen ∷ times 65 RoundOpen []))) ≡ Some (column 69) }
    ensures expression { nested_at (tokens_of (Def ∷ times 2000 RoundOpen [])) ≡ None }
    ensures expression_too_deep { nested_at (tokens_of (Def ∷ times 2001 RoundOpen [])) ≡ Some (column 2002) }
    ensures behind_a_label { nested_at (tokens_of (times 60 RoundOpen (SquareOpen ∷ SquareClose ∷ times 60 RoundOpen []))) ≡ None }
    ensures next_item { nested_at (tokens_of (Where ∷ times 60 RoundOpen (Lang ∷ times 60 RoundOpen []))) ≡ None }
    ensures closed { nested_at (tokens_of (Where ∷ times 40 RoundOpen (times 40 RoundClose (times 40 RoundOpen [])))) ≡ None }
    ensures closed_across { nested_at (tokens_of (Where ∷ times 40 RoundOpen (SquareOpen ∷ times 40 RoundClose (SquareClose ∷ times 60 RoundOpen [])))) ≡ None }
{}
