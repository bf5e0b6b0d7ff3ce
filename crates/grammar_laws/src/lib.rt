//! What holds of the grammar beside its rules. The printed text of every program is nested no deeper than the text that
//! was read, and has no parentheses that could be left out; `-` and a number are one constant.
#![tactic(auto)]

ghost use Rattle.std.specs.Prelude.{◌≡◌, ◌⊎◌, true, List, [], ◌∷◌, None};
ghost use Rattle.std.specs.Str.Parse.{digits_value};
ghost use Rattle.model_program.specs.Lexeme.{Lexeme};
ghost use Rattle.model_program.specs.Cuts.{lexemes_after};
ghost use Rattle.model_program.specs.TokenTexts.{HaveTexts};
ghost use Rattle.model_program.specs.declared.Word.TheVariants.{Minus, Number, RoundOpen};
ghost use Rattle.model_program.specs.Joined.{IsNext};
ghost use Rattle.model_grammar.specs.declared.Level.{Level};
ghost use Rattle.model_grammar.specs.declared.Level.TheVariants.{Unary};
ghost use Rattle.model_grammar.specs.Expressions.{IsExpr, IsE, negative};
ghost use Rattle.model_grammar.specs.Syntax.{Expr, Item, number};
ghost use Rattle.model_grammar.specs.Terms.{IsLater, AreLabels};
ghost use Rattle.model_grammar.specs.TreeFiles.{IsTreeFile};
ghost use Rattle.model_grammar.specs.Grammar.{IsProgram};
ghost use Rattle.model_grammar.specs.Nesting.{nested_at};
ghost use Rattle.model_grammar.specs.Printed.{fits, lines, own_level};
ghost use Rattle.grammar_laws.specs.Small.{file_tokens, file_trees, sum_tokens, sum_labels, two_tokens, two_labels};

/// Where tokens that spell a program are nested within the limits, the tokens that are printed for it are too.
pub fn printed_nests_no_deeper()
    ensures { (items : List Item) (tokens : List Lexeme) → IsProgram items tokens → HaveTexts tokens → nested_at tokens ≡ None → nested_at (lexemes_after [] (lines items)) ≡ None }
{}

/// Where an expression doesn't stand at a level by itself, each of its spellings there begins with a parenthesis.
pub fn parentheses_are_needed()
    ensures { (level : Level) (e : Expr) (tokens : List Lexeme) → IsExpr level e tokens → (fits level (own_level e) ≡ true) ⊎ IsNext RoundOpen tokens }
{}

/// `-` and a number are always the negative constant.
pub fn minus_before_a_number()
    ensures { (e : Expr) (sign digits : Lexeme) → sign.word ≡ Minus → digits.word ≡ Number → IsExpr Unary e (sign ∷ digits ∷ []) → e ≡ number sign.place (negative (digits_value 10 digits.text)) }
{}

/// A label behind another without a comma doesn't begin with `-`.
pub fn label_behind_another()
    ensures { (e : Expr) (sign : Lexeme) (tokens : List Lexeme) → sign.word ≡ Minus → IsLater IsE e (sign ∷ tokens) → ⊥ }
{}

/// `[x - 5]` has one label, `[x, -5]` has two, and `(nil [-7, true])` is a tree file.
pub fn small_texts()
    ensures one_label { AreLabels sum_labels sum_tokens }
    ensures two_labels { AreLabels two_labels two_tokens }
    ensures file { IsTreeFile file_trees file_tokens }
{}
