//! What is made of an automaton or a transducer that was built for an expression.
#![tactic(auto)]

ghost use Rattle.std.specs.Prelude.{List, ℕ};
ghost use Rattle.model_program.specs.Syntax.{Name};
ghost use Rattle.model_grammar.specs.Syntax.{Item};
ghost use Rattle.model_layers.specs.Written.{NamesAreCarried, NamesAreSeen, TwoRulesArePart};
ghost use Rattle.model_layers.specs.Compared.{ComparesGoUp, NumbersGoUp, WidthsGoUp};
ghost use Rattle.model_layers.specs.Causes.{AreAmong, AreWidened, CountsGoUp, FarLabelsGoUp, LoadsGoUp, TreesGoUp};
ghost use Rattle.model_layers.specs.Seen.{DefinitionsAreSeenThrough, OperationsOnLanguagesAreSeen, OperationsOnTransformationsAreSeen};
ghost use Rattle.model_layers.specs.Carries.{DefinitionsCarry, OperationsOnLanguagesCarry, OperationsOnTransformationsCarry};

/// What each operation promises carries an automaton of an expression to one of the expression with the operation.
pub fn operations_on_languages_carry()
    ensures { OperationsOnLanguagesCarry }
{}

/// The same of transducers, and of what is made of them.
pub fn operations_on_transformations_carry()
    ensures { OperationsOnTransformationsCarry }
{}

/// What was built for a name by its written rules is carried.
pub fn names_are_carried()
    ensures { (items : List Item) (n : Name) → NamesAreCarried items n }
{}

/// What was built for a name has the guards and the labels that are written.
pub fn names_are_seen()
    ensures { (items : List Item) (n : Name) → NamesAreSeen items n }
{}

/// The trees to which two rules of a state apply are a part of the name.
pub fn two_rules_are_part()
    ensures { TwoRulesArePart }
{}

/// What was built for an expression is built for the name of its definition.
pub fn definitions_carry()
    ensures { DefinitionsCarry }
{}

/// Labels that agree on the guards of an expression agree on those of an automaton that was built for it.
pub fn languages_are_seen()
    ensures { OperationsOnLanguagesAreSeen }
{}

/// The same of transducers, and of what is made of them; their maps make what label lists of the expression make.
pub fn transformations_are_seen()
    ensures { OperationsOnTransformationsAreSeen }
{}

/// What is so of a definition's expression is so of its name.
pub fn definitions_are_seen()
    ensures { DefinitionsAreSeenThrough }
{}

/// Trees that states tell apart, of one automaton or of two together, are told apart by the expressions.
pub fn trees_go_up()
    ensures { (items : List Item) (type : List ℕ) (most : ℕ) → TreesGoUp items type most }
{}

/// A label that is far from the kept ones for what was built is far for the expressions.
pub fn far_labels_go_up()
    ensures { (items : List Item) (type : List ℕ) → FarLabelsGoUp items type }
{}

/// Too many or too large outputs of a state are those of a relation of which the expression is made.
pub fn loads_go_up()
    ensures { LoadsGoUp }
{}

/// The trees that contexts tell apart are the same ones.
pub fn counts_go_up()
    ensures { CountsGoUp }
{}

/// What an operand is made of is among what the whole expression is made of, and its causes are causes of that.
pub fn causes_widen()
    ensures among { (items : List Item) → AreAmong items }
    ensures widened { AreWidened }
{}

/// Comparisons and label lists of what was built are the same as those of the expression.
pub fn compares_go_up()
    ensures { (items : List Item) → ComparesGoUp items }
{}

/// A number that stops a put is one that a form of the expression has out of its range.
pub fn numbers_go_up()
    ensures { (items : List Item) → NumbersGoUp items }
{}

/// A chain that is too wide over the comparisons of what was built is too wide for the expressions.
pub fn widths_go_up()
    ensures { (items : List Item) (type : List ℕ) (width : ℕ) → WidthsGoUp items type width }
{}
