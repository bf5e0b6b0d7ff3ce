//! The words of a command line.

ghost use Rattle.std.specs.Prelude.{◌≡◌, ℕ, [], ◌∷◌, true, false, map, decimal, codes, string_bytes, IfSome, IfNone};
ghost use Rattle.model_run.specs.Words.{CommandForm, AreWordsOf};
ghost use Rattle.fast_tool.specs.Commands.{command_form, verb_asked, IsNumber};

/// The most classes of a table that may be asked for.
const MOST_CLASSES: u32 = 2_000;

/// The classes of a table where none are asked for.
pub(crate) const USUAL_CLASSES: u32 = 1_000;

/// What is asked of trees.
#[derive(Clone, Copy)]
pub enum Question {
    /// Whether they are in the language of a name.
    Inside,
    /// What the outputs of the transformation of a name are for them.
    Outputs,
}

/// What is asked of a file of trees, by a name in a file.
#[derive(Clone, Copy)]
pub struct Asked<'w> {
    pub question: Question,
    pub file: &'w str,
    pub name: &'w str,
    pub trees: &'w str,
}

/// What the words ask for.
pub enum Command<'w> {
    /// Read and check the file.
    Check { file: &'w str },
    /// Do each item of the file in order. The limit is how many trees may be told apart.
    Run { file: &'w str, limit: Option<u32> },
    /// Answer for each of the trees.
    Answer(Asked<'w>),
    /// Do the items of the program that is made from the number, and count their verdicts.
    Generated { number: u32 },
}

/// Whether these are the decimal digits of the number.
#[tactic(auto, using(crate::proofs::Numerals::on_digits))]
fn is_decimal(number: u32, digits: &[u8]) -> bool
    ensures yes { result ≡ true → digits.now ≡ decimal number }
    ensures no { result ≡ false → ¬ (digits.now ≡ decimal number) }
{
    let Some((last, front)) = digits.split_last() else {
        return false;
    };
    if *last != b'0' + (number % 10) as u8 {
        return false;
    }
    if number < 10 {
        front.is_empty()
    } else {
        is_decimal(number / 10, front)
    }
}

/// The number from 1 to `most` that the word is, if it is one.
#[tactic(auto, using(crate::proofs::Numerals::on_digits))]
fn number_of(word: &str, most: u32) -> Option<u32>
    ensures some { IfSome result (IsNumber most word.now) }
    ensures none { IfNone result ((n : ℕ) → ¬ (IsNumber most word.now n)) }
{
    let Ok(number) = word.parse::<u32>() else {
        return None;
    };
    if number < 1 || number > most || !is_decimal(number, word.as_bytes()) {
        return None;
    }
    Some(number)
}

/// The command of `self` and a word.
fn of_self(number: &str) -> Option<Command<'_>>
    ensures some { IfSome result (λ c. AreWordsOf (codes "self" ∷ number.now ∷ []) (command_form c)) }
    ensures none { IfNone result ((form : CommandForm) → ¬ (AreWordsOf (codes "self" ∷ number.now ∷ []) form)) }
{
    match number_of(number, 200) {
        Some(number) => Some(Command::Generated { number }),
        None => None,
    }
}

/// The command of two words.
fn of_two<'w>(verb: &str, file: &'w str) -> Option<Command<'w>>
    ensures some { IfSome result (λ c. AreWordsOf (verb.now ∷ file.now ∷ []) (command_form c)) }
    ensures none { IfNone result ((form : CommandForm) → ¬ (AreWordsOf (verb.now ∷ file.now ∷ []) form)) }
{
    if verb == "self" {
        of_self(file)
    } else if file.is_empty() {
        None
    } else if verb == "check" {
        Some(Command::Check { file })
    } else if verb == "run" {
        Some(Command::Run { file, limit: None })
    } else {
        None
    }
}

/// The command of `run` and three words.
fn of_run<'w>(file: &'w str, option: &str, number: &str) -> Option<Command<'w>>
    ensures some { IfSome result (λ c. AreWordsOf (codes "run" ∷ file.now ∷ option.now ∷ number.now ∷ []) (command_form c)) }
    ensures none { IfNone result ((form : CommandForm) → ¬ (AreWordsOf (codes "run" ∷ file.now ∷ option.now ∷ number.now ∷ []) form)) }
{
    if file.is_empty() || option != "--classes" {
        return None;
    }
    match number_of(number, MOST_CLASSES) {
        Some(limit) => Some(Command::Run {
            file,
            limit: Some(limit),
        }),
        None => None,
    }
}

/// The command of `accepts` or `apply` and three words.
fn of_question<'w>(
    question: Question,
    file: &'w str,
    name: &'w str,
    trees: &'w str,
) -> Option<Command<'w>>
    ensures some { IfSome result (λ c. AreWordsOf (verb_asked question ∷ file.now ∷ name.now ∷ trees.now ∷ []) (command_form c)) }
    ensures none { IfNone result ((form : CommandForm) → ¬ (AreWordsOf (verb_asked question ∷ file.now ∷ name.now ∷ trees.now ∷ []) form)) }
{
    if file.is_empty() || name.is_empty() || trees.is_empty() {
        return None;
    }
    Some(Command::Answer(Asked {
        question,
        file,
        name,
        trees,
    }))
}

/// The command of four words.
fn of_four<'w>(verb: &str, first: &'w str, second: &'w str, third: &'w str) -> Option<Command<'w>>
    ensures some { IfSome result (λ c. AreWordsOf (verb.now ∷ first.now ∷ second.now ∷ third.now ∷ []) (command_form c)) }
    ensures none { IfNone result ((form : CommandForm) → ¬ (AreWordsOf (verb.now ∷ first.now ∷ second.now ∷ third.now ∷ []) form)) }
{
    if verb == "run" {
        of_run(first, second, third)
    } else if verb == "accepts" {
        of_question(Question::Inside, first, second, third)
    } else if verb == "apply" {
        of_question(Question::Outputs, first, second, third)
    } else {
        None
    }
}

/// The command that the words are, if they are one.
pub fn read_words<'w>(words: &'w [String]) -> Option<Command<'w>>
    ensures some { IfSome result (λ c. AreWordsOf (map string_bytes words.now) (command_form c)) }
    ensures none { IfNone result ((form : CommandForm) → ¬ (AreWordsOf (map string_bytes words.now) form)) }
{
    match words {
        [verb, file] => of_two(verb.as_str(), file.as_str()),
        [verb, first, second, third] => {
            let (verb, first) = (verb.as_str(), first.as_str());
            of_four(verb, first, second.as_str(), third.as_str())
        }
        _ => None,
    }
}
