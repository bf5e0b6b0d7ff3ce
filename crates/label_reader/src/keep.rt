//! A value that is kept while more is read behind it, and dropped where nothing can be.
//!
//! It is of any type, so that a reader that stops drops it whole, and not part by part.

ghost use Rattle.std.specs.Prelude.{◌≡◌, ◌∷◌, ◌++◌, [], MatchResult, Ok, Err};
ghost use Rattle.label_reader.specs.Results.{left, IfMade, ReadsToClose};

use crate::reader::Reader;
use crate::stop::Stop;
use fast_lex::Word;

/// The value, and what was made behind it.
pub fn kept<A: Drop, B, E>(value: A, made: Result<B, E>) -> Result<(A, B), E>
    ensures { MatchResult result (λ x. (x.0 ≡ value) × (made ≡ Ok x.1)) (λ e. made ≡ Err e) }
{
    match made {
        Ok(more) => Ok((value, more)),
        Err(why) => Err(why),
    }
}

/// The value, unless what was to be read behind it wasn't there.
pub fn kept_if<A: Drop, E>(value: A, read: Result<(), E>) -> Result<A, E>
    ensures { MatchResult result (λ x. (x ≡ value) × (read ≡ Ok tt)) (λ e. read ≡ Err e) }
{
    match read {
        Ok(_) => Ok(value),
        Err(why) => Err(why),
    }
}

/// What was read, where its closing parenthesis stands behind it.
pub fn to_close<A: Drop>(read: Result<A, Stop>, reader: &mut Reader) -> Result<A, Stop>
    ensures { ReadsToClose read (left reader.old) (left reader.new) result }
{
    let value = read?;
    kept_if(value, reader.sign(Word::RoundClose))
}

/// The items with one more, where it was read.
pub fn pushed<T: Drop>(items: Vec<T>, read: Result<T, Stop>) -> Result<Vec<T>, Stop>
    ensures { IfMade read (λ item all. all.items ≡ items.items ++ item ∷ []) result }
{
    let (mut all, item) = kept(items, read)?;
    all.push(item)?;
    Ok(all)
}
