//! Sets of numbers, as bits in words.

ghost use Rattle.std.specs.Prelude.{ℕ, ◌≡◌, ◌<◌, ◌≤◌, true, false, length, replicate, set, cond, get_or, bit_and, All, IfOk};
ghost use Rattle.model_sta.specs.Sets.{has};
ghost use Rattle.sta_classes.specs.Applying.{AreAt};
ghost use Rattle.sta_classes.specs.Bits.{both};

use fast_fault::Memory;
use label_core::both;
use std::alloc::Global;
use std::hash::{Hash, Hasher};
use std::marker::Model;

/// Keeps the bits of each word that the other word has too.
fn meet_words(words: &mut Vec<u64>, others: &[u64])
    requires { length words.old.items ≤ length others.now }
    ensures many { length words.new.items ≡ length words.old.items }
    ensures each { (i : ℕ) → i < length words.old.items → get_or words.new.items i 0 ≡ bit_and (get_or words.old.items i 0) (get_or others.now i 0) }
{
    'words: for i in 0..words.len() {
        words[i] &= others[i];
    }
}

/// A set of some of the first so many numbers, one bit for each.
#[derive(Drop)]
pub struct Row {
    words: Vec<u64>,
    places: usize,
}

impl Model for Row {
    ghost use Rattle.std.specs.Prelude.{◌≡◌, Bool, List};
    ghost use Rattle.sta_classes.specs.Bits.{bits_of, words_of};

    ghost Value = { List Bool };

    ghost view = { λ s. bits_of s.places s.words.items };

    ghost invariant = { λ s. s.words.items ≡ words_of (bits_of s.places s.words.items) };
}

impl Row {
    /// None of the first so many numbers.
    pub fn new(alloc: Global, places: usize) -> Result<Row, Memory>
        ensures { IfOk result (λ row. row ≡ replicate places false) }
    {
        let words = vec![in alloc; 0; places / 64 + 1]?;
        Ok(Row { words, places })
    }

    /// Whether the number is in the set.
    pub fn has(&self, place: u64) -> bool
        ensures { result ≡ has self.now place }
    {
        let place = place as usize;
        if place >= self.places {
            return false;
        }
        (self.words[place / 64] >> (place % 64)) & 1 == 1
    }

    /// Puts the number into the set.
    pub fn insert(&mut self, place: usize)
        requires { place < length self.old }
        ensures { self.new ≡ set self.old place true }
    {
        self.words[place / 64] |= 1 << (place % 64);
    }

    /// Puts the number into the set, if so it is.
    pub fn put(&mut self, place: usize, inside: bool)
        requires { place < length self.old }
        ensures { self.new ≡ cond inside (set self.old place true) self.old }
    {
        if inside {
            self.insert(place);
        }
    }

    /// Keeps the numbers that the other set has too.
    pub fn meet(&mut self, other: &Row)
        requires { length other.now ≡ length self.old }
        ensures { self.new ≡ both self.old other.now }
    {
        meet_words(&mut self.words, &other.words);
    }

    /// The first number of the set from this one on, or one past all numbers.
    pub fn next(&self, from: usize) -> usize
        ensures from { from ≤ result }
        ensures none { (i : ℕ) → from ≤ i → i < result → has self.now i ≡ false }
        ensures some { result < length self.now → has self.now result ≡ true }
    {
        let places = self.places;
        let mut place = from;
        'places: while place < places {
            let word = self.words[place / 64];
            if word == 0 {
                let skipped = 64 - place % 64;
                if skipped >= places - place {
                    return places;
                }
                place += skipped;
            } else if (word >> (place % 64)) & 1 == 1 {
                return place;
            } else {
                place += 1;
            }
        }
        place
    }

    /// The same set again.
    pub fn copy(&self, alloc: Global) -> Result<Row, Memory>
        ensures { IfOk result (λ copy. copy ≡ self.now) }
    {
        let words = Vec::from_slice(alloc, &self.words)?;
        let places = self.places;
        Ok(Row { words, places })
    }
}

/// The numbers that the list has at the places that are in both sets.
pub fn numbers_at(
    alloc: Global,
    list: &[usize],
    places: usize,
    first: &Row,
    second: &Row,
) -> Result<Row, Memory>
    requires low { All (λ n. n < places) list.now }
    requires first { length first.now ≡ length list.now }
    requires second { length second.now ≡ length list.now }
    ensures { IfOk result (AreAt list.now places (both first.now second.now)) }
{
    let (mut row, mut inside) = both(Row::new(alloc, places), first.copy(alloc))?;
    inside.meet(second);
    let mut i = inside.next(0);
    'numbers: while i < list.len() {
        row.insert(list[i]);
        i = inside.next(i + 1);
    }
    Ok(row)
}

impl PartialEq for Row {
    ghost use Rattle.std.specs.Bool.{beq};
    ghost use Rattle.std.specs.Cmp.Lexicographic.{pointwise};
    ghost use Rattle.std.proofs.Common.{rules};
    ghost use Rattle.std.specs.Cmp.Rules.{comparing};

    ghost eq = { pointwise beq };

    ghost laws = { Prim.search (comparing, rules) };

    fn eq(&self, other: &Row) -> bool {
        if self.places != other.places {
            return false;
        }
        self.words == other.words
    }
}

impl Eq for Row {
    ghost use Rattle.std.proofs.Common.{rules};
    ghost use Rattle.std.specs.Cmp.Rules.{comparing};

    ghost laws = { Prim.search (comparing, rules) };
}

impl Hash for Row {
    ghost use Rattle.std.specs.Hash as fed;
    ghost use Rattle.sta_classes.specs.Bits.{words_of};
    ghost use Rattle.std.specs.Bool.{beq};
    ghost use Rattle.std.specs.Cmp.{booleans_Decides};
    ghost use Rattle.std.specs.Cmp.Lexicographic.{pointwise};
    ghost use Rattle.std.proofs.Common.{refl};
    ghost use Rattle.std.proofs.lemmas.Slice.Eq.{slice_eq-Decides};

    ghost hash_input = { λ row. fed.slice fed.u64 (words_of row) };

    ghost respects_eq = { (fed.same_Alike (λ row. fed.slice fed.u64 (words_of row)) (λ x y. slice_eq-Decides booleans_Decides x y (pointwise beq x y) refl)).fed };

    fn hash<H: Hasher>(&self, state: &mut H) {
        self.words.hash(state);
    }
}
