//! Lists of values that were found, and at which of them literals hold: a bit for each, which is looked up where the same
//! literal is asked for again. Nothing rests on it, since values are tried before they are an answer.

use crate::compare::Compare;
use fast_fault::{LabelInt, Memory};
use label_core::Lit;
use std::alloc::Global;

// How many lists of values are kept, and how many words have a bit for each.
const MOST_VALUES: usize = 1024;

const WORDS: usize = 16;

// Of how many literals it is kept where they hold.
const COLUMNS: usize = 4096;

/// Some of the places where values are kept.
#[derive(Clone, Copy)]
pub(crate) struct Places {
    words: [u64; WORDS],
}

// The bit of a place within its word.
fn bit(place: usize) -> u64 {
    1u64.wrapping_shl((place % 64) as u32)
}

impl Places {
    fn none() -> Places {
        Places { words: [0; WORDS] }
    }

    fn all() -> Places {
        Places {
            words: [u64::MAX; WORDS],
        }
    }

    fn set(&mut self, place: usize, is_one: bool) {
        if let Some(word) = self.words.get_mut(place / 64) {
            *word = if is_one {
                *word | bit(place)
            } else {
                *word & !bit(place)
            };
        }
    }

    fn has(&self, place: usize) -> bool {
        match self.words.get(place / 64) {
            Some(word) => *word & bit(place) != 0,
            None => false,
        }
    }

    fn keep_those_of(&mut self, other: &Places) {
        for i in 0..WORDS {
            self.words[i] &= other.words[i];
        }
    }

    // How many of them the others don't have.
    fn count_without(&self, other: &Places) -> u32 {
        let mut count = 0u32;
        for i in 0..WORDS {
            count = count.saturating_add((self.words[i] & !other.words[i]).count_ones());
        }
        count
    }

    fn first(&self) -> Option<usize> {
        for i in 0..WORDS {
            let own = self.words[i];
            if own != 0 {
                return Some(
                    i.saturating_mul(64)
                        .saturating_add(own.trailing_zeros() as usize),
                );
            }
        }
        None
    }
}

// The one of these that leaves the fewest of the places, if it leaves fewer than there are.
fn most_breaking(columns: &[Places], places: &Places) -> Option<usize> {
    let mut best = None;
    let mut most = 0;
    for (i, own) in columns.iter().enumerate() {
        let count = places.count_without(own);
        if count > most {
            most = count;
            best = Some(i);
        }
    }
    best
}

// Where the literal with this mark holds, as far as so many lists have been looked at.
#[derive(Clone, Copy)]
struct Column {
    mark: u64,
    seen: usize,
    places: Places,
}

impl Column {
    fn new(mark: u64) -> Column {
        Column {
            mark,
            seen: 0,
            places: Places::none(),
        }
    }
}

/// The last 1,024 lists of values that were found: each stands at the remainder of its number.
#[derive(Drop)]
pub(crate) struct Lists {
    lists: Vec<[LabelInt; 8]>,
    count: usize,
    columns: Vec<Column>,
}

impl Lists {
    pub(crate) fn new(alloc: Global) -> Lists {
        Lists {
            lists: Vec::new(alloc),
            count: 0,
            columns: Vec::new(alloc),
        }
    }

    pub(crate) fn keep(&mut self, alloc: Global, values: [LabelInt; 8]) -> Result<(), Memory> {
        if self.columns.is_empty() {
            self.columns = vec![in alloc; Column::new(0); COLUMNS]?;
        }
        if let Some(oldest) = self.lists.get_mut(self.count % MOST_VALUES) {
            *oldest = values;
        } else {
            self.lists.push(values)?;
        }
        self.count = self.count.saturating_add(1);
        Ok(())
    }

    // Where the literal holds, which has this mark. Another literal with the mark may be mistaken for it.
    fn places_of(&mut self, literal: &Lit<Compare>, mark: u64) -> Places {
        let Some(column) = self.columns.get_mut((mark >> 52) as usize % COLUMNS) else {
            return Places::none();
        };
        if column.mark != mark {
            *column = Column::new(mark);
        }
        let first = column.seen.max(self.count.saturating_sub(MOST_VALUES));
        for number in first..self.count {
            let place = number % MOST_VALUES;
            if let Some(values) = self.lists.get(place) {
                let holds = literal.atom.holds(values) == literal.sign;
                column.places.set(place, holds);
            }
        }
        column.seen = self.count;
        column.places
    }

    /// Values at which all literals hold, which have these marks, unless two literals share one.
    pub(crate) fn for_all(
        &mut self,
        literals: &[Lit<Compare>],
        marks: &[u64],
    ) -> Option<[LabelInt; 8]> {
        let mut all = Places::all();
        for (literal, mark) in literals.iter().zip(marks) {
            all.keep_those_of(&self.places_of(literal, *mark));
        }
        self.lists.get(all.first()?).copied()
    }

    /// Values at which the most literals hold, which have these marks.
    pub(crate) fn nearest(
        &mut self,
        literals: &[Lit<Compare>],
        marks: &[u64],
    ) -> Option<[LabelInt; 8]> {
        let mut counts = [0u32; MOST_VALUES];
        for (literal, mark) in literals.iter().zip(marks) {
            let own = self.places_of(literal, *mark);
            for place in 0..MOST_VALUES {
                counts[place] = counts[place].saturating_add(own.has(place) as u32);
            }
        }
        let mut best = 0;
        for place in 0..MOST_VALUES {
            if counts[place] > counts.get(best).copied().unwrap_or(0) {
                best = place;
            }
        }
        self.lists.get(best).copied()
    }

    /// Places of literals, which have these marks: at each list of values one of these doesn't hold.
    pub(crate) fn breaking(
        &mut self,
        alloc: Global,
        literals: &[Lit<Compare>],
        marks: &[u64],
    ) -> Result<Vec<usize>, Memory> {
        let mut columns = Vec::new(alloc);
        for (literal, mark) in literals.iter().zip(marks) {
            columns.push(self.places_of(literal, *mark))?;
        }
        let mut left = Places::none();
        for place in 0..self.lists.len() {
            left.set(place, true);
        }
        let mut chosen = Vec::new(alloc);
        for _ in 0..columns.len() {
            let Some(place) = most_breaking(&columns, &left) else {
                return Ok(chosen);
            };
            if let Some(own) = columns.get(place) {
                left.keep_those_of(own);
            }
            chosen.push(place)?;
        }
        Ok(chosen)
    }
}
