//! Labels of several fields: conjunctions that are decided, and maps that are read from expressions, make labels, are put
//! into atoms and follow one another, with answers that were found by hand.
#![tactic(auto)]

#[cfg(test)]
mod chained;
#[cfg(test)]
mod decided;
#[cfg(test)]
mod expressions;
#[cfg(test)]
mod maps;
#[cfg(test)]
mod samples;
