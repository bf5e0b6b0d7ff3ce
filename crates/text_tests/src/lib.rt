//! Texts that are read and printed: tables of tokens, of programs and of trees, the places at which others are refused, and
//! the canonical texts that programs are printed as, which no clause lists.
#![tactic(auto)]

#[cfg(test)]
mod items;
#[cfg(test)]
mod printed;
#[cfg(test)]
mod refused;
#[cfg(test)]
mod tokens;
#[cfg(test)]
mod trees;
