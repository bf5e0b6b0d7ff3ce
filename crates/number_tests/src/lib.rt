//! Whole numbers: arithmetic at the ends of 128 bits, forms that are made and made simpler, systems that are looked
//! into, and conjunctions that are decided, with answers that were found outside.
#![tactic(auto)]

#[cfg(test)]
mod conjunctions;
#[cfg(test)]
mod forms;
#[cfg(test)]
mod systems;
#[cfg(test)]
mod wide;
