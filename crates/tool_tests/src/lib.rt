//! Tests of the top call whose reports can't be written down whole, and of what a session keeps. Those that can are tables of
//! `examples`.
#![tactic(auto)]

#[cfg(test)]
mod definitions;
#[cfg(test)]
mod reports;
