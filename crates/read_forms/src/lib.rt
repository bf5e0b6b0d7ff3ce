//! What readers of tokens say of what they have read, for their contracts, and how what was read of the parts of a form
//! joins into what was read of the whole.
//!
//! It has no code, and no promise of its own: the readers' contracts carry it.
#![tactic(auto)]
