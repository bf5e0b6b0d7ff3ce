//! Chains of theories that are never too wide.

/// The chain of theories that are never too wide: it is over no atoms and passes no width, so no decision can give it.
#[derive(Clone, Copy)]
pub struct Never;
