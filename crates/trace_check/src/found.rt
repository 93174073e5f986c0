//! The first event that breaks a rule.

use access_trace::{Breach, Event};

/// The first event that breaks a rule, by its number from 0, with the rule.
#[derive(Clone, Copy)]
pub struct Found {
    pub number: u64,
    pub breach: Breach,
    pub event: Event,
}
