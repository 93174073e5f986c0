//! The ledger of a machine without a secondary cache, and the rules of cache discipline that it holds events against.
//!
//! A ledger says what may be so of the copies that the primary caches hold: that there is one, that it is dirty, that it is old. It
//! sees the events of a trace and no cache. So a program that breaks no rule does not depend on what the caches hold.
//!
//! - `operations`: the operations of the CACHE instruction, as far as the rules tell them apart.
//! - `marks`: what a mark of a table says of a cell, which is a granule of RAM at a colour.
//! - `tables`: the marks of a ledger, their tests and their changes.
//! - `rules`: the rows of the table of rules, a method each.
//! - `settled`: where one mark tells that an event breaks no rule and changes no fact.
//! - `steps`: an event is held against its row.
//! - `ledger`: the ledger, whose facts are those that the rules leave, and a step of it.
//!
//! The table stands in specs/Rules.antt and specs/Events.antt: each row says which copies break a rule and which facts change. What
//! the facts are stands in specs/Facts.antt, how marks give them in specs/Marks.antt, and what the facts of a ledger keep that
//! began without one in specs/Consistent.antt.
#![tactic(auto)]

mod ledger;
mod marks;
mod operations;
mod rules;
mod settled;
mod steps;
mod tables;

pub use ledger::PcLedger;
