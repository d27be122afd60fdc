//! The words that the lines of views are made of: of routes, entries, cuts, tables, values, messages and walks.
#![tactic(auto)]

pub mod cuts;
pub mod entries;
pub mod mails;
pub mod numbers;
pub mod probes;
pub mod reasons;
pub mod routes;
pub mod table_names;
pub mod tables;
pub mod values;
pub mod walks;
