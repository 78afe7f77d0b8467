//! The data set as numbers: identities with their names, facts, states, conditions and bodies, and what
//! these mean.
//!
//! The layer above may rely on the numbers of facts ([`fact_number`], [`fact_of`], [`facts_in_order`]), on
//! their words ([`FactKind::word`]), on [`Names`], which number the names of each kind in the order of
//! their first declaration, on the counts and names of a [`DataSet`], and on the state at the [`start`].
//! The definitions of value, steps and effect stand here, with the laws that they go by
//! ([`laws_of_values`], [`laws_of_bits`], [`laws_of_effects`], [`laws_of_command_counts`], [`laws_of_steps`]). It stands on
//! `ssi_base` for want of memory.
#![tactic(auto)]

mod data_set;
mod fact;
pub mod limits;
mod meaning;
mod name;
mod names;
mod opcode;
mod place;
mod rule;
mod state;
mod well;
mod well_bodies;
mod well_conditions;
mod well_modules;
mod well_names;
mod well_numbers;
mod well_places;

pub use data_set::{DataSet, ModuleRow, PointsRow, RequestRow, RouteRow, Stmt, SubRow};
pub use fact::{
    Counts, FactKind, Kind, fact_count, fact_number, fact_of, facts_in_order, one_fact,
};
pub use meaning::{
    laws_of_bits, laws_of_command_counts, laws_of_effects, laws_of_steps, laws_of_values,
    worked_bits, worked_bodies, worked_conditions, worked_groups, worked_points, worked_steps,
};
pub use name::Name;
pub use names::{Added, Names};
pub use opcode::{BodyOp, CondOp};
pub use rule::{Body, BodyItem, Cmd, Cond, CondItem};
pub use state::{laws_of_the_start, start};

#[cfg(test)]
mod tests;
#[cfg(test)]
mod well_tests;
