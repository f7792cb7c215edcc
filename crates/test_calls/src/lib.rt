//! Public calls that nothing else makes on their happy path, neither the program nor the table of outside cases.
#![tactic(auto)]

#[cfg(test)]
mod base_values;
#[cfg(test)]
mod calc_worlds;
#[cfg(test)]
mod certificate_texts;
#[cfg(test)]
mod float_counts;
#[cfg(test)]
mod property_columns;
#[cfg(test)]
mod symbolic_floors;
