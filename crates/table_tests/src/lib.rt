// Examples of what tables answer, each taken from the rules and not from a run. Every fact here is
// also a consequence of a contract; the tests show that the compiled code does it.
#![tactic(auto)]

#[cfg(test)]
mod chain_table;
#[cfg(test)]
mod row_table;
#[cfg(test)]
mod spare_layer;
