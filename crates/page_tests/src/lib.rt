//! Tests of the code of a page, of the operations of one page event and of the pages of tables, alone
//! and together at a simulated chip, and of the events that write tables.
#![tactic(auto)]

#[cfg(test)]
mod images;
#[cfg(test)]
mod tables;
#[cfg(test)]
mod tests;
#[cfg(test)]
mod updates;
