// Tests of rows and frames. They stand in a crate of their own, since a crate with tests is proved twice.
#![tactic(auto)]

#[cfg(test)]
mod frames_read;
#[cfg(test)]
mod rows_read;
