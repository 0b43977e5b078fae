// Block files, the passes on what they hold, and the text of the table: what `plot` reads, runs and prints.
#![tactic(auto)]

mod block;
mod buffers;
mod bytes;
mod count;
mod counted;
mod error;
mod format;
mod header;
pub mod plot;
mod print;
mod records;
pub mod report;
mod rows;
mod run;
mod spare;
mod table;
mod text;
pub mod write;
