// The sheet of a marked set: what each chosen taxon adds to those before it, row after row, and the sums. Nothing is asked of the
// caller. Outline, way, set and the table of firsts are passed side by side: in a struct of references a clause would say
// `list.now.set.now` for `set.now`. The way is the number that C hands over; row 1 answers any that is none. Nothing is allocated: tables
// by record number are arrays.
#![tactic(auto)]

mod answer;
mod firsts;
mod judge;
mod lister;
mod outsides;
mod tables;

pub use answer::Figures;
pub use lister::sheet;
