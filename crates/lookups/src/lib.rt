// What a host looks up in a book or a sheet, without reading the bytes itself.
#![tactic(auto)]

pub mod book;
pub mod colour;
pub mod sheet;
