// Sheets: a network as text, one record a line, read whole or not at all.
#![tactic(auto)]

mod field;
mod loader;
mod number;
mod reader;
mod reads;
mod records;
mod writer;

use field::Field;
pub use loader::SheetLoader;
use reader::Reader;
use records::Lines;
pub use writer::{MOST_BYTES, write_sheet};
