// The calls of a sheet on its cells: N samples, and their tones after them.
#![tactic(auto)]

mod answers;
mod calls;
mod fitting;
mod sheets;
mod theorems;
mod tones;

pub use answers::Answer;
pub use calls::{edit_cells, lay_cells, mirror_cells, read_cell, shift_cells};
pub use fitting::fits;
pub use sheets::Sheet;
pub use theorems::sheets_stand;
