//! Who was in the way of the stays that waited: for each driver or run level how long its stays waited for those of another, what
//! that cost, and how much of it another order would have avoided.

mod amounts;
mod in_way;
mod laws;
mod row;
mod table;
mod totals;

pub use laws::blame_adds_up;
pub use row::BlameRow;
pub use table::blame_of;
