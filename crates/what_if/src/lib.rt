//! What if: what the waiting would have cost by orders that know nothing of the future, and with more openings for a device, an
//! adapter or a link.
#![tactic(auto)]

pub use change::{Change, Resource, Widening};
pub use change_lists::{is_change_of, lists_of_net};
pub use costs::{Costs, costs_of};
pub use laws::best_can_only_fall;
pub use progress::{NoProgress, Progress};
pub use rows::what_if;
pub use tries::worth_trying;
pub use widen::changed;

mod below;
mod change;
mod change_lists;
mod costs;
mod laws;
mod load_list;
mod progress;
mod rounds;
mod rows;
mod tries;
mod waits;
mod widen;
