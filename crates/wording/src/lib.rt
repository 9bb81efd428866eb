//! The words in which people read what was found: how numbers, times, parts and causes are written, and the text that is made of
//! such pieces.
#![tactic(auto)]

pub use captions::{Captions, shortened};
pub use causes::plain_words;
pub use making::Page;
pub use numbers::{
    nanoseconds, push_end, push_nanoseconds, push_number, push_numbers, push_range,
    push_rough_share, push_round, push_rounds, push_share, push_signed, push_span, push_time,
    shift, spelled,
};
pub use order::{items_at, places_by, places_from_greatest};
pub use shown::{is_hidden, shown_lines, shown_name};
pub use waits_by_level::{ByWeight, LevelWaits, WaitRanks, level_waits};

mod captions;
mod causes;
mod making;
mod numbers;
mod order;
mod shown;
mod waits_by_level;
