//! What a stay waited behind in a round in which a row was full.

ghost use Rattle.std.specs.Prelude.{◌≡◌, ◌+◌, ◌<◌, ◌^◌, Option};
ghost use Rattle.wait_causes.specs.Behind.{no_behind, with_behind, behind_since, all_behind};

/// What the least urgent of the stays that a full row sent in a round was, beside one that waited for it.
#[derive(Clone, Copy)]
pub enum Behind {
    /// One of a smaller weight.
    LessUrgent,
    /// One of the same weight.
    Equal,
    /// One of a larger weight.
    MoreUrgent,
}

/// Rounds of waiting in which a row was full, by what that row sent.
#[derive(Clone, Copy)]
pub struct FullBehind {
    /// Rounds in which it sent a stay of a smaller weight.
    pub less_urgent: u32,
    /// Rounds in which it sent none of a smaller weight, and one of the same.
    pub equal: u32,
    /// Rounds in which all that it sent had larger weights.
    pub more_urgent: u32,
}

impl FullBehind {
    /// None at all.
    pub(crate) fn none() -> FullBehind
        ensures { result ≡ no_behind }
    {
        FullBehind {
            less_urgent: 0,
            equal: 0,
            more_urgent: 0,
        }
    }

    /// One round more, in which a row was full if there is something here.
    pub(crate) fn add(&mut self, behind: Option<Behind>)
        requires { all_behind self.old + 1 < 2 ^ 32 }
        ensures { self.new ≡ with_behind self.old behind }
    {
        match behind {
            None => {}
            Some(Behind::LessUrgent) => self.less_urgent += 1,
            Some(Behind::Equal) => self.equal += 1,
            Some(Behind::MoreUrgent) => self.more_urgent += 1,
        }
    }

    /// Those of these that aren't among the earlier ones.
    pub(crate) fn since(self, earlier: FullBehind) -> FullBehind
        ensures { result ≡ behind_since self earlier }
    {
        FullBehind {
            less_urgent: self.less_urgent.saturating_sub(earlier.less_urgent),
            equal: self.equal.saturating_sub(earlier.equal),
            more_urgent: self.more_urgent.saturating_sub(earlier.more_urgent),
        }
    }
}
