//! Two inputs side by side.

use crate::compared::Compared;
use crate::pairing::Pairing;
use crate::tables::GROUPINGS;
use std::alloc::{AllocError, Global};
use wait_causes::{
    Differences, Grouping, PairBy, PairedRow, has_names, has_namesakes, kind_of, names_for, paired,
};

/// An input before a change and one after it, and by what the rows of their tables are to be paired.
#[derive(Clone, Copy)]
pub(crate) struct Pair<'a> {
    pub(crate) asked: PairBy,
    pub(crate) before: Compared<'a>,
    pub(crate) after: Compared<'a>,
}

impl Pair<'_> {
    /// In what the inputs differ beside their requests.
    pub(crate) fn differences(&self) -> Differences {
        Differences::between(
            self.asked,
            self.before.net.config(),
            self.before.explanation.names(),
            self.before.explanation.unit(),
            self.after.net.config(),
            self.after.explanation.names(),
            self.after.explanation.unit(),
        )
    }

    /// The rows of each table in pairs, in the order of `GROUPINGS`.
    pub(crate) fn tables(&self, alloc: Global) -> Result<Vec<Vec<PairedRow>>, AllocError> {
        let mut tables = Vec::with_capacity(alloc, GROUPINGS.len())?;
        for (by, _, _) in &GROUPINGS {
            tables.push(self.table(alloc, *by)?)?;
        }
        Ok(tables)
    }

    // The rows of this table in pairs.
    fn table(&self, alloc: Global, by: Grouping) -> Result<Vec<PairedRow>, AllocError> {
        let (before, after) = (self.before.explanation, self.after.explanation);
        let kind = names_for(self.asked, by, before.names(), after.names());
        let (was, is) = (before.table(alloc, by)?, after.table(alloc, by)?);
        paired(alloc, kind, before.names(), after.names(), &was, &is)
    }

    /// What the parts of two rows are called: by number and name, or by the name alone if their numbers differ; what only one of
    /// the inputs has, as it is called there.
    pub(crate) fn caption(
        &self,
        alloc: Global,
        by: Grouping,
        row: &PairedRow,
    ) -> Result<String, AllocError> {
        let (before, after) = (self.before.captions(), self.after.captions());
        match (&row.before, &row.after) {
            (Some(was), Some(is)) if was.number != is.number => {
                before.by_name(alloc, by, was.number)
            }
            (Some(was), _) => before.caption(alloc, by, was.number),
            (None, Some(is)) => after.caption(alloc, by, is.number),
            (None, None) => Ok(String::new(alloc)),
        }
    }

    /// How the rows of this table are paired.
    pub(crate) fn pairing(&self, by: Grouping) -> Pairing {
        let (before, after) = (
            self.before.explanation.names(),
            self.after.explanation.names(),
        );
        let mut pairing = Pairing {
            by: "number",
            unnamed: None,
            namesakes: false,
        };
        if let Some(kind) = kind_of(by)
            && self.asked == PairBy::Name
        {
            match (has_names(before, kind), has_names(after, kind)) {
                (true, true) => {
                    pairing.by = "name";
                    pairing.namesakes = has_namesakes(before, kind) || has_namesakes(after, kind);
                }
                (false, true) => pairing.unnamed = Some("before"),
                (true, false) => pairing.unnamed = Some("after"),
                (false, false) => {}
            }
        }
        pairing
    }
}
