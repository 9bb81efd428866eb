//! What the rows of two inputs are paired by: the names of drivers or devices, or numbers.

ghost use Rattle.std.specs.Prelude.{◌≡◌, count_by, Some};
ghost use Rattle.std.specs.Option.{option_copied};
ghost use Rattle.std.specs.List.{list_any};
ghost use Rattle.wait_causes.specs.Keys.{is_kind, is_name_of, name_of, is_namesake, is_pair, kind_of, has_names, has_namesakes, if_named, names_for};

use crate::Grouping;
use recording_file::{Name, NameKind};

/// By what rows are paired.
#[derive(Clone, Copy)]
pub enum PairBy {
    /// By names, where both inputs have them, and else by numbers.
    Name,
    /// By numbers.
    Number,
}

/// The kind of names that the rows of a table are paired by: that of its devices or drivers, if both inputs have such names.
/// None if the rows are paired by their numbers.
pub fn names_for(asked: PairBy, by: Grouping, before: &[Name], after: &[Name]) -> Option<NameKind>
    ensures { result ≡ names_for asked by before.now after.now }
{
    match asked {
        PairBy::Number => None,
        PairBy::Name => if_named(kind_of(by), before, after),
    }
}

// The kind, if both inputs have names of it.
fn if_named(kind: Option<NameKind>, before: &[Name], after: &[Name]) -> Option<NameKind>
    ensures { result ≡ if_named kind before.now after.now }
{
    let kind = kind?;
    if has_names(before, kind) && has_names(after, kind) {
        Some(kind)
    } else {
        None
    }
}

/// The kind of names that the rows of a table may be paired by: none of adapters and run levels.
pub fn kind_of(by: Grouping) -> Option<NameKind>
    ensures { result ≡ kind_of by }
{
    match by {
        Grouping::Device => Some(NameKind::Device),
        Grouping::Driver => Some(NameKind::Driver),
        Grouping::Adapter | Grouping::Level => None,
    }
}

/// Whether something of this kind has a name.
pub fn has_names(names: &[Name], kind: NameKind) -> bool
    ensures { result ≡ has_names names.now kind }
{
    names.iter().any(|name| is_kind(name.kind(), kind))
}

/// Whether two of this kind have the same name.
pub fn has_namesakes(names: &[Name], kind: NameKind) -> bool
    ensures { result ≡ has_namesakes names.now kind }
{
    names.iter().any(|name| is_kind(name.kind(), kind) && has_namesake(names, kind, name))
}

// Whether a smaller number of this kind has the same name.
fn has_namesake(names: &[Name], kind: NameKind, name: &Name) -> bool
    ensures { result ≡ list_any (is_namesake kind name.now.number name.now.text) names.now }
{
    let (number, text) = (name.number(), name.text());
    names
        .iter()
        .any(|other| is_namesake(kind, number, text, other))
}

/// Whether a number before and one after are a pair: if they are called the same and as many smaller numbers are, each in its
/// input; or if neither has a name and they are the same. Without a kind of names they have to be the same.
pub(crate) fn is_pair(
    by: Option<NameKind>,
    before: &[Name],
    after: &[Name],
    number: u32,
    other: u32,
) -> bool
    ensures { result ≡ is_pair by before.now after.now number other }
{
    match by {
        None => number == other,
        Some(kind) => is_named_pair(kind, before, after, number, other),
    }
}

fn is_named_pair(kind: NameKind, before: &[Name], after: &[Name], number: u32, other: u32) -> bool
    ensures { result ≡ is_pair (Some kind) before.now after.now number other }
{
    match (name_of(before, kind, number), name_of(after, kind, other)) {
        (None, None) => number == other,
        (Some(name), Some(same)) => {
            name == same
                && namesakes(before, kind, number, name) == namesakes(after, kind, other, same)
        }
        _ => false,
    }
}

/// What a number of this kind is called, if it has a name.
pub(crate) fn name_of(names: &[Name], kind: NameKind, number: u32) -> Option<&str>
    ensures { option_copied result ≡ name_of names.now kind number }
{
    let name = names.iter().find(|name| is_name_of(kind, number, name))?;
    Some(name.text())
}

// How many smaller numbers of this kind are called so.
fn namesakes(names: &[Name], kind: NameKind, number: u32, text: &str) -> usize
    ensures { result ≡ count_by (is_namesake kind number text.now) names.now }
{
    names
        .iter()
        .filter(|name| is_namesake(kind, number, text, name))
        .count()
}

// Whether this is what a number of the kind is called.
fn is_name_of(kind: NameKind, number: u32, name: &Name) -> bool
    ensures { result ≡ is_name_of kind number name.now }
{
    is_kind(name.kind(), kind) && name.number() == number
}

// Whether a smaller number of the kind is called so.
fn is_namesake(kind: NameKind, number: u32, text: &str, name: &Name) -> bool
    ensures { result ≡ is_namesake kind number text.now name.now }
{
    is_kind(name.kind(), kind) && name.number() < number && name.text() == text
}

fn is_kind(kind: NameKind, other: NameKind) -> bool
    ensures { result ≡ is_kind kind other }
{
    kind == other
}
