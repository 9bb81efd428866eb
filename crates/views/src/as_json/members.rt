//! How objects are written, member by member.

use cam_path::path_name;
use cam_types::Config;
use serde::{Described, Serialize, Serializer};
use std::alloc::{AllocError, Global};

/// What a member of an object of several kinds is.
#[derive(Clone, Copy)]
pub(crate) enum Value<'a> {
    Text(&'a str),
    Truth(bool),
    Number(u64),
    /// A number that may be below 0.
    Difference(i128),
    /// None: there is no such member.
    Absent,
}

impl Described for Value<'_> {}

impl Serialize for Value<'_> {
    fn serialize<S: Serializer>(&self, out: &mut S) -> Result<(), S::Error> {
        match self {
            Value::Text(text) => out.str(text),
            Value::Truth(truth) => out.bool(*truth),
            Value::Number(number) => out.u64(*number),
            Value::Difference(number) => out.i128(*number),
            Value::Absent => out.unit(),
        }
    }
}

/// The number, if there is one.
pub(crate) fn if_known<'a>(number: Option<u64>) -> Value<'a> {
    match number {
        Some(number) => Value::Number(number),
        None => Value::Absent,
    }
}

/// Writes members of the object that is open, but for those that are absent.
pub(crate) fn put_values<S: Serializer>(
    out: &mut S,
    members: &[(&str, Value<'_>)],
) -> Result<(), S::Error> {
    for (key, value) in members {
        if !matches!(value, Value::Absent) {
            put_member(out, key, value)?;
        }
    }
    Ok(())
}

/// Writes a member of the object that is open.
pub(crate) fn put_member<S: Serializer, T: Serialize>(
    out: &mut S,
    key: &str,
    value: &T,
) -> Result<(), S::Error> {
    out.key(key)?;
    value.serialize(out)
}

/// Writes members of the object that is open.
pub(crate) fn put_members<S: Serializer, T: Serialize>(
    out: &mut S,
    members: &[(&str, T)],
) -> Result<(), S::Error> {
    for (key, value) in members {
        put_member(out, key, value)?;
    }
    Ok(())
}

/// Writes an object of these members.
pub(crate) fn put_object<S: Serializer, T: Serialize>(
    out: &mut S,
    members: &[(&str, T)],
) -> Result<(), S::Error> {
    out.begin_map(Some(members.len()))?;
    put_members(out, members)?;
    out.end_map()
}

/// Writes an object of these members as a member of the object that is open.
pub(crate) fn put_inner<S: Serializer, T: Serialize>(
    out: &mut S,
    key: &str,
    members: &[(&str, T)],
) -> Result<(), S::Error> {
    out.key(key)?;
    put_object(out, members)
}

/// Begins a list of so many items as a member of the object that is open.
pub(crate) fn begin_list<S: Serializer>(
    out: &mut S,
    key: &str,
    count: usize,
) -> Result<(), S::Error> {
    out.key(key)?;
    out.begin_seq(Some(count))
}

/// Writes the path of a device as a member of the object that is open.
pub(crate) fn put_path<S: Serializer>(
    out: &mut S,
    alloc: Global,
    config: &Config,
    device: u32,
) -> Result<(), S::Error> {
    let path = unless_short(out, path_name(alloc, config, device))?;
    put_member(out, "path", &path)
}

/// What was made for the writer, or its error if memory ran out.
pub(crate) fn unless_short<S: Serializer, T>(
    out: &S,
    made: Result<T, AllocError>,
) -> Result<T, S::Error> {
    match made {
        Ok(made) => Ok(made),
        Err(_) => Err(out.custom("out of memory")),
    }
}
