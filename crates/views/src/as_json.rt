//! What a check, an audit, an explanation, a comparison, a sweep and a proof give, each as one object of JSON on one line.

pub use audit::audit_json;
pub use check::check_json;
pub use compare::compare_json;
pub use explain::explain_json;
pub use improvements::what_if_json;
pub use prove::prove_json;
pub use sweep_object::sweep_json;

mod audit;
mod blame_table;
mod causes;
mod check;
mod compare;
mod counts;
mod explain;
mod freezes;
mod improvements;
mod limits;
pub(crate) mod line;
pub(crate) mod members;
mod part;
mod prices;
mod prove;
mod row;
mod stays;
mod sweep_object;
