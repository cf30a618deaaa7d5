//! What a constraint file says: the definition that its reader is proved against, and its laws.
#![tactic(auto)]

mod fault;
mod file;
mod laws;

pub use fault::ConstraintFault;
pub use file::{Key, ListedEdge};
pub use laws::{
    constraints_keep_their_ranges, first_wrong_type_is_named, keys_are_told_by_their_names,
    least_unknown_key_is_named, one_outcome, states_are_numbered_by_first_mention,
};
