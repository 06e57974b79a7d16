//! The fields of nodes in JSON: what is asked of a value, which type and fields an object gives a node, and the object that
//! is written for one, which gives the same fields back.
//!
//! One table of members, `names` of `specs/Words.antt`, serves new nodes, patches and documents. `specs/Documents.antt`
//! states which fields an object gives, and `specs/Exporting.antt` which object is written.
#![tactic(auto)]

mod exporting;
mod fields;
mod members;
mod types;
mod values;
mod words;

pub use exporting::node_value;
pub use fields::{FieldFault, fields_of, name_in};
pub use members::settable;
pub use types::{kind_of_type, kind_told};
pub use values::{
    first_member, has_only, items_in, long_within, member_text, named, number_of, number_within,
    only_member, optional_text, short_within, small_within, text_of,
};
pub use words::{Name, level_of, list_type_of, made_kind, name_of};
