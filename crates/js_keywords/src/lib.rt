//! The keywords of draft-06, the faults of schemas, and what is wrong first in one member of a schema's object.
//!
//! `specs/Reading.antt` gives the rules by which schemas are read: what a pattern is, where a reference leads, and what
//! a schema may weigh. A check takes time in proportion to the value that it looks at. The reader of schemas,
//! `js_reader`, stands on this crate.
#![tactic(auto)]

mod elements;
mod fault;
mod keyword;
mod member;
mod shapes;
mod type_name;
mod value_place;
mod whole;

pub use fault::SchemaFault;
pub use keyword::Keyword;
pub use member::{ObjectPlace, check_member};
pub use type_name::TypeName;
pub use value_place::wrong_shape;
