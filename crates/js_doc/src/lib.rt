//! Documents and JSON values as the program holds them, with their texts and lists, and tables of shared parts.
//!
//! A contract sees a [`Doc`] as the document that it stands for, by `view` of `specs/View.antt`, and a list or a
//! text as a list. Every call costs at most time in proportion to the value that it reads, but for [`unshare`], which
//! costs what it makes. All crates stand on this one.
#![tactic(auto)]

mod depths;
mod document;
mod equality;
mod json;
mod lists;
mod numbers;
mod parts;
mod rising;
mod text;
mod unsharing;
mod word;

pub use depths::depth;
pub use document::{Doc, DocList, DocMap, Member};
pub use equality::equal;
pub use json::{Json, JsonList, JsonMap, JsonMember};
pub use lists::StrList;
pub use numbers::NumList;
pub use parts::{Part, PartId, PartIds, PartMap, PartMember, Parts, PartsFault};
pub use rising::Named;
pub use text::{Memory, Str};
pub use unsharing::unshare;
pub use word::Word;
