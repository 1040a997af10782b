//! Descriptors of SQL objects and rights, and the catalogue that keeps them in order.
#![tactic(auto)]

mod batch;
mod catalogue;
mod copies;
mod edit;
mod item;
mod keys;
mod limits;
mod marks;
mod need;
mod ranges;
mod room;
mod row;
mod sameness;
mod threads;

pub use catalogue::{Catalogue, compare_items, find, owner_of};
pub use edit::{Edit, EditError, Refusal, Who};
pub use item::{
    Assertion, Check, Column, Domain, DomainCheck, Foreign, Item, Key, Right, RoleGrant, Routine,
    Schema, View,
};
pub use keys::{NeedKey, ObjectKey, PathKey};
pub use limits::Limits;
pub use marks::Marks;
pub use need::{Auth, Need};
pub use ranges::{
    ObjectKind, Part, admin_options_of, columns_of, grantable_of, held_of, objects_of, places,
    role_authorizations, role_grants_of,
};
pub use row::{Cell, Row};
pub use sameness::same_item;
pub use sql_names::Shared;
pub use threads::{catalogue_may_be_shared, item_may_be_shared};
