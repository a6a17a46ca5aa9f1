//! Create, delete and setData, planned on a view.
//!
//! [`update_needs`] names what a request still has to read. Once the view lacks nothing of that, [`decide_update`] decides: a
//! refusal, or a plan. The plan's transaction guards what the request read, but for the head, and nothing else that the view
//! saw. So a plan stays small, however many updates of others came first. The reply of a plan waits for the zxid of its update
//! ([`finish`]).
//!
//! Each request is decided in two steps. What the view saw is read as records (`seen`), without a node's data. Then a pure
//! function of these records (`specs/Choices`) chooses a refusal or the changes of an update; [`choose_create`],
//! [`choose_delete`] and [`choose_set_data`] compute it. `proofs/` shows that wherever keys have what was seen, the choice is
//! what the request comes to (`IsRight`), and its changes of keys are those of the tree (`ChangesFit`).
//!
//! A zxid of 0 in a record is that of the update itself. So the parts of a multi can be chosen one after the other:
//! [`choose_part`] chooses a part on a view over which the keys are laid that the earlier parts wrote.
//!
//! The data of a create or a setData is copied once, from the request into the node's value.
#![tactic(auto)]

mod asked;
mod changes;
mod chosen;
mod create;
mod create2;
mod delete;
mod draft;
mod form;
mod keys;
mod layers;
mod owned;
mod part;
mod plan;
mod requests;
mod seen;
mod set_data;

pub use asked::NewNode;
pub use chosen::{Chosen, Update};
pub use create::choose_create;
pub use delete::choose_delete;
pub use draft::finish;
pub use form::{Form, create_form, inner_path};
pub use keys::{
    creates_seen, owner_seen, push_data, push_node, push_owner, push_session, start_keys,
};
pub use layers::{data_over, nodes_over};
pub use part::choose_part;
pub use requests::{decide_update, update_needs};
pub use seen::{SeenCounts, SeenData, SeenNode};
pub use set_data::choose_set_data;
