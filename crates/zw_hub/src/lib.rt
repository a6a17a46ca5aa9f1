//! Entries from one writer to many readers.
//!
//! One thread publishes the service's updates as entries, and every connection reads them at its own pace, by a cursor: the
//! number of the last entry that it took. [`hub`] makes a [`Hub`], which publishes and closes, all of its [`HubReader`]s, and a
//! [`Keeper`].
//! A read takes no lock and waits for nobody. The newest 4,096 entries are kept. A reader whose next entry is older than those
//! is told that it lagged, and so is one whose next entry was forgotten ([`Hub::forget`]).
//!
//! There are two copies of the newest entries, kept by `left_right`: readers read one while the writer updates the other. So a
//! publish costs two pushes into a ring and a look at each reader's seat, and waits for readers that are inside a read. A read
//! costs one step into its seat and one out, and counts one more owner of the entry. Entries are shared and never copied.
//!
//! Where the hub is dropped, its list stays as it was published last, and the readers go on reading it until the keeper is dropped
//! too. No clause says so, since none says when a read finds the list gone, and a test shows it. A reader has no handle by which
//! it could wait, so the checker itself says that a read returns.
//!
//! Contracts speak of the whole list that was ever published ([`Published`]); the rings hold its end (`specs/Windows`), each
//! entry in its place even where the copy could not own it (`specs/Kept`). `specs/Lists` says what a list is and how it grows,
//! `specs/Feeds` what a read answers, and `specs/Steps` which steps threads take and what each step leaves known.
#![tactic(auto)]

mod change;
mod feed;
mod kept;
mod opening;
mod published;
mod reader;
mod rest;
mod rule;
mod window;
mod writer;

pub use feed::{Fed, Feed, FeedEnd};
pub use opening::hub;
pub use published::{MAX_KEPT, Published};
pub use reader::HubReader;
pub use rest::Keeper;
pub use writer::Hub;
