//! Lists in pages of 512 items that copies share.
//!
//! Each transaction copies the sets that it changes. Take a list of 1,300 items, which has three
//! pages: items 0 to 511, 512 to 1023, and 1024 to 1299. `settle` makes its pages common. A copy
//! then counts one reference for each page, and copies no item. A change of item 600 in the copy
//! copies page 1, the page of this item. Pages 0 and 2 stay shared. If item 600 is removed, later
//! items move down from page to page, so pages 1 and 2 become the copy's own.
//!
//! **Definitions:** `specs/Paged.antt` has the items and the owners of the pages. `Contents.antt`
//! of `set_model` has the items of a page, own or shared. **Theory:** docs/architecture.md, "The
//! classifier, by one example".
#![tactic(auto)]

mod page;
mod pages;
mod plain;

pub use page::Page;
pub use pages::{Pages, settle_pages as settle_plain_pages};
pub use plain::{copy_plain_pages, own_plain_pages};

/// How many items a page has.
pub const PAGE: usize = 512;
