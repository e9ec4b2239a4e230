//! Grant tables and the handles of mapped grants, after Xen's version 1 grant entries.
#![tactic(auto)]

mod entry;
mod faults;
mod handles;
mod laws;
mod table;
#[cfg(test)]
mod tests;

pub use entry::{
    DOMID_CHILD, GTF_PERMIT_ACCESS, GTF_READING, GTF_READONLY, GTF_WRITING, GrantEntry,
};
pub use faults::{EndFault, InUse, MapRefused};
pub use handles::{GrantMapping, HANDLES, Handles};
pub use laws::{free_handle_is_least, named_by_an_entry, no_handle_where_all_are_held};
pub use table::{DEVICE_GRANTS, GRANT_REFS, GrantTable};
