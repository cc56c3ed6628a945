//! What a space of stores stands for: a store for each region and the frame account, and what each call makes of them.
//!
//! The definitions stand in `specs/`. The functions here state laws of them, and small contents that are worked out.
#![tactic(auto)]

mod behavior;
mod examples;
mod laws;
mod refusal;

pub use behavior::{
    accounts_stay, all_else_stays, calls_keep_whole, children_are_copies, children_share,
    covers_each_page, ends_free_frames, forks_are_done, forks_are_refused, looks_agree,
    none_is_none, others_keep_their_class, pages_are_added, prepared_refusals_are_needed,
    prepared_touches_are_named, prepared_touches_are_needed, reads_are_seen, refusals_are_in_order,
    rules_agree, standings_stay, store_decides_looks, touches_are_named, touches_leave_others,
    transfers_on_one_page, transfers_split, writes_are_read, written_numbers_are_seen,
};
pub use examples::{a_second_copy_finds_no_frame, the_home_decides, the_last_member_moves};
pub use laws::{
    constants_are_fixed, covers_each_byte, end_keeps_shared, fork_copies_the_store,
    other_stores_stay, own_store_decides, prepared_leaves_no_touch, refusals_change_nothing,
    regions_are_kept, settings_stay, touches_are_exact, used_stays_within,
};
pub use refusal::Refusal;

/// The most bytes of one transfer between the kernel and a store.
pub const MOST_TRANSFER: usize = 4096;
