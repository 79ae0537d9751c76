//! Laws on trees and reads: what a path, a page and a whole tree commit to. Each is the contract of an
//! empty function, so that crates that read can cite it.
#![tactic(auto)]

mod laws;

pub use laws::{
    a_page_answers_or_shows, a_page_is_the_stores, a_path_answers_or_shows,
    a_whole_ledger_commits_to_its_items, a_whole_map_commits_to_its_items,
};
