//! What the acts on files store in the blocks of a disk.
//!
//! `specs/BlockActs.antt` says in which order they store it, and which blocks they take and give back;
//! `specs/BlockLaws.antt` what this means for a disk without a fault, which is proved. Nothing here takes memory.
#![tactic(auto)]

mod laws;

pub use laws::{
    acts_go_on, block_acts_are_acts, blocks_decide, changes_keep_disks, disks_are_counted,
    disks_are_undamaged, empty_files_are_removed, faults_are_their_blocks, files_are_stored,
    free_is_counted, free_is_found, given_blocks_are_lost, given_indirect_is_unmarked,
    made_records_are_files, names_are_counted, paths_lead_alike, places_have_one_way, places_stay,
    puts_follow_each_other, puts_stay_within, putting_again_changes_nothing,
    records_are_their_blocks, taken_blocks_are_empty_records, taken_blocks_are_zeros,
    taken_indirect_is_marked, ways_lead_to_names, ways_lead_to_records,
};
