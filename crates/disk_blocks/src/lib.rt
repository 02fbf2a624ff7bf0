//! The blocks of a disk: where the gates of its slots and its directory region stand.
#![tactic(auto)]

mod region;

pub use region::{
    BLOCK, BLOCK_SIZE, FIRST_CLAIM, FIRST_STATUS, LEAST_SIZE, LOG_BLOCKS, REGION_START,
    SECOND_CLAIM, SECOND_STATUS,
};
