//! A database as plain data, and the rules of its fields: what an image holds, what a run begins with, and what a store
//! hands out.
#![tactic(auto)]

mod law;
mod opening;

pub use law::{objects_loaded, objects_saved, openings_are_data};
pub use opening::{
    MOST_BLOCKS, ObjectData, ObjectList, Opening, StoredBlocks, TableData, TableList,
};
