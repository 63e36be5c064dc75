// The records that images and logs are made of: their bytes, written at the front of memory and read from there.
#![tactic(auto)]

pub mod commands;
pub mod entries;
pub mod frames;
pub mod heads;
pub mod image_lines;
pub mod images;
