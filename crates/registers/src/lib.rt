// The register tables, the writer and the reader.
#![tactic(auto)]

pub mod accept;
pub mod global;
pub mod pebs;
pub mod plan_settings;
pub mod precise;
pub mod reader;
pub mod tables;
pub mod ubox;
pub mod writer;
