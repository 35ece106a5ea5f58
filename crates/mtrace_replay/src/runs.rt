//! The runs: each reads a log, follows its lines, and puts its text.

pub mod enough;
pub mod fit;
pub mod fit_text;
pub mod fitted;
pub mod flush;
pub mod following;
pub mod fronted;
pub mod line_replay;
pub mod needs;
pub mod reading;
pub mod report;
pub mod run;
pub mod save;
pub mod sites;
pub mod size;
pub mod size_parts;
pub mod status;
pub mod step;
pub mod timeline;
pub mod watch;
