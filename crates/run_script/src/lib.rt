//! Scripts: an interleaving of threads that store, re-lay and read regions of memory mapped values, of the logger's
//! ticks and flushes, written down line by line. A script's head has the images, the regions and what is logged; each line
//! is read exactly. Which scripts a recording can take: the passes of their regions act beside each other, and each image
//! that a region may hold has what the steps name.
#![tactic(auto)]

mod draws;
mod fault;
mod head;
mod head_line;
mod holding;
mod images;
mod laws;
mod line_words;
mod lines;
mod made;
mod making;
mod named;
mod names;
mod pass_stages;
mod reading;
mod recording;
mod said;
mod script;
mod step_line;
mod steps;
mod suiting;

pub use fault::{ReadScriptError, ScriptFault, ScriptLineFault};
pub use head_line::read_head_line;
pub use laws::{generated_is_in_order, generated_is_read, scripts_are_ruled, statements_are_told};
pub use lines::{Given, HeadLine, Place, StepLine};
pub use made::generate;
pub use recording::for_record;
pub use script::{Line, RegionRow, Script};
pub use step_line::read_step_line;
