//! What a script says so far, and where in it a line stands.
ghost use Rattle.std.specs.Prelude.{◌≡◌};
ghost use Rattle.run_script.specs.Reading.{script_from};
ghost use Rattle.run_script.specs.Said.{nothing};

use crate::script::{Line, RegionRow, Script};
use log_schedule::{Config, Group};
use mmv_layout::Image;
use mmv_writer::Builder;
use pcp_base::{List, Stamp, Text};
use std::alloc::Global;

/// The images, the regions, the groups and the steps of the lines so far, and the stamp of the last tick.
#[derive(Drop)]
pub struct Said {
    pub images: List<(Text, Image)>,
    pub regions: List<RegionRow>,
    pub groups: List<Group>,
    pub steps: List<(u32, Line)>,
    pub last: Option<Stamp>,
}

/// Where a line stands: in the head between images, behind the line of an image, among that image's lines, or behind the
/// line `start`.
#[derive(Drop)]
pub enum Stage {
    Head,
    Opening(Text),
    Image(Text, Builder),
    Steps,
}

impl Said {
    /// What no line says.
    pub fn nothing(alloc: Global) -> Said
        ensures { result ≡ nothing }
    {
        Said {
            images: List::empty(alloc),
            regions: List::empty(alloc),
            groups: List::empty(alloc),
            steps: List::empty(alloc),
            last: None,
        }
    }

    /// The script of all lines.
    pub fn into_script(self) -> Script
        ensures { result ≡ script_from self }
    {
        Script {
            images: self.images,
            regions: self.regions,
            config: Config {
                groups: self.groups,
            },
            steps: self.steps,
        }
    }
}
