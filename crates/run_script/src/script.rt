//! A script that was read.
use crate::lines::Given;
use log_schedule::Config;
use mmv_layout::Image;
use pcp_base::{List, Stamp, Text};

/// A region of a script: its FILE, the position of the image that it opens on, its capacity in words, the number of its
/// passes, and the number of its line.
#[derive(Drop)]
pub struct RegionRow {
    pub file: Text,
    pub image: u32,
    pub capacity: u32,
    pub passes: u32,
    pub line: u32,
}

/// A step of a script. Regions and images are told by their positions.
#[derive(Drop)]
pub enum Line {
    Attach {
        region: u32,
        pass: u32,
    },
    Detach {
        region: u32,
        pass: u32,
    },
    Swap {
        region: u32,
        pass: u32,
        item: u32,
        instance: Option<i32>,
        value: Given,
    },
    Add {
        region: u32,
        pass: u32,
        item: u32,
        instance: Option<i32>,
        number: i128,
    },
    Begin {
        region: u32,
        pass: u32,
        image: u32,
        moment: u64,
    },
    Step {
        region: u32,
        pass: u32,
    },
    Finish {
        region: u32,
        pass: u32,
    },
    Load {
        region: u32,
        pass: u32,
    },
    Word {
        region: u32,
        pass: u32,
        index: u32,
    },
    Done {
        region: u32,
        pass: u32,
    },
    Tick {
        stamp: Stamp,
    },
    Flush,
}

/// A script: the images by name, the regions, what is logged and when, and the steps, each with the number of its line.
#[derive(Drop)]
pub struct Script {
    pub images: List<(Text, Image)>,
    pub regions: List<RegionRow>,
    pub config: Config,
    pub steps: List<(u32, Line)>,
}
