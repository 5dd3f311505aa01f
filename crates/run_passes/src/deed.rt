//! What a line lets a pass do.
use mmv_layout::Image;
use run_script::Given;

/// What a line lets a pass do.
#[derive(Clone, Copy)]
pub enum Deed<'a> {
    Attach,
    Detach,
    Swap {
        item: u32,
        instance: Option<i32>,
        value: &'a Given,
    },
    Add {
        item: u32,
        instance: Option<i32>,
        number: i128,
    },
    Begin {
        image: &'a Image,
        moment: u64,
    },
    Step,
    Finish,
    Load,
    Word {
        index: u32,
    },
    Done,
}
