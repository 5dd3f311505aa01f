//! Images of memory mapped values, versions 1 and 2 (mmv(5)). The grammar: header, contents, entries and their fields, each with one
//! definition and one reader. What is wrong with words that are no image: the first fault and its offset, by a walk for each
//! kind of fault. What an image says, by the addresses of its fields; the laws say what changes of an image keep its form.
#![tactic(auto)]

mod byte_laws;
mod contents;
mod entries;
mod entry_fields;
mod fault;
mod fault_laws;
mod fields;
mod first_fault;
mod header;
mod image;
mod indoms;
mod instances;
mod keys;
mod laws;
mod layout;
mod metrics;
mod names;
mod offsets;
mod rows;
mod sections;
mod sizes;
mod slot_table;
mod slots;
mod values;

pub use byte_laws::{number_holds_bytes, number_holds_halves, words_hold_bytes};
pub use entries::{metric_of, string_at, string_count, value_at, value_count};
pub use entry_fields::{extra_in_value, type_in_metric, value_in_value};
pub use fault::ImageFault;
pub use fault_laws::{images_are_good, lowest_offset};
pub use fields::{byte_at, text_at};
pub use header::first_generation;
pub use image::Image;
pub use laws::{
    form_is_said, generation_is_no_value, generation_keeps_the_form, has_generation_twice,
    length_keeps_the_form, length_keeps_the_layout, one_slot_each, says_one_layout,
    slot_holds_the_content, texts_are_the_forms, value_keeps_the_form, values_have_slots,
};
pub use rows::{Content, IndomRow, Layout, MetricRow, Slot, ValueRow};
pub use sizes::{
    ENTRY_SIZE, HEADER_SIZE, INDOM_SIZE, STRING_SIZE, VALUE_SIZE, has_inline_names, instance_size,
    is_version, metric_size, name_room, name_width,
};
pub use slot_table::SlotTable;
