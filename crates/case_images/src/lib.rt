//! Words of a book of cases for images of memory mapped values (mmv(5)): calls of an image, and changed images.
#![tactic(auto)]

mod hostile;
mod images;

pub use images::tell_image;
