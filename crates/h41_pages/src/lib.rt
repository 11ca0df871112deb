//! The pages of the HP-41's address space: images of 4,096 words that are plugged, read and written, their bytes as
//! files contain them, and the functions of modules.
#![tactic(auto)]

mod address_space;
mod addresses;
mod banks;
mod functions;
mod image;
mod image_bytes;
mod keystrokes;
pub mod laws;
mod name;
mod pages;
mod refusal;

pub use addresses::{FIRST_ADDRESS, PAGE_WORDS, offset_of, page_of};
pub use functions::{Entry, ModuleFunction};
pub use image_bytes::{image_read, is_image_bytes};
pub use name::Name;
pub use pages::Pages;
pub use refusal::{FetchRefusal, ImageRefusal, PlugRefusal, ReadOnly, ReadRefusal, UnplugRefusal};
