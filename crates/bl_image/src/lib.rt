//! The image of a handoff: written to a sink, and read from a source.
#![tactic(auto)]

mod fault;
mod field_reader;
mod front;
mod front_reader;
mod ghost_history;
mod handoff_image;
mod head_reader;
mod image;
mod image_length;
mod io_sink;
mod io_source;
mod laws;
mod mem_sink;
mod mem_source;
mod part_reader;
mod part_writer;
mod places;
mod read;
mod record_reader;
mod register_numbers;
mod register_reader;
mod sink;
mod source;
mod value_writing;
mod version;
mod write;

pub use fault::ImageFault;
pub use front::{MAX_FRONT, front_bytes};
pub use front_reader::{Front, read_front};
pub use image::{Image, ImagePart};
pub use image_length::image_len;
pub use io_sink::IoSink;
pub use io_source::IoSource;
pub use laws::{
    fronts_are_those_of_images, image_tells_all, images_have_no_fault,
    what_has_no_fault_is_an_image,
};
pub use mem_sink::MemSink;
pub use mem_source::MemSource;
pub use places::Places;
pub use read::read_image;
pub use sink::{DeviceFault, Sink, write_all};
pub use source::Source;
pub use value_writing::write_value;
pub use version::Version;
pub use write::write_image;
