//! A start of the program: the images that its words name, opened or checked, and the lines that are said where words or an image are at
//! fault.
#![tactic(auto)]

pub use check::{Checked, Found};
pub use dot_segments::warn;
pub use held::{Held, Images};
pub use holding::Holding;
pub use opening::{OpenedImages, Opening, open_images, read_folder, read_list, read_manifest};
pub use reason::Reason;
pub use rooms::warn_of_room;
pub use stop::{Stop, report_end};
pub use stored::Stored;
pub use touching::touch;
pub use unfit::{Unfit, report_unfit};
pub use versions::read_versions;
pub use wrong::{Origins, report_fault};

pub mod check;
pub mod dot_segments;
pub mod held;
pub mod holding;
mod name;
pub mod opening;
pub mod reason;
pub mod rooms;
mod sample;
pub mod stop;
pub mod stored;
pub mod touching;
pub mod unfit;
pub mod versions;
pub mod wrong;
