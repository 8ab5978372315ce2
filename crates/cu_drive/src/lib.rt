//! Drives: each road of a walk with the second at which it is entered (`specs/Drives.antt`), and the forms in which walks are written.
//!
//! Whoever writes a walk, road by road, learns from a [`WalkForm`] what to write of each: its number alone ([`NumberAlone`]), or with
//! the second at which it is entered ([`WithSecond`]). So walks are found and written in one way, whatever is said of their roads
//! (`driven_text` in `specs/RoadTexts.antt`). [`RoadText`] is room for the text of one road. [`check_drive`] checks a line that asks for a
//! drive. A law, [`drives_go_on`], speaks of the definitions alone.
//!
//! It stands on `cu_model` for roads and numbers, on `cu_io` for sinks, and on `itoa` for digits.
#![tactic(auto)]

mod forms;
mod laws;
mod lines;
mod road_text;

pub use forms::{NumberAlone, WalkForm, WithSecond};
pub use laws::drives_go_on;
pub use lines::check_drive;
pub use road_text::RoadText;
