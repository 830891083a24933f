//! The terminal of a performance: its keys, the editor that they move, the picture that it shows, and the
//! pacer of the frames.
#![tactic(auto)]

mod around;
mod came;
mod cell;
mod editor;
mod flow;
mod forms;
mod help;
mod keys;
mod limits;
mod mouse;
mod names;
mod numbers;
mod overlay;
mod pacer;
mod painting;
mod picture;
mod pointer;
mod screen;
mod status;
mod strip;
mod strokes;
mod styles;
mod tables;
mod traffic;
mod view;
mod window;

pub use around::Around;
pub use came::{Came, HandRule};
pub use cell::{Cell, ScreenSize};
pub use editor::{Editor, Wish};
pub use flow::Flow;
pub use keys::{Deed, Key, Keys, Pending, Side};
pub use overlay::{Cursors, Overlay};
pub use pacer::Pacer;
pub use screen::Screen;
pub use status::StatusLine;
pub use strokes::Strokes;
pub use traffic::Traffic;
pub use view::View;
