//! What comes of the mail from one sender: the windows of its log of which fragments were seen, and bodies put together of them.
//!
//! It stands on sr_base and sr_msgform; what fragments are true of is a definition of sr_mail_cut. An `Inbox` finds exactly the windows of which
//! every byte came, and `assemble` puts such a body together.
#![tactic(auto)]

mod assembling;
mod covering;
mod held;
mod inbox;
mod laws;
mod piece;
mod reach;
mod shelf;
mod window;

pub use assembling::assemble;
pub use inbox::Inbox;
pub use laws::{an_offset_is_far_step_by_step, true_fragments_make_the_body};
pub use piece::Piece;
pub use sr_mail_cut::{Cutter, Head, TooLong, body, cut, read_body};
pub use window::Window;
