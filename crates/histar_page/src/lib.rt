//! The page of a session: one HTML text, made of the texts that other commands write of it.
//!
//! A page is a list of pieces: [`Markup`] is fixed text of the program, and everything else is escaped as
//! text.
#![tactic(auto)]

mod bands;
mod callers;
mod drawing;
mod edges;
mod escape;
mod files;
mod flows;
mod head;
mod jobs;
mod kind;
mod lines;
mod markup;
mod page;
mod piece;
mod places;
mod secrets;
mod session;
mod set_up;
mod story;
mod titles;
mod uses;
mod views;
mod who;

pub use callers::MOST_ALONE;
pub use escape::{bytes_are_read, escaped_is_text, push_escaped};
pub use kind::Kind;
pub use markup::Markup;
pub use page::{Texts, is_long, page_text, pages_nest};
pub use piece::Piece;
pub use places::{MOST_DRAWN_FILES, MOST_DRAWN_PROCESSES, nodes_are_apart};
pub use session::sessions_are_shown;
pub use uses::{MOST_FOLLOWED_PROCESSES, MOST_FOLLOWED_SECRETS};
