//! What a gateway's port answers to a plain request of HTTP, as bytes: what is asked, which file it names, the answer, and figures.
#![tactic(auto)]

mod answers;
mod asking;
mod cutting;
mod figures;
mod kinds;
pub mod laws;
mod places;

pub use answers::{Page, Refusal, etag_of, push_page, push_refusal};
pub use asking::{Ask, Wish, asked};
pub use figures::{Bucket, Label, Metric, push_counter, push_gauge, push_histogram, push_sample};
pub use kinds::{FIGURES_KIND, kind_of};
pub use places::place_of;
