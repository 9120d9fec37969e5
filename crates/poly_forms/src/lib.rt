//! Polynomials in one variable over the 128-bit elements, forms in many, and the names of draws and
//! checks.

#![tactic(auto)]

mod check_kind;
mod draw_kind;
mod evaluation;
mod form;
mod interpolation;
mod no_memory;
mod root_count;

pub use check_kind::CheckKind;
pub use draw_kind::DrawKind;
pub use evaluation::eval;
pub use form::{Form, Forms};
pub use interpolation::at;
pub use no_memory::NoMemory;
pub use root_count::roots_bound;
