//! Values by specifiers, which are numbered in the order in which they came.

mod numbered;
mod order;

pub use numbered::Numbered;
