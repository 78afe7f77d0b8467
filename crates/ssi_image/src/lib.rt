//! The image of a layout: its data set with each condition and body as code bytes.
//!
//! The layer above may rely on [`Image`], which is seen as the data set whose code it holds, and which is always well: its readers answer the fields of
//! the data set by a look-up each, and lend the code of a condition or a body. [`Image::assemble`] makes it of a data set and its code. It stands on
//! `ssi_identities` for the data set and for what code bytes mean.
#![tactic(auto)]

mod assembly;
mod image;
mod names;
mod packed;
mod pieces;
mod places;
mod readers;
mod tables;
mod wiring;

pub use image::Image;
pub use places::{BodyAt, CondAt};
