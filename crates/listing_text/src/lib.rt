//! What a style shows at a zoom, and its text, line by line.
//!
//! ```text
//! write_zoom(zoom, &mut out)?;                                         // zoom 12.24
//! write_layer_line("place", LayerType::Symbol, Show::Plain, &mut out)?;   // layer "place" symbol
//! write_value(b"  ", "text-size", &size, &mut out)?;                   //   text-size 16
//! write_feature_line(0, Shape::Point, Some(3), &mut out)?;             //   feature 0 Point id 3
//! write_value(b"    ", "text-field", &name, &mut out)?;                //     text-field "Oslo"
//! write_end(&mut out)?;                                                // end
//! ```
//!
//! What is promised: each call appends exactly its line of the listing that `specs/Listing.antt` defines, and
//! when allocation fails a prefix of it. A property has its value; where its evaluation faulted, its default
//! or `null`, then `!` and the name of the fault; and `?` where it is outside of what is evaluated. Whoever
//! writes a whole layout goes by `listing`.
//!
//! Time is linear in the line. No memory is taken except that of `out`, and for each list or map a copy of
//! its text.
//!
//! The text to believe is in `specs/`: `Layout`, `Listing`.
#![tactic(auto)]

mod show;
mod writing;

pub use show::Show;
pub use writing::{
    write_end, write_feature_line, write_given, write_layer_line, write_value, write_zoom,
};
