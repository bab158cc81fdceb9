//! Calls of `prop_values` on colors.

use color_values::read_color;
use prop_values::{PackedColor, Value, Values, to_text};
use std::test::Fail;

// Within a list a color is a text. No value of the program is such a list.
#[test]
fn texts_of_colors(rt: HostRuntime) -> Result<(), Fail> {
    let Some(color) = read_color("rgba(0,0,0,0.5)") else {
        return Err(Fail::new("no color"));
    };
    let mut values = Values::new(rt.alloc());
    values.push(Value::Color(PackedColor::of(&color)))?;
    let text = to_text(rt.alloc(), &Value::List(values))?;
    assert!(rt; text.as_str() == "[\"rgba(0,0,0,0.5)\"]");
    Ok(())
}
