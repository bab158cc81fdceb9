ghost use Rattle.std.specs.Prelude.{◌≡◌, ◌++◌, OnOk, IfOk};
ghost use Rattle.std.specs.String.{string_bytes};
ghost use Rattle.prop_values.specs.Data.{text};
ghost use Rattle.prop_values.specs.ValueText.{shown_text};
ghost use Rattle.prop_values.specs.View.{data_of};
ghost use Rattle.prop_values.specs.ViewParts.{values_view};
ghost use Rattle.operator_values.specs.Texts.{joined};

use decimal_json::Text;
use prop_values::{Value, to_text};
use std::alloc::{AllocError, Global};

/// `concat`: the texts of the values joined (`to_text`).
pub fn concat(alloc: Global, values: &[Value]) -> Result<Value, AllocError>
    ensures { IfOk result (λ value. data_of value ≡ text (joined (values_view values.now))) }
{
    let mut texts = String::new(alloc);
    for value in values {
        push_text(alloc, value, &mut texts)?;
    }
    Ok(Value::Text(Text::of(texts)?))
}

// Only what is no text has one made.
fn push_text(alloc: Global, value: &Value, texts: &mut String) -> Result<(), AllocError>
    ensures { OnOk result (string_bytes texts.new ≡ string_bytes texts.old ++ shown_text (data_of value.now)) }
{
    match value {
        Value::Text(text) => texts.push_str(text.as_str()),
        _ => {
            let text = to_text(alloc, value)?;
            texts.push_str(text.as_str())
        }
    }
}
