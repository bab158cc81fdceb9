//! What the value of a property is.

ghost use Rattle.std.specs.Prelude.{◌≡◌, if◌then◌else◌};
ghost use Rattle.decimal_json.specs.Tree.{list};
ghost use Rattle.decimal_json.specs.View.{tree_of, trees};
ghost use Rattle.property_tables.specs.RowView.{row_seen};
ghost use Rattle.value_forms.specs.Forms.{form_of, is_expression, is_token_text, takes_literals_alone};
ghost use Rattle.value_forms.specs.declared.forms.Form.TheVariants.{Literal};

use decimal_json::Json;
use expr_syntax::operator_named;
use legacy_functions::has_tokens;
use property_tables::Row;

/// What the value of a property is, well formed or not.
#[derive(Clone, Copy, Debug, PartialEq, Eq)]
pub enum Form {
    /// A non-empty array whose first item is the name of an operator.
    Expression,
    /// An object.
    Function,
    /// A text with tokens, where the property takes them.
    TokenText,
    Literal,
}

/// The form of a value of a row. `visibility` takes a literal alone.
pub fn form_of(row: &Row, json: &Json) -> Form
    ensures { result ≡ form_of (row_seen row.now) (tree_of json.now) }
{
    if is_expression(json) {
        return unless_visibility(row, Form::Expression);
    }
    if json.is_object() {
        return unless_visibility(row, Form::Function);
    }
    if is_token_text(row, json) {
        return unless_visibility(row, Form::TokenText);
    }
    Form::Literal
}

// Most values are literals, of which the name of their row is not asked.
fn unless_visibility(row: &Row, form: Form) -> Form
    ensures { result ≡ if takes_literals_alone (row_seen row.now) then Literal else form }
{
    if row.name == "visibility" {
        Form::Literal
    } else {
        form
    }
}

fn is_expression(json: &Json) -> bool
    ensures { result ≡ is_expression (tree_of json.now) }
{
    match json {
        Json::List(items) => is_call(items.as_slice()),
        _ => false,
    }
}

fn is_call(items: &[Json]) -> bool
    ensures { result ≡ is_expression (list (trees items.now)) }
{
    match items {
        [Json::Text(name), ..] => operator_named(name.as_str()).is_some(),
        _ => false,
    }
}

fn is_token_text(row: &Row, json: &Json) -> bool
    ensures { result ≡ is_token_text (row_seen row.now) (tree_of json.now) }
{
    match json {
        Json::Text(text) => row.takes_tokens && has_tokens(text.as_str()),
        _ => false,
    }
}
