//! What the definitions mean, each law on a function that does nothing.
ghost use Rattle.cell_sources.specs.CellLaws.{CellsMeanTheSame, ExpressionsDecideFilters, ExpressionsGiveValues};
ghost use Rattle.cell_sources.specs.CellLaws.{FiltersAreDecided, GlobalsChangeNoOther, PropertiesAreGiven};
ghost use Rattle.cell_sources.specs.CellLaws.{PropertiesAreReadByExpressions};

use eval_face::agreeing_worlds_give_one_meaning;
use global_laws::global_values_change_no_form;
use legacy_laws::{
    expressions_mean_their_filters, expressions_mean_their_functions,
    token_expressions_mean_their_texts,
};
use property_tables::tables_keep_their_rules;

/// In every world what is listed for a value of a row is what its expression gives: its value, or after a fault the
/// default. The expression mentions of the world what the value does.
pub fn expressions_give_values()
    ensures { ExpressionsGiveValues }
{
    expressions_mean_their_functions();
    token_expressions_mean_their_texts();
}

/// What is listed for each property of a layer is what its expression gives.
pub fn properties_are_given()
    ensures { PropertiesAreGiven }
{
    expressions_give_values();
    tables_keep_their_rules();
}

/// Each property of a layer is listed with each feature exactly where its expression reads the feature or its state.
pub fn properties_are_read_by_expressions()
    ensures { PropertiesAreReadByExpressions }
{
    expressions_give_values();
    tables_keep_their_rules();
}

/// In every world a feature passes where the expression of the filter is true.
pub fn expressions_decide_filters()
    ensures { ExpressionsDecideFilters }
{
    expressions_mean_their_filters();
}

/// In every scene the expression of a layer's filter says which features pass: of each feature, or of all by the cell
/// that serves all.
pub fn filters_are_decided()
    ensures { FiltersAreDecided }
{
    expressions_decide_filters();
    agreeing_worlds_give_one_meaning();
}

/// A cell means the same in two scenes, and for two features, that agree on what its expression mentions.
pub fn cells_mean_the_same()
    ensures { CellsMeanTheSame }
{
    agreeing_worlds_give_one_meaning();
}

/// Other values of the global state change no expression of an item but one that has a `global-state` node.
pub fn globals_change_no_other()
    ensures { GlobalsChangeNoOther }
{
    global_values_change_no_form();
}
