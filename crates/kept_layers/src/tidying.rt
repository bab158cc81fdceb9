//! Expressions of items that were edited or removed leave the evaluator.

ghost use Rattle.std.specs.Prelude.{◌≡◌, length, OnOk};
ghost use Rattle.decimal_json.specs.View.{tree_of};
ghost use Rattle.layer_buckets.specs.Seen.{IsSound};
ghost use Rattle.asked_cells.specs.Expressions.{HasExpressions};
ghost use Rattle.cell_sources.specs.Sourced.{HasSources, KeepsNumbers, KeepsSources};
ghost use Rattle.kept_layers.specs.Changes.{IsOneLayer, globals_of};
ghost use Rattle.kept_layers.specs.Holding.{AreApart};
ghost use Rattle.kept_layers.specs.KeptLayers.{layer_expressions};
ghost use Rattle.kept_layers.specs.Tidying.{AreRenewed, Tidies};
ghost use Rattle.kept_layers.specs.View.{AreNumbered, HoldsLayers, IsPrepared, globals_in, tiles_in, trees_in};

use crate::kept_layers::KeptLayers;
use crate::style_layers::{OneLayer, StyleLayers};
use cell_sources::{clear_expressions, renew_sources};
use expr_nodes::CountedEvaluator;
use form_pool::FormPool;
use std::alloc::{AllocError, Global};

/// Up to so many expressions nothing is put anew.
const FEW: usize = 256;

impl KeptLayers {
    /// Puts the expressions of all items into an empty evaluator, where it has become more than twice as large as when
    /// it had no others, and has more of them than the style has layers. What is kept stays. Takes time linear in the
    /// style then, after as many new expressions as there were and 130 at least; and else constant time.
    pub(crate) fn tidy(&mut self, alloc: Global, style: &StyleLayers<'_>) -> Result<(), AllocError>
        requires numbered { AreNumbered self.old }
        requires prepared { IsPrepared style.now }
        requires holds { HoldsLayers ⟦<FormPool as CountedEvaluator>⟧.slots
            (tiles_in style.now) (globals_in style.now) (trees_in style.now) self.old }
        ensures { OnOk result (Tidies ⟦<FormPool as CountedEvaluator>⟧.slots
            (tiles_in style.now) (globals_in style.now) (trees_in style.now) self.old self.new) }
    {
        let count = self.cells.buckets.expressions().count();
        if count <= FEW || count <= self.numbers.len() || count / 2 <= self.tidy_count {
            return Ok(());
        }
        self.put_anew(alloc, style)?;
        self.tidy_count = self.cells.buckets.expressions().count();
        Ok(())
    }

    fn put_anew(&mut self, alloc: Global, style: &StyleLayers<'_>) -> Result<(), AllocError>
        requires sound { IsSound self.old.cells.buckets }
        requires apart { AreApart self.old.numbers.items }
        requires prepared { IsPrepared style.now }
        requires counted { length self.old.numbers.items ≡ length (trees_in style.now) }
        ensures numbers { self.new.numbers ≡ self.old.numbers }
        ensures reads { self.new.reads_globals ≡ self.old.reads_globals }
        ensures states { self.new.state_places ≡ self.old.state_places }
        ensures sound { IsSound self.new.cells.buckets }
        ensures sources { KeepsSources self.old.cells.buckets self.new.cells.buckets }
        ensures renewed { OnOk result (AreRenewed ⟦<FormPool as CountedEvaluator>⟧.slots (globals_in style.now)
            self.old.numbers.items (trees_in style.now) (length self.old.numbers.items)
            self.old.cells.buckets self.new.cells.buckets) }
    {
        clear_expressions(alloc, &mut self.cells.buckets);
        for place in 0..self.numbers.len() {
            let one = style.one(place);
            let number = self.numbers[place];
            self.renew_layer(alloc, number, &one)?;
        }
        Ok(())
    }

    fn renew_layer(
        &mut self,
        alloc: Global,
        number: u32,
        one: &OneLayer<'_>,
    ) -> Result<(), AllocError>
        requires sound { IsSound self.old.cells.buckets }
        requires layer { IsOneLayer one.now }
        ensures numbers { self.new.numbers ≡ self.old.numbers }
        ensures reads { self.new.reads_globals ≡ self.old.reads_globals }
        ensures states { self.new.state_places ≡ self.old.state_places }
        ensures sound { IsSound self.new.cells.buckets }
        ensures sources { KeepsSources self.old.cells.buckets self.new.cells.buckets }
        ensures others { KeepsNumbers ⟦<FormPool as CountedEvaluator>⟧.slots number
            self.old.cells.buckets self.new.cells.buckets }
        ensures renewed { OnOk result (
            HasSources number (layer_expressions (globals_of one.now) (tree_of one.now.layer.now))
            self.old.cells.buckets
            → HasExpressions ⟦<FormPool as CountedEvaluator>⟧.slots number
            (layer_expressions (globals_of one.now) (tree_of one.now.layer.now)) self.new.cells.buckets) }
    {
        let values = one.values();
        renew_sources(alloc, number, &values, &mut self.cells.buckets)
    }
}
