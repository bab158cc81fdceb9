//! The evaluator.

ghost use Rattle.std.specs.Prelude.{◌≡◌, ◌+◌, ◌<◌, ◌≤◌, [], ◌++◌, ◌∷◌, length, map, vec_capacity, IfOk, OnErr, OnOk};
ghost use Rattle.eval_face.specs.World.{no_feature};
ghost use Rattle.operator_values.specs.Evaluated.{GivesValue};
ghost use Rattle.expr_nodes.specs.Evaluators.{sized_node};
ghost use Rattle.form_pool.specs.LegacyForms.{IsReadForm, sized_form};
ghost use Rattle.form_pool.specs.Pooled.{AreFaithful, IsFaithful, IsFeatureIn, NodesAreThere, faithful_prop};

use crate::legacy_form::LegacyForm;
use expr_nodes::{BoxedExpression, CountedEvaluator, Workspace};
use legacy_laws::{
    expressions_mean_their_filters, expressions_mean_their_functions,
    token_expressions_mean_their_texts,
};
use node_pool::Pool;
use operator_rules::WorldView;
use operator_values::Halt;
use outside_io::Steps;
use prop_values::Value;
use std::alloc::{AllocError, Global};
use std::sync::ledger::Ledger;
use tile_reader::{Feature, FeatureId, FeatureProperties, Shape};

/// Expressions and legacy forms by their numbers.
#[derive(Drop)]
pub struct FormPool {
    alloc: Global,
    nodes: Pool,
    slots: Vec<PooledForm>,
    /// What a legacy form is evaluated on in a world without a feature.
    bare: Feature,
    ghost there: { NodesAreThere (length (map sized_node nodes)) slots.items },
    ghost faithful: { AreFaithful slots.items } by { faithful_prop slots.items },
    ghost bare_is: { bare ≡ no_feature },
}

/// What a number represents.
#[derive(Drop)]
enum PooledForm {
    /// The expression of a number of the nodes.
    Nodes(u32),
    Legacy(LegacyForm),
}

impl FormPool {
    /// Nothing, which takes no memory.
    pub fn new(alloc: Global) -> FormPool
        ensures { ⟦<FormPool as CountedEvaluator>⟧.slots result ≡ [] }
    {
        FormPool {
            alloc,
            nodes: Pool::new(alloc),
            slots: Vec::new(alloc),
            bare: Feature {
                id: FeatureId::of(None),
                shape: Shape::Unknown,
                properties: FeatureProperties::none(),
            },
        }
    }

    /// Adds an expression after what is there, and gives its number. One beyond `u32::MAX` is refused as a failed
    /// allocation is.
    pub fn put(&mut self, expression: BoxedExpression) -> Result<u32, AllocError>
        ensures slot { IfOk result (λ slot. slot ≡ length (⟦<FormPool as CountedEvaluator>⟧.slots self.old)) }
        ensures ok { OnOk result (⟦<FormPool as CountedEvaluator>⟧.slots self.new
            ≡ ⟦<FormPool as CountedEvaluator>⟧.slots self.old ++ sized_node expression ∷ []) }
        ensures err { OnErr result (⟦<FormPool as CountedEvaluator>⟧.slots self.new
            ≡ ⟦<FormPool as CountedEvaluator>⟧.slots self.old) }
    {
        let slot = self.next_slot()?;
        let number = self.nodes.put(expression)?;
        self.slots.push_reserved(PooledForm::Nodes(number));
        Ok(slot)
    }

    /// Adds a legacy form that was read after what is there, and gives its number. One beyond `u32::MAX` is refused as
    /// a failed allocation is.
    pub fn put_legacy(&mut self, form: LegacyForm) -> Result<u32, AllocError>
        requires { IsReadForm form }
        ensures slot { IfOk result (λ slot. slot ≡ length (⟦<FormPool as CountedEvaluator>⟧.slots self.old)) }
        ensures ok { OnOk result (⟦<FormPool as CountedEvaluator>⟧.slots self.new
            ≡ ⟦<FormPool as CountedEvaluator>⟧.slots self.old ++ sized_form form ∷ []) }
        ensures err { OnErr result (⟦<FormPool as CountedEvaluator>⟧.slots self.new
            ≡ ⟦<FormPool as CountedEvaluator>⟧.slots self.old) }
    {
        expressions_mean_their_functions();
        token_expressions_mean_their_texts();
        expressions_mean_their_filters();
        let slot = self.next_slot()?;
        self.slots.push_reserved(PooledForm::Legacy(form));
        Ok(slot)
    }

    /// How many expressions and legacy forms there are.
    pub fn count(&self) -> usize
        ensures { result ≡ length (⟦<FormPool as CountedEvaluator>⟧.slots self.now) }
    {
        self.slots.len()
    }

    // The number of what is added next, for which room is made.
    fn next_slot(&mut self) -> Result<u32, AllocError>
        ensures nodes { self.new.nodes ≡ self.old.nodes }
        ensures slots { self.new.slots.items ≡ self.old.slots.items }
        ensures slot { IfOk result (λ slot. slot ≡ length self.old.slots.items) }
        ensures room { OnOk result (length self.new.slots.items < vec_capacity self.new.slots) }
    {
        let Ok(slot) = u32::try_from(self.slots.len()) else {
            return Err(AllocError);
        };
        self.slots.reserve(1)?;
        Ok(slot)
    }

    // What a legacy form gives in a world, in one step.
    #[tactic(auto, using(crate::proofs::FormLaws::gives_in))]
    fn legacy_value<W: WorldView, L: Ledger>(
        &self,
        form: &LegacyForm,
        world: &W,
        steps: &mut Steps<L>,
    ) -> Result<Value, Halt>
        requires { IsFaithful form.now }
        ensures meaning { GivesValue result ((sized_form form.now).0 (W.world world.now)) }
        ensures least { steps.old < steps.new }
        ensures most { steps.new ≤ steps.old + (sized_form form.now).1 }
    {
        steps.tick();
        let feature = self.feature_of(world);
        form.value(self.alloc, world.zoom(), feature)
    }

    // The feature of a world, or one without anything.
    fn feature_of<'a, W: WorldView>(&'a self, world: &'a W) -> &'a Feature
        ensures { IsFeatureIn (W.world world.now) result.now }
    {
        match world.feature() {
            Some(feature) => feature,
            None => &self.bare,
        }
    }
}

impl CountedEvaluator for FormPool {
    ghost use Rattle.std.specs.Prelude.{map};
    ghost use Rattle.expr_nodes.specs.Evaluators.{sized_node};
    ghost use Rattle.form_pool.specs.Pooled.{sized_slot};

    ghost slots = { λ s. map (sized_slot (map sized_node s.nodes)) s.slots.items };

    fn evaluated<W: WorldView, L: Ledger>(
        &self,
        workspace: &mut Workspace,
        slot: u32,
        world: &W,
        steps: &mut Steps<L>,
    ) -> Result<Value, Halt> {
        match &self.slots[slot as usize] {
            PooledForm::Nodes(number) => self.nodes.evaluated(workspace, *number, world, steps),
            PooledForm::Legacy(form) => self.legacy_value(form, world, steps),
        }
    }
}
