//! Kept values of cells over an evaluator.

ghost use Rattle.std.specs.Prelude.{◌≡◌, ℕ, ◌+◌, ◌<◌, ◌≤◌, length, if◌then◌else◌, Option, Some, None, is_some, true};
ghost use Rattle.std.specs.Prelude.{IfOk, IfSome, OnOk, OnErr, nat_eq};
ghost use Rattle.std.specs.Borrow.{sem};
ghost use Rattle.expr_nodes.specs.Evaluators.{nodes_at};
ghost use Rattle.layer_buckets.specs.Cells.{cell_eq, is_item};
ghost use Rattle.layer_buckets.specs.Lending.{LendsEvaluator};
ghost use Rattle.layer_buckets.specs.Outcomes.{outcome_owned, seen_outcome};
ghost use Rattle.layer_buckets.specs.Seen.{HasFeature, IsSound, evaluator_of, features_of, given_at, kept_at};
ghost use Rattle.layer_buckets.specs.Seen.{names_cell, refreshed, slot_in_source, source_of};
ghost use Rattle.layer_buckets.specs.Slotted.{slotted_at};
ghost use Rattle.layer_buckets.specs.declared.cell.Cell.{Cell};
ghost use Rattle.layer_buckets.specs.declared.cell.CellItem.{CellItem};

use crate::cell::{Cell, CellItem, Source, Stale};
use crate::table::CellTable;
use expr_nodes::{CountedEvaluator, Workspace};
use operator_rules::WorldView;
use operator_values::Halt;
use outside_io::Steps;
use prop_values::{EvalFault, Value};
use std::alloc::{AllocError, Global};
use std::sync::ledger::Ledger;

/// Values of cells, each evaluated once and kept until it is dropped.
///
/// What a view of a style has of its own is here: its kept values, their lists and its evaluator.
#[derive(Drop)]
pub struct Buckets<E: CountedEvaluator + Drop> {
    evaluator: E,
    table: CellTable,
}

impl<E: CountedEvaluator + Drop> Buckets<E> {
    /// No layers, over an evaluator.
    pub fn new(alloc: Global, evaluator: E) -> Result<Buckets<E>, AllocError>
        ensures sound { IfOk result (λ buckets. IsSound buckets) }
        ensures evaluator { IfOk result (λ buckets. evaluator_of buckets ≡ evaluator) }
        ensures kept { IfOk result (λ buckets. (cell : Cell) → kept_at buckets cell ≡ None) }
        ensures features { IfOk result (λ buckets. (layer : ℕ) → features_of buckets layer ≡ None) }
        ensures sources { IfOk result (λ buckets. (layer : ℕ) (item : CellItem) → source_of buckets layer item ≡ None) }
    {
        let table = CellTable::new(alloc)?;
        Ok(Buckets { evaluator, table })
    }

    /// Adds a layer with so many features and no source. Nothing else changes.
    pub fn add(&mut self, alloc: Global, layer: u32, features: u32) -> Result<(), AllocError>
        requires sound { IsSound self.old }
        requires absent { features_of self.old layer ≡ None }
        requires few { features < 4294967295 }
        ensures sound { IsSound self.new }
        ensures evaluator { evaluator_of self.new ≡ evaluator_of self.old }
        ensures sources { (l : ℕ) (i : CellItem) → source_of self.new l i ≡ source_of self.old l i }
        ensures kept { (cell : Cell) → kept_at self.new cell ≡ kept_at self.old cell }
        ensures ok { OnOk result ((l : ℕ) → features_of self.new l
            ≡ (if nat_eq l layer then Some features else features_of self.old l)) }
        ensures err { OnErr result ((l : ℕ) → features_of self.new l ≡ features_of self.old l) }
    {
        self.table.add(alloc, layer, features)
    }

    /// Gives an item of a layer a source, or another one, and drops the values of the item.
    pub fn set_source(
        &mut self,
        alloc: Global,
        layer: u32,
        source: &Source,
    ) -> Result<(), AllocError>
        requires sound { IsSound self.old }
        requires there { is_some (features_of self.old layer) ≡ true }
        ensures sound { IsSound self.new }
        ensures evaluator { evaluator_of self.new ≡ evaluator_of self.old }
        ensures features { (l : ℕ) → features_of self.new l ≡ features_of self.old l }
        ensures sources { OnOk result ((l : ℕ) (i : CellItem) → source_of self.new l i
            ≡ (if is_item layer source.now.item l i then Some source.now else source_of self.old l i)) }
        ensures kept { OnOk result ((cell : Cell) → kept_at self.new cell
            ≡ (if is_item layer source.now.item cell.layer cell.item then None else kept_at self.old cell)) }
        ensures err_sources { OnErr result ((l : ℕ) (i : CellItem) → source_of self.new l i ≡ source_of self.old l i) }
        ensures err_kept { OnErr result ((cell : Cell) → kept_at self.new cell ≡ kept_at self.old cell) }
    {
        self.table.set_source(alloc, layer, source)
    }

    /// Takes the source of an item away, and drops the values of the item.
    pub fn remove_source(&mut self, layer: u32, item: &CellItem)
        requires { IsSound self.old }
        ensures sound { IsSound self.new }
        ensures evaluator { evaluator_of self.new ≡ evaluator_of self.old }
        ensures sources { (l : ℕ) (i : CellItem) → source_of self.new l i
            ≡ (if is_item layer item.now l i then None else source_of self.old l i) }
        ensures features { (l : ℕ) → features_of self.new l ≡ features_of self.old l }
        ensures kept { (cell : Cell) → kept_at self.new cell
            ≡ (if is_item layer item.now cell.layer cell.item then None else kept_at self.old cell) }
    {
        self.table.remove_source(layer, *item);
    }

    /// Gives the source of an item, if it has one, another number in the evaluator. All else stays, and so does what is
    /// kept: the values are right as long as the evaluator has there what gave them.
    pub fn set_number(&mut self, layer: u32, item: &CellItem, number: u32)
        requires { IsSound self.old }
        ensures sound { IsSound self.new }
        ensures evaluator { evaluator_of self.new ≡ evaluator_of self.old }
        ensures sources { (l : ℕ) (i : CellItem) → source_of self.new l i
            ≡ slotted_at layer item.now number l i (source_of self.old l i) }
        ensures features { (l : ℕ) → features_of self.new l ≡ features_of self.old l }
        ensures kept { (cell : Cell) → kept_at self.new cell ≡ kept_at self.old cell }
    {
        self.table.set_number(layer, *item, number);
    }

    /// Takes a layer away, with its sources and its kept values.
    pub fn remove(&mut self, layer: u32)
        requires { IsSound self.old }
        ensures sound { IsSound self.new }
        ensures evaluator { evaluator_of self.new ≡ evaluator_of self.old }
        ensures sources { (l : ℕ) (i : CellItem) → source_of self.new l i
            ≡ (if nat_eq layer l then None else source_of self.old l i) }
        ensures features { (l : ℕ) → features_of self.new l
            ≡ (if nat_eq l layer then None else features_of self.old l) }
        ensures kept { (cell : Cell) → kept_at self.new cell
            ≡ (if nat_eq layer cell.layer then None else kept_at self.old cell) }
    {
        self.table.remove(layer);
    }

    /// The evaluator, to be changed. All else stays.
    pub fn evaluator(&mut self) -> &mut E
        ensures* lends { sem 𝓛 (LendsEvaluator E.row self.entry result) }
        ensures now { result.now ≡ evaluator_of self.old }
    {
        &mut self.evaluator
    }

    /// The evaluator, to be read.
    pub fn expressions(&self) -> &E
        ensures { result.now ≡ evaluator_of self.now }
    {
        &self.evaluator
    }

    /// How many features a layer has; none where it is not there.
    pub fn features(&self, layer: u32) -> Option<u32>
        ensures { result ≡ features_of self.now layer }
    {
        self.table.features(layer)
    }

    /// What gives the values of an item of a layer; none where it has no source.
    pub fn source(&self, layer: u32, item: CellItem) -> Option<Source>
        ensures { result ≡ source_of self.now layer item }
    {
        self.table.source(layer, item)
    }

    /// Whether no cell is kept, nor has been: one that was dropped leaves its room.
    pub fn is_bare(&self) -> bool
        ensures { result ≡ true → (cell : Cell) → kept_at self.now cell ≡ None }
    {
        self.table.is_bare()
    }

    /// The value of a kept cell, or its fault.
    pub fn value(&self, cell: &Cell) -> Option<Result<&Value, EvalFault>>
        requires { IsSound self.now }
        ensures { seen_outcome result ≡ kept_at self.now cell.now }
    {
        self.table.outcome(cell)
    }

    /// Keeps the value of a cell in a world, and how many evaluations that took: 0 where it was kept, else 1. The
    /// workspace is the memory of an evaluation, and any serves. Where an allocation fails, what was kept is kept.
    pub fn refresh<W: WorldView, L: Ledger>(
        &mut self,
        workspace: &mut Workspace,
        cell: &Cell,
        world: &W,
        steps: &mut Steps<L>,
    ) -> Result<u64, AllocError>
        requires sound { IsSound self.old }
        requires source { is_some (source_of self.old cell.now.layer cell.now.item) ≡ true }
        requires slot { slot_in_source (source_of self.old cell.now.layer cell.now.item)
            < length (E.slots (evaluator_of self.old)) }
        requires feature { HasFeature (features_of self.old cell.now.layer) cell.now.feature }
        ensures sound { IsSound self.new }
        ensures evaluator { evaluator_of self.new ≡ evaluator_of self.old }
        ensures sources { (layer : ℕ) (item : CellItem) →
            source_of self.new layer item ≡ source_of self.old layer item }
        ensures features { (layer : ℕ) → features_of self.new layer ≡ features_of self.old layer }
        ensures kept { OnOk result ((other : Cell) → kept_at self.new other ≡ (if cell_eq cell.now other
            then refreshed (kept_at self.old cell.now)
            (given_at (E.slots (evaluator_of self.old))
            (slot_in_source (source_of self.old cell.now.layer cell.now.item)) (W.world world.now))
            else kept_at self.old other)) }
        ensures err { OnErr result ((other : Cell) → kept_at self.new other ≡ kept_at self.old other) }
        ensures number { IfOk result (λ n. n ≡ (if is_some (kept_at self.old cell.now) then 0 else 1)) }
        ensures still { is_some (kept_at self.old cell.now) ≡ true → steps.new ≡ steps.old }
        ensures least { IfOk result (λ n. steps.old + n ≤ steps.new) }
        ensures most { steps.new ≤ steps.old + nodes_at (E.slots (evaluator_of self.old))
            (slot_in_source (source_of self.old cell.now.layer cell.now.item)) }
    {
        let place = self.table.place(cell);
        if self.table.is_kept(cell, place) {
            return Ok(0);
        }
        let Some(source) = self.table.source_at(cell, place) else {
            unreachable!()
        };
        self.table.make_place(cell, place)?;
        let outcome = outcome_of(&self.evaluator, workspace, source.slot, world, steps)?;
        self.table.keep(cell, place, outcome);
        Ok(1)
    }

    /// The value of an item of a layer in a world, or its fault, which is not kept. The workspace is the memory of an
    /// evaluation, and any serves.
    pub fn evaluate<W: WorldView, L: Ledger>(
        &self,
        workspace: &mut Workspace,
        source: &Source,
        world: &W,
        steps: &mut Steps<L>,
    ) -> Result<Result<Value, EvalFault>, AllocError>
        requires { source.now.slot < length (E.slots (evaluator_of self.now)) }
        ensures given { IfOk result
            (λ outcome. given_at (E.slots (evaluator_of self.now)) source.now.slot (W.world world.now)
            ≡ Some (outcome_owned outcome)) }
        ensures least { steps.old < steps.new }
        ensures most { steps.new ≤ steps.old + nodes_at (E.slots (evaluator_of self.now)) source.now.slot }
    {
        outcome_of(&self.evaluator, workspace, source.slot, world, steps)
    }

    /// Drops the values that a cause names, and no other.
    pub fn drop_cells(&mut self, stale: &Stale)
        requires { IsSound self.old }
        ensures sound { IsSound self.new }
        ensures evaluator { evaluator_of self.new ≡ evaluator_of self.old }
        ensures sources { (layer : ℕ) (item : CellItem) →
            source_of self.new layer item ≡ source_of self.old layer item }
        ensures features { (layer : ℕ) → features_of self.new layer ≡ features_of self.old layer }
        ensures kept { (cell : Cell) → kept_at self.new cell
            ≡ (if names_cell self.old stale.now cell then None else kept_at self.old cell) }
    {
        self.table.drop_cells(stale);
    }
}

// What an expression gives: a fault of the expression is an answer.
fn outcome_of<E: CountedEvaluator, W: WorldView, L: Ledger>(
    evaluator: &E,
    workspace: &mut Workspace,
    slot: u32,
    world: &W,
    steps: &mut Steps<L>,
) -> Result<Result<Value, EvalFault>, AllocError>
    requires { slot < length (E.slots evaluator.now) }
    ensures given { IfOk result (λ outcome.
        given_at (E.slots evaluator.now) slot (W.world world.now) ≡ Some (outcome_owned outcome)) }
    ensures least { steps.old < steps.new }
    ensures most { steps.new ≤ steps.old + nodes_at (E.slots evaluator.now) slot }
{
    match evaluator.evaluated(workspace, slot, world, steps) {
        Ok(value) => Ok(Ok(value)),
        Err(Halt::Fault(fault)) => Ok(Err(fault)),
        Err(Halt::NoMemory) => Err(AllocError),
    }
}
