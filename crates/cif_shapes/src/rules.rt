// The rules of a list of cells.
ghost use Rattle.std.specs.Prelude.{◌≡◌, None, Some, get_or, map, slice_get, IfOk, IfSome, IsOk, IsSome};
ghost use Rattle.std.specs.List.{All};
ghost use Rattle.cif_defs.specs.Kinds.{role_of};
ghost use Rattle.cif_defs.specs.Fitted.{IsFitted};
ghost use Rattle.cif_shapes.specs.Shapes.{shape_of};
ghost use Rattle.cif_shapes.specs.CellRules.{FitsItsRule, KeepsShapes, StandsFor, rule_of, shape_at};

use crate::key::key_of;
use crate::rule::TaintRule;
use cif_bits::NoMemory;
use cif_defs::Role;
use cif_kinds::{Cell, table};
use std::alloc::Global;
use std::collections::BTreeMap;
use std::marker::Model;

/// The rule of each combinational cell of a list, where cells of one shape share one. Contracts see for each cell the
/// shape of its rule, or none.
#[derive(Drop)]
pub struct Rules {
    rules: Vec<TaintRule>,
    // For each cell the place of its rule, where it has one.
    places: Vec<Option<usize>>,
}

impl Model for Rules {
    ghost use Rattle.std.specs.Prelude.{List, Option, map};
    ghost use Rattle.cif_shapes.specs.declared.shape.Shape.{Shape};
    ghost use Rattle.cif_shapes.specs.CellRules.{shape_at};

    ghost Value = { List (Option Shape) };

    ghost view = { λ r. map (shape_at r.rules.items) r.places.items };
}

/// Rules in the making.
#[derive(Drop)]
struct Making {
    rules: Vec<TaintRule>,
    // The place of the latest rule of a key.
    latest: BTreeMap<u64, usize>,
}

impl Making {
    /// The place of the rule of a cell's shape, if it is the latest of its key. It takes no memory.
    fn known(&self, key: u64, cell: &Cell) -> Option<usize>
        requires { IsFitted cell.now }
        ensures { IfSome result (λ place. slice_get self.now.rules.items place ≡ Some (shape_of cell.now)) }
    {
        let place = *self.latest.get(&key)?;
        let rule = self.rules.get(place)?;
        if rule.is_of(cell) { Some(place) } else { None }
    }

    /// The place of the rule of a combinational cell, which is made where none of its shape is known.
    fn shared(&mut self, alloc: Global, cell: &Cell) -> Result<usize, NoMemory>
        requires role { role_of cell.now.kind ≡ Role.Combinational }
        requires fitted { IsFitted cell.now }
        ensures place { IfOk result
            (λ place. slice_get self.new.rules.items place ≡ Some (shape_of cell.now)) }
        ensures kept { IsOk result → KeepsShapes self.old.rules.items self.new.rules.items }
    {
        let key = key_of(cell);
        if let Some(place) = self.known(key, cell) {
            return Ok(place);
        }
        let place = self.rules.len();
        let rule = TaintRule::of(alloc, cell)?;
        self.rules.push(rule)?;
        self.latest.insert(key, place)?;
        Ok(place)
    }

    /// The place of the rule of a cell, where it has one.
    fn place(&mut self, alloc: Global, cell: &Cell) -> Result<Option<usize>, NoMemory>
        requires { FitsItsRule cell.now }
        ensures place { IfOk result
            (λ place. StandsFor self.new.rules.items place (rule_of cell.now)) }
        ensures kept { IsOk result → KeepsShapes self.old.rules.items self.new.rules.items }
    {
        match table::role(cell.kind()) {
            Role::Combinational => Ok(Some(self.shared(alloc, cell)?)),
            _ => Ok(None),
        }
    }

    /// The rules of cells whose rules have these places.
    fn finished(self, places: Vec<Option<usize>>) -> Rules
        ensures { result ≡ map (shape_at self.rules.items) places.items }
    {
        let rules = self.rules;
        Rules { rules, places }
    }
}

impl Rules {
    /// The rules of the combinational cells of a list. A rule is made for each shape, unless two shapes have one key; for
    /// a cell whose shape is known nothing but a number is stored. The only error is want of memory.
    pub fn of(alloc: Global, cells: &[Cell]) -> Result<Rules, NoMemory>
        requires { All FitsItsRule cells.now }
        ensures { IfOk result (λ r. r ≡ map rule_of cells.now) }
    {
        let mut making = Making {
            rules: Vec::new(alloc),
            latest: BTreeMap::new(alloc),
        };
        let mut places = Vec::with_capacity(alloc, cells.len())?;
        for i in 0..cells.len() {
            let cell = &cells[i];
            let place = making.place(alloc, cell)?;
            places.push(place)?;
        }
        Ok(making.finished(places))
    }

    /// The rule of a combinational cell, by its number in the list.
    pub fn of_cell(&self, number: usize) -> &TaintRule
        requires { IsSome (get_or self.now number None) }
        ensures { get_or self.now number None ≡ Some result.now }
    {
        match self.places[number] {
            Some(place) => &self.rules[place],
            None => unreachable!(),
        }
    }
}
