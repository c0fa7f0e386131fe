// Plans: which cells each part owns, which it evaluates, and of which it needs what they store.
ghost use Rattle.std.specs.Prelude.{◌≡◌, ◌<◌, ◌≤◌, [], get_or, map, vec_len};
ghost use Rattle.cif_pieces.specs.Plans.{IsCounted};
ghost use Rattle.cif_pieces.specs.PlanView.{owned_by, evaluated_by, passing_by, needed_by};

use std::marker::Model;

/// The cells of one part, by their numbers.
#[derive(Debug, Drop)]
pub struct PartCells {
    /// Those that the part owns.
    pub owned: Vec<u32>,
    /// Those that it evaluates, the owned ones among them.
    pub evaluated: Vec<u32>,
    /// The passing ones among these, in the order of evaluation.
    pub passing: Vec<u32>,
    /// Those of which it needs what they store: the registers and memories that it evaluates, and the registers without
    /// asynchronous reset that its evaluated cells read.
    pub needed: Vec<u32>,
}

/// For each of 1 to 64 parts the cells that it owns, those that it evaluates, the passing ones among these, and those of
/// which it needs what they store.
#[derive(Debug, Drop)]
pub struct Plan {
    parts: Vec<PartCells>,
}

impl Model for Plan {
    ghost use Rattle.cif_pieces.specs.Plans.{PlanOf};

    ghost Value = { PlanOf };

    ghost use Rattle.cif_pieces.specs.PlanView.{plan_seen, HoldsPlan};

    ghost view = { plan_seen };

    ghost invariant = { HoldsPlan };
}

impl Plan {
    /// The plan of these parts, of which there are 1 to 64. It takes no memory.
    pub fn of(parts: Vec<PartCells>) -> Plan
        requires some { 0 < vec_len parts }
        requires few { vec_len parts ≤ 64 }
        ensures parts { result.parts ≡ vec_len parts }
        ensures owned { result.owned ≡ map owned_by parts.items }
        ensures evaluated { result.evaluated ≡ map evaluated_by parts.items }
        ensures passing { result.passing ≡ map passing_by parts.items }
        ensures needed { result.needed ≡ map needed_by parts.items }
    {
        Plan { parts }
    }

    /// How many parts there are, from 1 to 64.
    pub fn parts(&self) -> u32
        ensures is { result ≡ self.now.parts }
        ensures counted { IsCounted self.now }
    {
        self.parts.len() as u32
    }

    /// The cells that a part owns.
    pub fn owned(&self, part: u32) -> &[u32]
        requires { part < self.now.parts }
        ensures { result.now ≡ get_or self.now.owned part [] }
    {
        &self.parts[part as usize].owned
    }

    /// The cells that a part evaluates.
    pub fn part(&self, part: u32) -> &[u32]
        requires { part < self.now.parts }
        ensures { result.now ≡ get_or self.now.evaluated part [] }
    {
        &self.parts[part as usize].evaluated
    }

    /// The passing cells that a part evaluates, in the order of evaluation.
    pub fn passing(&self, part: u32) -> &[u32]
        requires { part < self.now.parts }
        ensures { result.now ≡ get_or self.now.passing part [] }
    {
        &self.parts[part as usize].passing
    }

    /// The cells of which a part needs what they store: the registers and memories that it evaluates, and the registers
    /// without asynchronous reset that its evaluated cells read.
    pub fn needed(&self, part: u32) -> &[u32]
        requires { part < self.now.parts }
        ensures { result.now ≡ get_or self.now.needed part [] }
    {
        &self.parts[part as usize].needed
    }
}
