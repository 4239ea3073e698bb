// What drives over a lattice and feels the rock beside it.
#![tactic(auto)]

ghost use Rattle.std.specs.Prelude.{◌≡◌, ℕ, ◌<◌, true, false};
ghost use Rattle.model.specs.Ground.{Ground, feels, lands, can_step};

use floor::Lattice;

pub mod part;
pub mod pillar;
pub mod pillars;
pub mod rocks;
pub mod rover;
pub mod sheet;
#[cfg(test)]
mod tests;
pub mod unfit;

// What drives over a lattice of its own kind, feels the rock beside it, and stands on a passable cell.
pub trait Carrier {
    type Floor: Lattice;

    ghost floor: { Self → Self.Floor };

    ghost terrain: { Self → Ground };

    fn lattice(&self) -> Self::Floor
        ensures { result ≡ floor self.now };

    fn cell(&self) -> u32
        ensures { result ≡ (terrain self.now).at };

    fn feel(&self) -> u8
        ensures { result ≡ feels (Self.Floor.Lattice.grid (floor self.now)) (terrain self.now) };

    fn step(&mut self, direction: u8) -> bool
        ensures answers { result ≡ can_step (Self.Floor.Lattice.grid (floor self.old)) (terrain self.old) direction }
        ensures moves { terrain self.new ≡ lands (Self.Floor.Lattice.grid (floor self.old)) (terrain self.old) direction }
        ensures unmoved { result ≡ false → self.new ≡ self.old }
        ensures stays { floor self.new ≡ floor self.old };

    // Rock is a set of cells of the floor.
    ghost cells: { (c : Self) (a : ℕ) → (terrain c).rock a ≡ true → a < (Self.Floor.Lattice.grid (floor c)).size };

    ghost stands: { (c : Self) → ((terrain c).at < (Self.Floor.Lattice.grid (floor c)).size) × ((terrain c).rock (terrain c).at ≡ false) };
}
