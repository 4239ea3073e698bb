// Lattices of numbered cells, and guides to a goal over them.
#![tactic(auto)]

ghost use Rattle.std.specs.Prelude.{◌≡◌, ℕ};
ghost use Rattle.model.specs.Lattice.{Lattice as Grid, Lawful, Guide as Aim, Guiding, lead, same_distance, plus};

pub mod aiming;
mod directions;
pub mod extent;
pub mod kings;
pub mod squares;
pub mod streets;

// Cells that are numbered from 0, with up to eight neighbours each, one in each direction.
//
// A direction is a number and no enum, by a rule of the project: every number has its answers.
pub trait Lattice {
    ghost grid: { Self → Grid };

    fn size(&self) -> u32
        ensures { result ≡ (grid self.now).size };

    fn beside(&self, cell: u32, direction: u8) -> Option<u32>
        ensures { result ≡ (grid self.now).beside cell direction };

    fn cost(&self, direction: u8) -> u8
        ensures { result ≡ (grid self.now).cost direction };

    fn opposite(&self, direction: u8) -> u8
        ensures { result ≡ (grid self.now).opposite direction };

    ghost lawful: { (l : Self) → Lawful (grid l) };
}

// A lattice with the distance of its cells to one goal.
pub trait Guide: Lattice {
    ghost aim: { Self → Aim };

    fn goal(&self) -> u32
        ensures { result ≡ (aim self.now).goal };

    fn distance(&self, cell: u32) -> Option<u32>
        ensures { result ≡ (aim self.now).distance cell };

    // The first direction whose neighbour is nearer by just the cost of the step, or 0.
    fn lead(&self, cell: u32) -> u8
        ensures { result ≡ lead (Self.Lattice.grid self.now) (aim self.now) cell }
    {
        let own = self.distance(cell);
        let leads = |direction: &u8| {
            let next = self.beside(cell, *direction);
            next.is_some_and(|next| is_sum(own, self.distance(next), self.cost(*direction)))
        };
        // Half open: a search through an inclusive range also asks at each step whether it is used up.
        (1..9).find(leads).unwrap_or(0)
    }

    ghost guiding: { (g : Self) → Guiding (Self.Lattice.grid g) (aim g) };
}

// A lattice that knows the distance from each of its cells to any goal.
pub trait Metric: Lattice {
    // the goal and the distances to it
    ghost towards: { Self → ℕ → Aim };

    fn distance_to(&self, goal: u32, cell: u32) -> Option<u32>
        ensures { result ≡ (towards self.now goal).distance cell };

    ghost aims: { (l : Self) (goal : ℕ) → (towards l goal).goal ≡ goal };

    ghost guides: { (l : Self) (goal : ℕ) → Guiding (Self.Lattice.grid l) (towards l goal) };
}

// Whether there are two distances and the first is the second with the cost added.
fn is_sum(own: Option<u32>, next: Option<u32>, cost: u8) -> bool
    ensures { result ≡ same_distance (plus next cost) own }
{
    match (own, next) {
        (Some(own), Some(next)) => next.checked_add(u32::from(cost)) == Some(own),
        _ => false,
    }
}
