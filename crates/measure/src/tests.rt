// The queue over a measure of another's making.
ghost use Rattle.std.specs.Prelude.{◌*◌, ◌≤◌};
ghost use Rattle.model.specs.Measures.{length_scale};
ghost use Rattle.std.proofs.Common.{rules};

use crate::Measure;
use crate::queue::{Entry, pop, push};
use std::test::Fail;

// A length with the count of its steps, which takes no part in comparing: no order of the type, and equal values that differ.
#[derive(Clone, Copy, PartialEq, Eq)]
struct Counted {
    sum: u32,
    steps: u8,
}

impl Measure for Counted {
    ghost scale = { length_scale };

    ghost value = { λ m. m.sum };

    ghost kept = { λ m n. m.sum ≤ 7 * n };

    ghost ordered = { Prim.search rules };

    fn zero() -> Counted {
        Counted { sum: 0, steps: 0 }
    }

    fn extend(self, cost: u8, _unseen: bool) -> Counted {
        Counted {
            sum: self.sum.saturating_add(u32::from(cost)),
            steps: self.steps.saturating_add(1),
        }
    }

    fn at_most(&self, other: &Counted) -> bool {
        self.sum <= other.sum
    }

    fn shown(&self) -> (u32, u32) {
        (0, self.sum)
    }
}

#[test]
fn a_measure_needs_no_order_of_its_type(rt: HostRuntime) -> Result<(), Fail> {
    let far = Entry {
        value: Counted::zero().extend(6, false),
        cell: 7,
    };
    let same = Entry {
        value: Counted::zero().extend(3, false).extend(3, false),
        cell: 4,
    };
    let mut queue = [far; 2];
    let count = push(&mut queue, 0, far).ok_or("full")?;
    let count = push(&mut queue, count, same).ok_or("full")?;
    let (least, _) = pop(&mut queue, count).ok_or("empty")?;
    assert_eq!(rt; (least.cell, least.value.steps), (4, 2));
    Ok(())
}
