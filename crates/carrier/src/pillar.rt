// A pillar: a rectangle of rock.
ghost use Rattle.std.specs.Prelude.{◌≡◌};
ghost use Rattle.carrier.specs.Pillars.{covers};

// Its outermost columns and rows, which belong to it.
#[derive(Clone, Copy, PartialEq, Eq, Debug)]
pub struct Pillar {
    pub left: u32,
    pub top: u32,
    pub right: u32,
    pub bottom: u32,
}

impl Pillar {
    // Whether it covers the cell in a column and row; none, if its edges are crossed.
    pub fn covers(&self, column: u32, row: u32) -> bool
        ensures { result ≡ covers self.now column row }
    {
        (self.left..=self.right).contains(&column) && (self.top..=self.bottom).contains(&row)
    }
}
