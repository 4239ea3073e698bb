// The extent of a floor of square cells: its columns, its rows, and the cells beside a cell.
//
// The cell in column c and row r has the number r * width + c. Direction 1 leads to the next column,
// 3 to the next row, 5 and 7 lead back, and each even direction is the two beside it at once.
ghost use Rattle.std.specs.Prelude.{◌≡◌, ◌*◌, ◌/◌, ◌%◌, ◌<◌, ◌≤◌};
ghost use Rattle.std.specs.Option.{option_map};
ghost use Rattle.model.specs.Floors.{floor_beside};
ghost use Rattle.floor.specs.Sizes.{Made, fault_number};
ghost use Rattle.floor.specs.Between.{differences as differences_of};

use crate::directions::{column_way, row_way};

const LONGEST: u32 = 64;

#[derive(Clone, Copy, Debug, PartialEq, Eq)]
pub struct Extent {
    pub width: u32,
    pub height: u32,
    ghost sized: { (1 ≤ width) × (width ≤ 64) × (1 ≤ height) × (height ≤ 64) },
}

// How many columns and how many rows two cells are apart.
#[derive(Clone, Copy, Debug, PartialEq, Eq)]
pub struct Apart {
    pub columns: u32,
    pub rows: u32,
    ghost small: { (columns < 64) × (rows < 64) },
}

// Which of width and height is not from 1 to 64.
#[derive(Clone, Copy, Debug, PartialEq, Eq)]
pub enum SizeFault {
    Width,
    Height,
}

impl SizeFault {
    // Both have one number.
    pub fn number(self) -> u8
        ensures { result ≡ fault_number self }
    {
        match self {
            SizeFault::Width | SizeFault::Height => 1,
        }
    }
}

impl Extent {
    pub fn new(width: u32, height: u32) -> Result<Extent, SizeFault>
        ensures { Made width height result (λ e. (e.width ≡ width) × (e.height ≡ height)) }
    {
        if !(1..=LONGEST).contains(&width) {
            return Err(SizeFault::Width);
        }
        if !(1..=LONGEST).contains(&height) {
            return Err(SizeFault::Height);
        }
        Ok(Extent { width, height })
    }

    // How many cells there are.
    pub fn size(&self) -> u32
        ensures { result ≡ self.now.width * self.now.height }
    {
        self.width * self.height
    }

    pub fn column(&self, cell: u32) -> u32
        ensures { result ≡ cell % self.now.width }
    {
        cell % self.width
    }

    pub fn row(&self, cell: u32) -> u32
        ensures { result ≡ cell / self.now.width }
    {
        cell / self.width
    }

    // The neighbour of a cell, or `None` across the edge and from a number that is no cell.
    pub fn beside(&self, cell: u32, direction: u8) -> Option<u32>
        ensures { result ≡ floor_beside self.now.width self.now.height cell direction }
    {
        if cell >= self.size() {
            return None;
        }
        // Both are taken apart before either is shifted, so that a compiled loop over the directions divides once for all.
        let (column, row) = (self.column(cell), self.row(cell));
        let column = column_way(direction).shift(column, self.width)?;
        let row = row_way(direction).shift(row, self.height)?;
        Some(row * self.width + column)
    }

    // The differences of columns and of rows, or `None` where one of the two is no cell.
    pub fn differences(&self, a: u32, b: u32) -> Option<Apart>
        ensures { option_map (λ d. (d.columns, d.rows)) result ≡ differences_of self.now.width self.now.height a b }
    {
        let size = self.size();
        if a >= size || b >= size {
            return None;
        }
        let columns = self.column(a).abs_diff(self.column(b));
        let rows = self.row(a).abs_diff(self.row(b));
        Some(Apart { columns, rows })
    }
}
