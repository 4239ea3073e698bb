// The eight directions, those of them that are used, and the ways they go.
ghost use Rattle.std.specs.Prelude.{◌≡◌, ◌&&◌, ◌<◌};
ghost use Rattle.model.specs.Floors.{used, odd, shifted, facing as opposite_of, column_way as between_columns, row_way as between_rows};
ghost use Rattle.floor.specs.Squares.{meant};

pub(crate) fn is_direction(direction: u8) -> bool
    ensures { result ≡ used direction }
{
    (1..=8).contains(&direction)
}

// Directions 1, 3, 5 and 7 change the column or the row, and not both.
pub(crate) fn is_straight(direction: u8) -> bool
    ensures { result ≡ (used direction && odd direction) }
{
    is_direction(direction) && direction % 2 == 1
}

// The direction half way round.
pub(crate) fn facing(direction: u8) -> u8
    ensures { result ≡ opposite_of direction }
{
    if direction <= 4 {
        direction + 4
    } else {
        direction - 4
    }
}

// Which way a column or a row goes: to the next one, to the one before, or neither.
pub(crate) enum Way {
    Up,
    Same,
    Down,
}

impl Way {
    // The number below `end` to which this way leads, if there is one.
    pub(crate) fn shift(self, number: u32, end: u32) -> Option<u32>
        requires { number < end }
        ensures { result ≡ shifted (meant self) end number }
    {
        match self {
            Way::Up => Some(number + 1).filter(|next| *next < end),
            Way::Same => Some(number),
            Way::Down => number.checked_sub(1),
        }
    }
}

// Which way a direction goes between columns.
pub(crate) fn column_way(direction: u8) -> Way
    ensures { meant result ≡ between_columns direction }
{
    match direction {
        1 | 2 | 8 => Way::Up,
        4 | 5 | 6 => Way::Down,
        _ => Way::Same,
    }
}

// Which way a direction goes between rows.
pub(crate) fn row_way(direction: u8) -> Way
    ensures { meant result ≡ between_rows direction }
{
    match direction {
        2 | 3 | 4 => Way::Up,
        6 | 7 | 8 => Way::Down,
        _ => Way::Same,
    }
}
