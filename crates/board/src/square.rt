// The board: one record for each cell. Only this file knows how a record is laid out.
ghost use Rattle.std.specs.Prelude.{◌≡◌, slice_set};
ghost use Rattle.std.specs.List.{slice_get};
ghost use Rattle.std.specs.Option.{MatchOption};
ghost use Rattle.board.specs.declared.square.Square.{Square};
ghost use Rattle.board.specs.Board.{mark_at, pointer_at, paint_at, stage_at, with_mark, with_pointer, with_paint, with_stage, changed};

use model::Mark;

// A cell in one search: not reached, or waiting, or taken, with its measure and the cell that it was reached from.
#[derive(Clone, Copy)]
pub enum Stage<M> {
    Idle,
    Waiting(M, u32),
    Taken(M, u32),
}

// A cell's mark, its pointer (a direction, or 0), its paint (the number of a search),
// and its stage in the search of a number: in any other search the cell is idle.
#[derive(Clone, Copy)]
pub struct Square<M> {
    mark: Mark,
    pointer: u8,
    paint: u16,
    search: u16,
    stage: Stage<M>,
}

impl<M: Copy> Square<M> {
    // A cell that no search has reached.
    pub fn new(mark: Mark, pointer: u8) -> Square<M>
        ensures { result ≡ record { mark = mark; pointer = pointer; paint = 0; search = 0; stage = Stage.Idle } }
    {
        Square {
            mark,
            pointer,
            paint: 0,
            search: 0,
            stage: Stage::Idle,
        }
    }
}

// The record of a cell.
fn record_of<M: Copy>(board: &[Square<M>], cell: u32) -> Option<Square<M>>
    ensures { result ≡ slice_get board.now cell }
{
    board.get(cell as usize).copied()
}

// Puts a record in the place of a cell's; beyond the board nothing is written.
pub fn put<M: Copy>(board: &mut [Square<M>], cell: u32, square: Square<M>)
    ensures { board.new ≡ slice_set board.old cell square }
{
    // By index, since a proof knows no element of a slice after `get_mut`.
    let cell = cell as usize;
    if cell < board.len() {
        board[cell] = square;
    }
}

// Puts in the place of a cell's record what a closure makes of it; beyond the board nothing is written.
fn change<M: Copy, F: FnOnce(Square<M>) -> Square<M>>(board: &mut [Square<M>], cell: u32, by: F)
    requires { F.IsAlwaysCallable by }
    ensures { MatchOption (slice_get board.old cell) (board.new ≡ board.old) (λ x. (y : Square M) × F.post by x y × (board.new ≡ slice_set board.old cell y)) }
{
    if let Some(square) = record_of(board, cell) {
        put(board, cell, by(square));
    }
}

// The mark of a cell; what lies beyond the board is unseen.
pub fn mark<M: Copy>(board: &[Square<M>], cell: u32) -> Mark
    ensures { result ≡ mark_at board.now cell }
{
    record_of(board, cell).map_or(Mark::Unseen, |square| square.mark)
}

// The pointer of a cell; beyond the board there is none.
pub fn pointer<M: Copy>(board: &[Square<M>], cell: u32) -> u8
    ensures { result ≡ pointer_at board.now cell }
{
    record_of(board, cell).map_or(0, |square| square.pointer)
}

// The paint of a cell; what lies beyond the board is not painted.
pub fn paint<M: Copy>(board: &[Square<M>], cell: u32) -> u16
    ensures { result ≡ paint_at board.now cell }
{
    record_of(board, cell).map_or(0, |square| square.paint)
}

// The stage of a cell in the search of a number: a record that carries another number is idle, and so is what lies beyond the board.
pub fn stage_in<M: Copy>(board: &[Square<M>], cell: u32, search: u16) -> Stage<M>
    ensures { result ≡ stage_at search board.now cell }
{
    record_of(board, cell)
        .filter(|square| square.search == search)
        .map_or(Stage::Idle, |square| square.stage)
}

// Marks a cell of the board.
pub fn set_mark<M: Copy>(board: &mut [Square<M>], cell: u32, mark: Mark)
    ensures { board.new ≡ changed (with_mark mark) board.old cell }
{
    change(board, cell, |square| Square { mark, ..square });
}

// Sets the pointer of a cell of the board.
pub fn set_pointer<M: Copy>(board: &mut [Square<M>], cell: u32, pointer: u8)
    ensures { board.new ≡ changed (with_pointer pointer) board.old cell }
{
    change(board, cell, |square| Square { pointer, ..square });
}

// Paints a cell of the board with the number of a search.
pub fn set_paint<M: Copy>(board: &mut [Square<M>], cell: u32, paint: u16)
    ensures { board.new ≡ changed (with_paint paint) board.old cell }
{
    change(board, cell, |square| Square { paint, ..square });
}

// Sets the stage of a cell of the board in the search of a number.
pub fn set_stage<M: Copy>(board: &mut [Square<M>], cell: u32, search: u16, stage: Stage<M>)
    ensures { board.new ≡ changed (with_stage search stage) board.old cell }
{
    change(
        board,
        cell,
        |square| Square {
            search,
            stage,
            ..square
        },
    );
}
