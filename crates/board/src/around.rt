// What a look does to the records around a cell.
ghost use Rattle.std.specs.Prelude.{◌≡◌, ◌≤◌, not};
ghost use Rattle.model.specs.Lattice.{is};
ghost use Rattle.model.specs.Plain.{is_rock_mark};
ghost use Rattle.board.specs.Board.{mark_at, pointer_at};
ghost use Rattle.board.specs.Around.{direction_bit, felt_mark_of, Remade, marked_by, cut_by, cut_towards, new_bits_of};

use crate::square::{Square, mark, pointer, set_mark, set_pointer};
use carrier::rocks::{Rocks, felt_at};
use floor::Lattice;
use model::Mark;

// The rock cells of a felt byte that are not yet marked as rock.
pub fn new_bits<L: Lattice, M: Copy>(lattice: &L, here: u32, felt: u8, board: &[Square<M>]) -> u8
    ensures { result ≡ new_bits_of (L.Lattice.grid lattice.now) here felt board.now }
{
    felt & felt_at(lattice, &Unmarked { board }, here)
}

// The cells that are not marked as rock.
#[derive(Drop)]
struct Unmarked<'a, M> {
    board: &'a [Square<M>],
}

impl<M: Copy> Rocks for Unmarked<'_, M> {
    ghost rock = { λ s a. not (is_rock_mark (mark_at s.board.now a)) };

    fn is_rock(&self, cell: u32) -> bool {
        mark(self.board, cell) != Mark::Rock
    }
}

// Cuts the pointers to the neighbours whose bits are set.
pub fn cut_around<L: Lattice, M: Copy>(lattice: &L, here: u32, rocks: u8, board: &mut [Square<M>])
    ensures { Remade (cut_by (L.Lattice.grid lattice.now) here rocks 8) board.old board.new }
{
    for direction in 1..=8 {
        if has_bit(rocks, direction) {
            if let Some(rock) = lattice.beside(here, direction) {
                cut_to(lattice, rock, board);
            }
        }
    }
}

// Cuts the pointers to a cell, which are its neighbours'.
fn cut_to<L: Lattice, M: Copy>(lattice: &L, rock: u32, board: &mut [Square<M>])
    ensures { Remade (cut_towards (L.Lattice.grid lattice.now) rock) board.old board.new }
{
    for direction in 1..=8 {
        if let Some(cell) = lattice.beside(rock, direction) {
            if points_to(lattice, board, cell, rock) {
                set_pointer(board, cell, 0);
            }
        }
    }
}

// Whether the pointer of a cell leads to another.
fn points_to<L: Lattice, M: Copy>(lattice: &L, board: &[Square<M>], cell: u32, to: u32) -> bool
    ensures { result ≡ is ((L.Lattice.grid lattice.now).beside cell (pointer_at board.now cell)) to }
{
    next(lattice, board, cell) == Some(to)
}

// Where the pointer of a cell leads.
pub fn next<L: Lattice, M: Copy>(lattice: &L, board: &[Square<M>], cell: u32) -> Option<u32>
    ensures { result ≡ (L.Lattice.grid lattice.now).beside cell (pointer_at board.now cell) }
{
    lattice.beside(cell, pointer(board, cell))
}

// Marks the neighbours of a cell, by the felt byte.
pub fn mark_around<L: Lattice, M: Copy>(lattice: &L, here: u32, felt: u8, board: &mut [Square<M>])
    ensures { Remade (marked_by (L.Lattice.grid lattice.now) here felt 8) board.old board.new }
{
    for direction in 1..=8 {
        if let Some(next) = lattice.beside(here, direction) {
            set_mark(board, next, felt_mark(felt, direction));
        }
    }
}

// The mark of the neighbour in a direction.
fn felt_mark(felt: u8, direction: u8) -> Mark
    requires at_least { 1 ≤ direction }
    requires at_most { direction ≤ 8 }
    ensures { result ≡ felt_mark_of (direction_bit felt direction) }
{
    if has_bit(felt, direction) {
        Mark::Rock
    } else {
        Mark::Passable
    }
}

// Whether the bit of a direction is set in a byte; a felt byte is read by shift and mask.
fn has_bit(byte: u8, direction: u8) -> bool
    requires at_least { 1 ≤ direction }
    requires at_most { direction ≤ 8 }
    ensures { result ≡ direction_bit byte direction }
{
    byte >> (direction - 1) & 1 == 1
}
