// What a search keeps besides the board and the queue.

// A walk along the pointers, from a taken cell and now at another.
#[derive(Clone, Copy, PartialEq, Eq, Debug)]
pub struct Walk {
    pub taken: u32,
    pub at: u32,
}

// How a search ends: joined with the two numbers of the way back's measure, or shut.
// No `Option`, since `None` says of a step already that the search goes on.
#[derive(Clone, Copy, PartialEq, Eq, Debug)]
pub enum Outcome {
    Joined(u32, u32),
    Shut,
}

// The number of the search that was begun last, how many entries of the queue are in use, and the walk that is under way.
#[derive(Clone, Copy)]
pub struct Search {
    pub number: u16,
    pub waiting: usize,
    pub walk: Option<Walk>,
}
