// Where a walk arrived, and by how many failure moves.
#[derive(Clone, Copy)]
pub struct Walk {
    pub moves: usize,
    pub state: usize,
}
