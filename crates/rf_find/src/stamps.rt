//! Which cells rest for some moves before they are taken again.

use crate::world::World;
use rf_base::NoMemory;
use std::alloc::Global;

/// For each class until which move one of its cells isn't taken again.
#[derive(Drop)]
pub struct Stamps {
    moves: Vec<Vec<usize>>,
}

impl Stamps {
    /// Each cell may be taken.
    pub fn new(alloc: Global, world: &World) -> Result<Stamps, NoMemory> {
        let mut moves = Vec::new(alloc);
        for _ in 0..world.classes.len() {
            moves.push(Vec::from_elem(alloc, 0, world.grid.cells)?)?;
        }
        Ok(Stamps { moves })
    }

    /// The moves of a class's cells.
    pub fn of(&self, class: usize) -> &[usize] {
        match self.moves.get(class) {
            Some(moves) => moves.as_slice(),
            None => &[],
        }
    }

    /// A class doesn't take the cell again until a move.
    pub fn set(&mut self, class: usize, cell: usize, until: usize) {
        if let Some(moves) = self.moves.get_mut(class) {
            if let Some(stamp) = moves.get_mut(cell) {
                *stamp = until;
            }
        }
    }
}
