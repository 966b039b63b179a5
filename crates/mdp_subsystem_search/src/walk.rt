//! Which kept states the start leads to.

use mdp_refinement::{flag_at, number_at, put};
use mdp_rows::{Dir, Model};
use std::alloc::{AllocError, Global};

/// A state whose choices are followed up to one, and the row of that one up to a place.
#[derive(Clone, Copy)]
struct Frame {
    state: u32,
    choice: u32,
    last: u32,
    place: usize,
}

/// What comes next at a state: a target, the row of the next choice, or nothing more.
enum Next {
    Target(u32),
    Row,
    End,
}

impl Frame {
    /// The next target at its state.
    fn next(&self, model: &Model) -> Next {
        if self.state >= model.states() || self.choice > self.last {
            return Next::End;
        }
        if self.choice >= model.choices(self.state) {
            return Next::End;
        }
        let targets = model.row(self.state, self.choice).targets;
        if self.place < targets.len() {
            Next::Target(targets[self.place])
        } else {
            Next::Row
        }
    }

    /// Behind the next target.
    fn behind(self) -> Frame {
        Frame {
            place: self.place.saturating_add(1),
            ..self
        }
    }

    /// At the row of the next choice.
    fn at_next_row(self) -> Frame {
        Frame {
            choice: self.choice.saturating_add(1),
            place: 0,
            ..self
        }
    }
}

/// Which choices are followed, and which states may be passed.
#[derive(Clone, Copy)]
pub(crate) struct Ways<'a> {
    pub model: &'a Model,
    pub dir: Dir,
    pub policy: &'a [u32],
    pub may_pass: &'a [bool],
}

/// The states that were found, those whose targets are followed, and those that were left, in that order.
#[derive(Drop)]
struct Walk {
    is_found: Vec<bool>,
    frames: Vec<Frame>,
    left: Vec<u32>,
}

impl Ways<'_> {
    /// The first choice to be followed at a state: for the greatest probability the policy's one, for the least one each.
    fn frame_at(&self, s: u32) -> Frame {
        let (choice, last) = match self.dir {
            Dir::Max => (number_at(self.policy, s), number_at(self.policy, s)),
            Dir::Min => (0, u32::MAX),
        };
        Frame {
            state: s,
            choice,
            last,
            place: 0,
        }
    }

    /// Finds a state that may be passed.
    fn find(&self, walk: &mut Walk, s: u32) -> Result<(), AllocError> {
        if flag_at(self.may_pass, s) && !flag_at(&walk.is_found, s) {
            put(&mut walk.is_found, s, true);
            walk.frames.push(self.frame_at(s))?;
        }
        Ok(())
    }

    /// Follows the next target of a state, or leaves it.
    fn follow(&self, walk: &mut Walk, frame: Frame) -> Result<(), AllocError> {
        match frame.next(self.model) {
            Next::Target(t) => {
                walk.frames.push(frame.behind())?;
                self.find(walk, t)
            }
            Next::Row => {
                walk.frames.push(frame.at_next_row())?;
                Ok(())
            }
            Next::End => {
                walk.left.push(frame.state)?;
                Ok(())
            }
        }
    }

    /// The states that the start leads to by way of states that may be passed, each before those that it leads to, but for those on a way back.
    pub(crate) fn walk_from(&self, alloc: Global, start: u32) -> Result<Vec<u32>, AllocError> {
        let mut walk = Walk {
            is_found: vec![in alloc; false; self.model.states() as usize]?,
            frames: Vec::new(alloc),
            left: Vec::new(alloc),
        };
        self.find(&mut walk, start)?;
        for _ in 0..u64::MAX {
            let Some(frame) = walk.frames.pop() else {
                break;
            };
            self.follow(&mut walk, frame)?;
        }
        walk.left.reverse();
        Ok(walk.left)
    }
}
