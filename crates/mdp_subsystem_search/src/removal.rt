ghost use Rattle.std.specs.Prelude.{◌≡◌, ◌<◌, length, IfOk, All};
ghost use Rattle.mdp_spec.specs.Mdp.{states_of};
ghost use Rattle.mdp_subsystem_search.specs.Kept.{IsFound};

use crate::floats::float_of;
use crate::found::Found;
use crate::order::{Weighed, light_states, order_of, states_in};
use crate::query::Query;
use crate::room::Room;
use mdp_num::Memory;
use mdp_refinement::item_at;
use mdp_rows::Marks;
use std::alloc::{AllocError, Global};

/// How many entries attempts to take out states look at in all: so many, and each of the model's so often.
const REMOVAL_ENTRIES: u64 = 2_097_152;

const REMOVAL_PASSES: u64 = 10;

/// The most attempts.
const MOST_ATTEMPTS: u32 = 1_000_000;

/// How often as many states as may go by their weights are taken out at once.
const LIGHT_ROUNDS: u32 = 60;

/// Up to what part of what the lower value of the start is over the threshold they weigh together at first. Where they go that was too little: states
/// on one way lose the goals the same. Where they have to stay it was too much.
const FIRST_PART: f64 = 0.99;

const LEAST_PART: f64 = 0.01;

const GROWTH: f64 = 1.5;

const FALL: f64 = 0.3;

/// How many digits more than the threshold takes to differ from 0 the bounds of what is left have at the end, fewest first.
const END_DIGITS: [u32; 3] = [4, 6, 9];

/// A copy of marks.
pub(crate) fn copied(alloc: Global, states: u32, marks: &Marks) -> Result<Marks, AllocError>
    requires { length marks.now ≡ states }
    ensures { IfOk result (λ copy. copy ≡ marks.now) }
{
    let mut items = Vec::with_capacity(alloc, states as usize)?;
    for s in 0..states {
        items.push(marks.at(s))?;
    }
    Ok(Marks::from_values(items))
}

/// The marks without those of some states.
fn cleared(alloc: Global, states: u32, marks: &Marks, piece: &[u32]) -> Result<Marks, AllocError>
    requires { length marks.now ≡ states }
    ensures { IfOk result (λ fewer. length fewer ≡ states) }
{
    let mut fewer = copied(alloc, states, marks)?;
    for s in piece {
        if *s < states {
            fewer.set(*s, false);
        }
    }
    Ok(fewer)
}

/// Puts the two halves of a piece on the stack, the first one above. A piece of one state is left out.
fn push_halves(pieces: &mut Vec<Vec<u32>>, mut piece: Vec<u32>) -> Result<(), AllocError> {
    if piece.len() < 2 {
        return Ok(());
    }
    let second = piece.split_off(piece.len() / 2)?;
    pieces.push(second)?;
    pieces.push(piece)?;
    Ok(())
}

impl Query<'_, '_> {
    ghost use Rattle.mdp_subsystem_search.specs.Asked.{for_query};

    /// Takes out a piece, where what is left still comes to the threshold. Whether it does.
    fn take_out(
        &self,
        alloc: Global,
        found: &mut Found,
        piece: &[u32],
        room: &mut Room,
    ) -> Result<bool, Memory>
        requires { for_query self.now IsFound found.old }
        ensures { IfOk result (λ _. for_query self.now IsFound found.new) }
    {
        let fewer = cleared(alloc, self.model.states(), &found.kept, piece)?;
        match self.attempt(alloc, &fewer, self.attempt_digits(), room)? {
            Some(cert) => {
                *found = Found { kept: fewer, cert };
                Ok(true)
            }
            None => Ok(false),
        }
    }

    /// What is left when pieces are taken out one after the other, each by halves where it has to stay.
    fn without_pieces(
        &self,
        alloc: Global,
        found: Found,
        mut pieces: Vec<Vec<u32>>,
        room: &mut Room,
    ) -> Result<Found, Memory>
        requires { for_query self.now IsFound found }
        ensures { IfOk result (for_query self.now IsFound) }
    {
        let mut left = found;
        for _ in 0..MOST_ATTEMPTS {
            let Some(piece) = pieces.pop() else {
                return Ok(left);
            };
            if room.is_spent() {
                return Ok(left);
            }
            if !self.take_out(alloc, &mut left, &piece, room)? {
                push_halves(&mut pieces, piece)?;
            }
        }
        Ok(left)
    }

    /// The same kept states with bounds of fewer digits, where the search proposes such.
    fn shortened(&self, alloc: Global, found: Found) -> Result<Found, Memory>
        requires { for_query self.now IsFound found }
        ensures { IfOk result (for_query self.now IsFound) }
    {
        let Found { kept, cert } = found;
        let mut room = Room::none();
        for digits in END_DIGITS {
            if let Some(short) = self.attempt(alloc, &kept, self.digits_more(digits), &mut room)? {
                return Ok(Found { kept, cert: short });
            }
        }
        Ok(Found { kept, cert })
    }

    /// The kept states in the order in which they are tried.
    fn order(&self, alloc: Global, found: &Found) -> Result<Vec<Weighed>, AllocError>
        requires { for_query self.now IsFound found.now }
    {
        order_of(
            alloc,
            self.model,
            self.goals,
            self.start,
            self.dir,
            &found.kept,
            &found.cert,
        )
    }

    /// What the lower value of the start is over the threshold, nearly.
    fn spare(&self, found: &Found) -> f64 {
        let lower = item_at(&found.cert.lower, self.start as usize, self.threshold);
        float_of(&lower) - float_of(&self.threshold)
    }

    /// Takes out the states that the start doesn't lead to, and as many as weigh no more than a part of what the lower value is over the threshold.
    /// Whether there are such, and what is left still comes to the threshold.
    fn take_light(
        &self,
        alloc: Global,
        found: &mut Found,
        part: f64,
        room: &mut Room,
    ) -> Result<bool, Memory>
        requires { for_query self.now IsFound found.old }
        ensures { IfOk result (λ _. for_query self.now IsFound found.new) }
    {
        let order = self.order(alloc, found)?;
        let light = light_states(alloc, &order, part * self.spare(found))?;
        if light.is_empty() {
            return Ok(false);
        }
        self.take_out(alloc, found, &light, room)
    }

    /// What is left when light states are taken out again and again: first those alone that the start doesn't lead to.
    fn without_light(&self, alloc: Global, found: Found, room: &mut Room) -> Result<Found, Memory>
        requires { for_query self.now IsFound found }
        ensures { IfOk result (for_query self.now IsFound) }
    {
        let mut left = found;
        self.take_light(alloc, &mut left, -1.0, room)?;
        let mut part = FIRST_PART;
        for _ in 0..LIGHT_ROUNDS {
            let is_out = self.take_light(alloc, &mut left, part, room)?;
            part *= if is_out { GROWTH } else { FALL };
            if part < LEAST_PART || room.is_spent() {
                return Ok(left);
            }
        }
        Ok(left)
    }

    /// What is left when states are taken out: first those that the start doesn't lead to, and those that weigh little; then by halves.
    pub(crate) fn removed(&self, alloc: Global, found: Found) -> Result<Found, Memory>
        requires { for_query self.now IsFound found }
        ensures { IfOk result (for_query self.now IsFound) }
    {
        let mut room = Room::of(self.model, REMOVAL_ENTRIES, REMOVAL_PASSES);
        let near = self.without_light(alloc, found, &mut room)?;
        let order = self.order(alloc, &near)?;
        let mut pieces = Vec::new(alloc);
        push_halves(&mut pieces, states_in(alloc, &order)?)?;
        let left = self.without_pieces(alloc, near, pieces, &mut room)?;
        self.shortened(alloc, left)
    }
}
