//! The steps of a combination of policies.

use piles::Pile;
use std::alloc::{AllocError, Global};

/// What a step leaves.
#[derive(Clone, Copy)]
enum Step {
    Filters(usize),
    Register(usize),
    Both,
    Either,
}

/// A byte that is no step.
#[derive(Clone, Copy)]
struct UnknownStep;

impl TryFrom<u8> for Step {
    type Error = UnknownStep;

    fn try_from(byte: u8) -> Result<Step, UnknownStep> {
        match byte {
            0x00..=0x03 => Ok(Step::Filters(usize::from(byte))),
            0x10..=0x13 => Ok(Step::Register(usize::from(byte - 0x10))),
            0x20 => Ok(Step::Both),
            0x21 => Ok(Step::Either),
            _ => Err(UnknownStep),
        }
    }
}

/// Takes the two piles left last, the second from the top.
fn two(heap: Global, piles: &mut Vec<Pile>) -> Result<Option<(Box<Pile>, Box<Pile>)>, AllocError> {
    let Some(second) = piles.pop() else {
        return Ok(None);
    };
    let Some(first) = piles.pop() else {
        return Ok(None);
    };
    Ok(Some((Box::new(heap, first)?, Box::new(heap, second)?)))
}

/// What a step makes of the piles before it, none where there are too few.
fn made(heap: Global, step: Step, piles: &mut Vec<Pile>) -> Result<Option<Pile>, AllocError> {
    match step {
        Step::Filters(number) => Ok(Some(Pile::Filters(number))),
        Step::Register(number) => Ok(Some(Pile::Register(number))),
        Step::Both => Ok(two(heap, piles)?.map(|(first, second)| Pile::Both(first, second))),
        Step::Either => Ok(two(heap, piles)?.map(|(first, second)| Pile::Either(first, second))),
    }
}

/// The pile of 1 to 15 steps, none where they leave no pile, or more than one.
pub(crate) fn pile(heap: Global, steps: &[u8]) -> Result<Option<Pile>, AllocError> {
    if steps.len() > 15 {
        return Ok(None);
    }
    let mut piles = Vec::new(heap);
    for byte in steps {
        let Ok(step) = Step::try_from(*byte) else {
            return Ok(None);
        };
        let Some(pile) = made(heap, step, &mut piles)? else {
            return Ok(None);
        };
        piles.push(pile)?;
    }
    let last = piles.pop();
    if piles.is_empty() { Ok(last) } else { Ok(None) }
}
