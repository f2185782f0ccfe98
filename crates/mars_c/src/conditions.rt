//! Conditions of searches as numbers.
ghost use Rattle.std.specs.Prelude.{◌≡◌, ◌≢◌, IfErr, IfNone, IfOk, IfSome, map};
ghost use Rattle.mars_core.specs.declared.search.Condition.{Condition as ConditionValue};
ghost use Rattle.mars_core.specs.declared.search.Number.{Number as NumberValue};
ghost use Rattle.mars_core.specs.declared.search.Way.{Way as WayValue};
ghost use Rattle.mars_c.specs.Following.{IsNoCondition, number_index, plain_condition, way_index};

use crate::faults::BlockRefusal;
use mars_core::{Condition, Number, Way};
use std::alloc::Global;

/// A condition of a search on a number of a turn, or of a cell that the turn uses. The number must be from `first` to
/// `last`, or, if `last` is less than `first`, at least `first` or at most `last`.
#[repr(C)]
#[derive(Clone, Copy)]
pub struct MarsCondition {
    /// Way in which the turn uses the cell: 1 executes, 2 changes, 3 reads.
    pub way: u32,
    /// Number that the condition is about, 1 to 9.
    pub number: u32,
    pub first: u32,
    pub last: u32,
}

/// Returns the way with this number, or `None` if there is none.
fn way_of(number: u32) -> Option<Way>
    ensures some { IfSome result (λ way. way_index way ≡ number) }
    ensures none { IfNone result ((way : WayValue) → way_index way ≢ number) }
{
    match number {
        1 => Some(Way::Executes),
        2 => Some(Way::Changes),
        3 => Some(Way::Reads),
        _ => None,
    }
}

/// Returns the number of a turn or a cell that a condition with this `number` is about, or `None` if there is none.
fn number_of(number: u32) -> Option<Number>
    ensures some { IfSome result (λ kind. number_index kind ≡ number) }
    ensures none { IfNone result ((kind : NumberValue) → number_index kind ≢ number) }
{
    match number {
        1 => Some(Number::Warrior),
        2 => Some(Number::Queued),
        3 => Some(Number::Died),
        4 => Some(Number::Address),
        5 => Some(Number::Owner),
        6 => Some(Number::Turn),
        7 => Some(Number::Origin),
        8 => Some(Number::Opcode),
        9 => Some(Number::NewOpcode),
        _ => None,
    }
}

/// Returns the condition that the numbers mean, or `None` if they mean none.
fn condition_of(numbers: &MarsCondition) -> Option<Condition>
    ensures some { IfSome result (λ condition. plain_condition condition ≡ numbers.now) }
    ensures none { IfNone result ((condition : ConditionValue) → plain_condition condition ≢ numbers.now) }
{
    Some(Condition {
        way: way_of(numbers.way)?,
        number: number_of(numbers.number)?,
        first: numbers.first,
        last: numbers.last,
    })
}

/// Returns the conditions that the numbers mean.
///
/// # Errors
///
/// - `Condition` with the index of the first numbers that mean no condition
/// - `OutOfMemory` if an allocation fails
pub fn conditions_of(
    alloc: Global,
    numbers: &[MarsCondition],
) -> Result<Vec<Condition>, BlockRefusal>
    ensures conditions { IfOk result (λ conditions. map plain_condition conditions.items ≡ numbers.now) }
    ensures refused { IfErr result (IsNoCondition numbers.now) }
{
    let mut conditions = Vec::new(alloc);
    for i in 0..numbers.len() {
        let Some(condition) = condition_of(&numbers[i]) else {
            return Err(BlockRefusal::Condition(i));
        };
        if conditions.push(condition).is_err() {
            return Err(BlockRefusal::OutOfMemory);
        }
    }
    Ok(conditions)
}
