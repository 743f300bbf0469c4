//! The front of a label's exceptions, as one pass goes over those of several labels.
ghost use Rattle.std.specs.Prelude.{◌≡◌, IfSome, option_map};
ghost use Rattle.histar_label.specs.Front.{after, earlier, first_category, level_at, lower, lowest};

use crate::{Category, Level};

/// The levels of two labels at the lowest category that has an exception in one of them, and the exceptions
/// after it.
#[derive(Clone, Copy)]
pub struct Met<'a, 'b> {
    pub category: Category,
    pub first: Level,
    pub second: Level,
    pub first_left: &'a [(Category, Level)],
    pub second_left: &'b [(Category, Level)],
}

/// Finds the lowest category that has an exception in one of two rising lists, with its levels.
#[inline]
pub fn meet<'a, 'b>(
    first: &'a [(Category, Level)],
    second: &'b [(Category, Level)],
    first_default: Level,
    second_default: Level,
) -> Option<Met<'a, 'b>>
    ensures category { option_map (λ m. m.category) result ≡ lower first.now second.now }
    ensures first { IfSome result (λ m. m.first ≡ level_at first.now m.category first_default) }
    ensures second { IfSome result (λ m. m.second ≡ level_at second.now m.category second_default) }
    ensures first_left { IfSome result (λ m. m.first_left.now ≡ after first.now m.category) }
    ensures second_left { IfSome result (λ m. m.second_left.now ≡ after second.now m.category) }
{
    let (category, first_level, first_left, second_level, second_left) = match (first, second) {
        ([], []) => return None,
        ([(c, level), left @ ..], [(d, other), other_left @ ..]) if *c == *d => {
            (*c, *level, left, *other, other_left)
        }
        ([(c, level), left @ ..], [(d, _), ..]) if *c < *d => {
            (*c, *level, left, second_default, second)
        }
        ([(c, level), left @ ..], []) => (*c, *level, left, second_default, second),
        (_, [(d, other), other_left @ ..]) => (*d, first_default, first, *other, other_left),
    };
    Some(Met {
        category,
        first: first_level,
        second: second_level,
        first_left,
        second_left,
    })
}

/// The levels of three labels at the lowest category that has an exception in one of them, and the exceptions
/// after it: of the first label, and of the two others.
#[derive(Clone, Copy)]
pub struct MetByThree<'a, 'b, 'c> {
    pub first: Level,
    pub first_left: &'a [(Category, Level)],
    pub others: Met<'b, 'c>,
}

/// Finds the lowest category that has an exception in one of three rising lists, with its levels.
#[inline]
pub fn meet_three<'a, 'b, 'c>(
    first: &'a [(Category, Level)],
    second: &'b [(Category, Level)],
    third: &'c [(Category, Level)],
    defaults: (Level, Level, Level),
) -> Option<MetByThree<'a, 'b, 'c>>
    ensures category { option_map (λ m. m.others.category) result ≡ lowest first.now second.now third.now }
    ensures first { IfSome result (λ m. m.first ≡ level_at first.now m.others.category defaults.0) }
    ensures second { IfSome result (λ m. m.others.first ≡ level_at second.now m.others.category defaults.1) }
    ensures third { IfSome result (λ m. m.others.second ≡ level_at third.now m.others.category defaults.2) }
    ensures first_left { IfSome result (λ m. m.first_left.now ≡ after first.now m.others.category) }
    ensures second_left { IfSome result (λ m. m.others.first_left.now ≡ after second.now m.others.category) }
    ensures third_left { IfSome result (λ m. m.others.second_left.now ≡ after third.now m.others.category) }
{
    let (level, left, others) = match (first, meet(second, third, defaults.1, defaults.2)) {
        ([], None) => return None,
        ([], Some(met)) => (defaults.0, first, met),
        ([(c, level), left @ ..], Some(met)) if *c == met.category => (*level, left, met),
        ([(c, _), ..], Some(met)) if met.category < *c => (defaults.0, first, met),
        ([(c, level), left @ ..], _) => {
            let met = Met {
                category: *c,
                first: defaults.1,
                second: defaults.2,
                first_left: second,
                second_left: third,
            };
            (*level, left, met)
        }
    };
    Some(MetByThree {
        first: level,
        first_left: left,
        others,
    })
}

/// Returns the lowest category that has an exception in one of three rising lists.
pub fn lowest(
    first: &[(Category, Level)],
    second: &[(Category, Level)],
    third: &[(Category, Level)],
) -> Option<Category>
    ensures { result ≡ lowest first.now second.now third.now }
{
    earlier(first_category(first), lower(second, third))
}

/// Returns the lowest category that has an exception in one of two rising lists.
pub fn lower(first: &[(Category, Level)], second: &[(Category, Level)]) -> Option<Category>
    ensures { result ≡ lower first.now second.now }
{
    earlier(first_category(first), first_category(second))
}

// Returns the category of the first exception.
fn first_category(exceptions: &[(Category, Level)]) -> Option<Category>
    ensures { result ≡ first_category exceptions.now }
{
    match exceptions {
        [(category, _), ..] => Some(*category),
        [] => None,
    }
}

// Returns the lower of two categories, or the one that is there.
fn earlier(first: Option<Category>, second: Option<Category>) -> Option<Category>
    ensures { result ≡ earlier first second }
{
    match (first, second) {
        (Some(first), Some(second)) => Some(if first < second { first } else { second }),
        (Some(first), None) => Some(first),
        (None, second) => second,
    }
}

/// Returns the level of a category that no exception comes before.
pub fn level_at(exceptions: &[(Category, Level)], category: Category, default: Level) -> Level
    ensures { result ≡ level_at exceptions.now category default }
{
    match exceptions {
        [(first, level), ..] if *first == category => *level,
        _ => default,
    }
}

/// Returns the exceptions after a category that no exception comes before.
pub fn after(exceptions: &[(Category, Level)], category: Category) -> &[(Category, Level)]
    ensures { result.now ≡ after exceptions.now category }
{
    match exceptions {
        [(first, _), rest @ ..] if *first == category => rest,
        _ => exceptions,
    }
}
