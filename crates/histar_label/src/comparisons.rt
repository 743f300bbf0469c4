//! Comparisons of labels that a store remembers.
ghost use Rattle.std.specs.Prelude.{◌≡◌, ◌<◌, IfSome, length};
ghost use Rattle.histar_label.specs.Levels.{is_within};
ghost use Rattle.histar_label.specs.InternStore.{answer_of, test_of};

use crate::Label;
use crate::intern_store::{AT_HAND, FEW_EXCEPTIONS, InternId};
use crate::levels::{Raising, Test};
use indexmap::IndexSet;

/// An odd number whose multiples spread over all places: 2^64 by the golden ratio.
const SPREAD: usize = 0x9e37_79b9_7f4a_7c15;

/// What is asked of three labels.
#[derive(Clone, Copy, Debug, PartialEq, Eq, Hash)]
pub(crate) enum Question {
    /// Whether at no category the first is above both others.
    Plain,
    /// The same, where star in the last is read as J.
    Raised,
    /// Whether at no category the floor of the first and the last is above the second.
    Floor,
}

impl Question {
    // Returns the test that the levels have to pass at every category.
    fn test(self) -> Test
        ensures { result ≡ test_of self }
    {
        match self {
            Question::Plain => Test::BelowJoin(Raising::Plain),
            Question::Raised => Test::BelowJoin(Raising::Raised),
            Question::Floor => Test::FloorBelow,
        }
    }

    // Answers the question of a label and of another one, which is asked for twice.
    #[inline(always)]
    fn of_two(self, own: &Label, other: &Label) -> bool
        ensures { result ≡ is_within own.now other.now other.now (test_of self) }
    {
        match self {
            Question::Plain => own.below(other),
            Question::Raised => own.below_raised(other),
            Question::Floor => own.within(other, other, Test::FloorBelow),
        }
    }
}

/// A comparison of three labels, in this order. In a comparison of two labels the last one is there twice.
#[derive(Clone, Copy, Debug, PartialEq, Eq, Hash)]
pub(crate) struct Comparison {
    pub(crate) question: Question,
    pub(crate) own: InternId,
    pub(crate) first: InternId,
    pub(crate) second: InternId,
}

impl Comparison {
    /// Makes a comparison of two labels.
    pub(crate) fn of_two(question: Question, lower: InternId, upper: InternId) -> Comparison
        ensures { result ≡ record { question = question; own = lower; first = upper; second = upper } }
    {
        Comparison {
            question,
            own: lower,
            first: upper,
            second: upper,
        }
    }

    /// Returns the place at hand of its answer. Another comparison may have the same place.
    pub(crate) fn place(self) -> usize {
        let labels = self.own.0.wrapping_mul(SPREAD).wrapping_add(self.first.0);
        let spread = labels.wrapping_mul(SPREAD).wrapping_add(self.second.0);
        (spread.wrapping_mul(SPREAD) / (usize::MAX / AT_HAND + 1)) ^ (self.question as usize)
    }

    /// Compares the labels.
    pub(crate) fn answer(self, labels: &IndexSet<Label>) -> bool
        requires own { self.own < length labels.now.keys }
        requires first { self.first < length labels.now.keys }
        requires second { self.second < length labels.now.keys }
        ensures { result ≡ answer_of labels.now.keys self }
    {
        let own = labels.get_index(self.own.0).unwrap();
        let first = labels.get_index(self.first.0).unwrap();
        if self.first == self.second {
            return self.question.of_two(own, first);
        }
        let second = labels.get_index(self.second.0).unwrap();
        own.within(first, second, self.question.test())
    }

    /// Compares labels if the first two have few exceptions: that takes less time than looking up a remembered
    /// answer.
    #[inline(always)]
    pub(crate) fn quick_answer(&self, labels: &IndexSet<Label>) -> Option<bool>
        requires own { self.now.own < length labels.now.keys }
        requires first { self.now.first < length labels.now.keys }
        requires second { self.now.second < length labels.now.keys }
        ensures { IfSome result (λ answer. answer ≡ answer_of labels.now.keys self.now) }
    {
        let own = labels.get_index(self.own.0).unwrap();
        let first = labels.get_index(self.first.0).unwrap();
        if own.exceptions().len() + first.exceptions().len() > FEW_EXCEPTIONS {
            return None;
        }
        if self.first == self.second {
            return Some(self.question.of_two(own, first));
        }
        let second = labels.get_index(self.second.0).unwrap();
        Some(own.within(first, second, self.question.test()))
    }
}
