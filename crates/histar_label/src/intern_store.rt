//! A store that keeps each label once, and remembers answers of comparisons.
ghost use Rattle.std.specs.Prelude.{◌≡◌, ◌<◌, ◌⊎◌, ◌&&◌, if◌then◌else◌, nat_lt, ℕ, Bool, Some, IfOk, IfSome, OnErr};
ghost use Rattle.std.specs.NonZero.{non_zero_usize_get};
ghost use Rattle.std.specs.Prelude.{◌≤◌, [], length, slice_get, slice_set, Contains, IsSome, Ok, None, All};
ghost use Rattle.std.specs.Option.{option_copied};
ghost use Rattle.histar_label.specs.Store.{Keeps, HasOneId};
ghost use Rattle.histar_label.specs.InternStore.{answer_of};
ghost use Rattle.histar_label.specs.declared.comparisons.Comparison.{Comparison};

use crate::comparisons::{Comparison, Question};
use crate::{Label, LabelStore, OutOfMemory};
use histar_heap::Heap;
use indexmap::IndexSet;
use lru::LruCache;
use std::marker::Model;
use std::num::NonZeroUsize;

/// The Id of a label in an [`InternStore`]: the number of labels that were put before it.
#[derive(Clone, Copy, Debug, PartialEq, Eq, Hash)]
pub struct InternId(pub(crate) usize);

impl Model for InternId {
    ghost use Rattle.std.specs.Prelude.{ℕ};

    ghost Value = { ℕ };

    ghost view = { λ id. id.0 };

    ghost inverse = { λ n. record { 0 = n } };
}

/// The number of answers that have a place at hand: a power of two.
pub(crate) const AT_HAND: usize = 4_096;

/// The greatest number of answers that are remembered beside those at hand.
pub const MOST_ANSWERS: usize = 1_048_576;

/// The number of labels that have a place at hand.
const LABELS_AT_HAND: usize = 1_024;

/// The greatest number of exceptions of two labels together with which a comparison takes less time than
/// looking up its answer.
pub(crate) const FEW_EXCEPTIONS: usize = 12;

/// Keeps each label once, so that equal labels have one Id, and remembers the answers of the latest
/// comparisons of labels. It forgets no label, so it grows with each new one; its weight says when to
/// move to a new store.
///
/// Each comparison has a place at hand for its answer, which it shares with others, and the latest answer is
/// there. Next, for labels with many exceptions, the store looks among the remembered answers.
///
/// Putting a label that is already there needs no memory. A comparison that finds no memory to keep its
/// answer still answers, and is made anew the next time.
#[derive(Debug, Drop)]
pub struct InternStore {
    labels: IndexSet<Label>,
    // The number of exceptions of the labels that have many.
    weight: usize,
    answers: LruCache<Comparison, bool>,
    at_hand: Vec<Option<(Comparison, bool)>>,
    // The places of labels that were put, each at the place at hand of the label.
    labels_at_hand: Vec<usize>,
}

impl Model for InternStore {
    ghost use Rattle.std.specs.Prelude.{List};
    ghost use Rattle.std.specs.Coded.{coded_list};
    ghost use Rattle.histar_level.specs.Levels.{Levels};
    ghost use Rattle.histar_label.specs.Levels.{coded_levels};
    ghost use Rattle.histar_label.specs.InternStore.{IsInterned};

    ghost Value = { List Levels };

    ghost coded = { coded_list coded_levels };

    ghost view = { λ s. s.labels.keys };

    ghost invariant = { λ s. IsInterned s.labels.keys s.answers.entries s.at_hand.items };
}

impl InternStore {
    /// Makes a store with no labels, which remembers at most `cache` answers beside those at hand, and at most
    /// `MOST_ANSWERS`.
    pub fn new<H: Heap>(heap: H, cache: usize) -> Result<InternStore, OutOfMemory>
        requires { 0 < cache }
        ensures ok { IfOk result (λ store. store ≡ []) }
        ensures memory { OnErr result H.Refused }
    {
        InternStore::with_cache(heap, NonZeroUsize::new(cache).unwrap())
    }

    // Makes the same store.
    fn with_cache<H: Heap>(heap: H, cache: NonZeroUsize) -> Result<InternStore, OutOfMemory>
        ensures ok { IfOk result (λ store. store ≡ []) }
        ensures memory { OnErr result H.Refused }
    {
        Ok(InternStore {
            labels: IndexSet::new(heap.alloc()),
            weight: 0,
            answers: heap.new_cache(cut(cache))?,
            at_hand: no_answers(heap)?,
            labels_at_hand: no_labels(heap)?,
        })
    }

    // Answers a comparison, from its place at hand if the answer is there. A label is below itself, however
    // star is read, and so below its join with any other.
    fn answer(&mut self, comparison: Comparison) -> bool
        requires own { comparison.own < length self.old }
        requires first { comparison.first < length self.old }
        requires second { comparison.second < length self.old }
        ensures answer { result ≡ answer_of self.old comparison }
        ensures unchanged { self.new ≡ self.old }
    {
        if comparison.own == comparison.first && comparison.question != Question::Floor {
            return true;
        }
        let place = comparison.place();
        match found_at(&self.at_hand, place, comparison) {
            Some(answer) => answer,
            None => self.answer_anew(place, &comparison),
        }
    }

    // Answers a comparison whose answer is not at hand, and keeps the answer at this place.
    // Not inlined, so that an answer at hand is found in few steps.
    #[inline(never)]
    fn answer_anew(&mut self, place: usize, comparison: &Comparison) -> bool
        requires own { comparison.now.own < length self.old }
        requires first { comparison.now.first < length self.old }
        requires second { comparison.now.second < length self.old }
        ensures answer { result ≡ answer_of self.old comparison.now }
        ensures unchanged { self.new ≡ self.old }
    {
        let answer = self.compare_or_recall(*comparison);
        keep_at(&mut self.at_hand, place, (*comparison, answer));
        answer
    }

    // Returns the Id of a label, if it is the one that was put last at its place at hand.
    fn found_at_hand(&self, label: &Label) -> Option<InternId>
        ensures { IfSome result (λ id. slice_get self.now id ≡ Some label.now) }
    {
        let id = InternId(*self.labels_at_hand.get(label.place_among(LABELS_AT_HAND))?);
        let kept = self.get(id)?;
        if kept == label { Some(id) } else { None }
    }

    // Looks a label up among all.
    // Not inlined, so that a label at hand is found in few steps.
    #[inline(never)]
    fn searched(&self, label: &Label) -> Option<InternId>
        ensures value { IfSome result (λ id. slice_get self.now id ≡ Some label.now) }
        ensures found { (id : ℕ) → slice_get self.now id ≡ Some label.now → IsSome result }
    {
        let place = self.labels.get_index_of(label)?;
        Some(InternId(place))
    }

    // Looks a label up among all, and keeps it at hand if it is there.
    // Not inlined, so that a label at hand is found in few steps.
    #[inline(never)]
    fn search_and_cache(&mut self, label: &Label) -> Option<InternId>
        ensures value { IfSome result (λ id. slice_get self.old id ≡ Some label.now) }
        ensures found { (id : ℕ) → slice_get self.old id ≡ Some label.now → IsSome result }
        ensures unchanged { self.new ≡ self.old }
    {
        let id = self.searched(label)?;
        let hand = label.place_among(LABELS_AT_HAND);
        set_at_hand(&mut self.labels_at_hand, hand, id.0);
        Some(id)
    }

    // Answers a comparison: compares anew where the labels have few exceptions, and otherwise looks up the
    // remembered answer, or compares anew and remembers the answer.
    fn compare_or_recall(&mut self, comparison: Comparison) -> bool
        requires own { comparison.own < length self.old }
        requires first { comparison.first < length self.old }
        requires second { comparison.second < length self.old }
        ensures answer { result ≡ answer_of self.old comparison }
        ensures unchanged { self.new ≡ self.old }
    {
        if let Some(quick) = comparison.quick_answer(&self.labels) {
            return quick;
        }
        if let Some(answer) = recall(&mut self.answers, comparison) {
            return answer;
        }
        let answer = comparison.answer(&self.labels);
        remember(&mut self.answers, comparison, answer);
        answer
    }
}

impl LabelStore for InternStore {
    type Id = InternId;

    ghost labels = { slice_get };

    /// Keeps a label, and returns its Id, which is the old one if the label was there.
    fn put<H: Heap>(&mut self, heap: H, label: Label) -> Result<InternId, OutOfMemory>
        ensures stands { IfOk result (λ id. slice_get self.new id ≡ Some label) }
        ensures keeps { Keeps (slice_get self.old) (slice_get self.new) }
        ensures unchanged { OnErr result (slice_get self.new ≡ slice_get self.old) }
        ensures one_id { HasOneId (slice_get self.new) }
        ensures known { (id : ℕ) → slice_get self.old id ≡ Some label → result ≡ Ok id }
        ensures memory { OnErr result H.Refused }
    {
        let exceptions = label.exceptions().len();
        let hand = label.place_among(LABELS_AT_HAND);
        let (place, is_new) = heap.insert_full(&mut self.labels, label)?;
        self.weight = self.weight.saturating_add(weight_of(exceptions, is_new));
        set_at_hand(&mut self.labels_at_hand, hand, place);
        Ok(InternId(place))
    }

    /// Returns the label of an Id. No other Id stands for an equal label.
    fn get(&self, id: InternId) -> Option<&Label>
        ensures label { option_copied result ≡ slice_get self.now id }
        ensures one_id { HasOneId (slice_get self.now) }
    {
        self.labels.get_index(id.0)
    }

    fn find(&self, label: &Label) -> Option<InternId> {
        match self.found_at_hand(label) {
            Some(id) => Some(id),
            None => self.searched(label),
        }
    }

    fn find_and_cache(&mut self, label: &Label) -> Option<InternId> {
        match self.found_at_hand(label) {
            Some(id) => Some(id),
            None => self.search_and_cache(label),
        }
    }

    fn emptied<H: Heap>(&self, heap: H) -> Result<InternStore, OutOfMemory> {
        InternStore::with_cache(heap, self.answers.cap())
    }

    fn weight(&self) -> usize {
        self.weight
    }

    fn below(&mut self, lower: InternId, upper: InternId) -> bool {
        self.answer(Comparison::of_two(Question::Plain, lower, upper))
    }

    fn below_raised(&mut self, lower: InternId, upper: InternId) -> bool {
        self.answer(Comparison::of_two(Question::Raised, lower, upper))
    }

    fn below_join(&mut self, lower: InternId, first: InternId, second: InternId) -> bool {
        self.answer(Comparison {
            question: Question::Plain,
            own: lower,
            first,
            second,
        })
    }

    fn below_join_raised(&mut self, lower: InternId, first: InternId, second: InternId) -> bool {
        self.answer(Comparison {
            question: Question::Raised,
            own: lower,
            first,
            second,
        })
    }

    fn floor_below(&mut self, first: InternId, second: InternId, upper: InternId) -> bool {
        self.answer(Comparison {
            question: Question::Floor,
            own: first,
            first: upper,
            second,
        })
    }
}

// Returns what a label with this number of exceptions adds to the weight of a store at a put: nothing if it
// was there, or if its exceptions are few.
fn weight_of(exceptions: usize, is_new: bool) -> usize
    ensures { result ≡ (if is_new && nat_lt FEW_EXCEPTIONS exceptions then exceptions else 0) }
{
    if is_new && FEW_EXCEPTIONS < exceptions {
        exceptions
    } else {
        0
    }
}

// Returns the number of answers to remember, where so many are wanted.
fn cut(cache: NonZeroUsize) -> NonZeroUsize
    ensures { non_zero_usize_get result ≤ MOST_ANSWERS }
{
    NonZeroUsize::new(cache.get().min(MOST_ANSWERS)).unwrap()
}

// Makes the places at hand, without answers.
fn no_answers<H: Heap>(heap: H) -> Result<Vec<Option<(Comparison, bool)>>, OutOfMemory>
    ensures ok { IfOk result (λ places. All (λ o. o ≡ None) places.items) }
    ensures memory { OnErr result H.Refused }
{
    let mut places = heap.with_room(AT_HAND)?;
    'places: for _ in 0..AT_HAND {
        heap.push(&mut places, None)?;
    }
    Ok(places)
}

// Makes the places at hand of labels: the first label is at each of them, if there is one.
fn no_labels<H: Heap>(heap: H) -> Result<Vec<usize>, OutOfMemory>
    ensures memory { OnErr result H.Refused }
{
    let mut places = heap.with_room(LABELS_AT_HAND)?;
    'places: for _ in 0..LABELS_AT_HAND {
        heap.push(&mut places, 0)?;
    }
    Ok(places)
}

// Notes the place of a label at its place at hand.
fn set_at_hand(places: &mut Vec<usize>, hand: usize, place: usize) {
    if let Some(latest) = places.get_mut(hand) {
        *latest = place;
    }
}

// Returns the answer in a place at hand, if it is that of the comparison.
fn found_at(
    places: &[Option<(Comparison, bool)>],
    place: usize,
    comparison: Comparison,
) -> Option<bool>
    ensures { IfSome result (λ answer. Contains places.now (Some (comparison, answer))) }
{
    match *places.get(place)? {
        Some((latest, answer)) if latest == comparison => Some(answer),
        _ => None,
    }
}

// Keeps an answer in a place at hand, and replaces the one there.
fn keep_at(places: &mut Vec<Option<(Comparison, bool)>>, place: usize, latest: (Comparison, bool))
    ensures { places.new.items ≡ slice_set places.old.items place (Some latest) }
{
    if place < places.len() {
        places[place] = Some(latest);
    }
}

// Returns the answer that was remembered for a comparison.
fn recall(answers: &mut LruCache<Comparison, bool>, comparison: Comparison) -> Option<bool>
    ensures found { IfSome result (λ answer. Contains answers.old.entries (comparison, answer)) }
    ensures kept { (e : Comparison × Bool) → Contains answers.new.entries e
        → Contains answers.old.entries e }
{
    answers.get(&comparison).copied()
}

// Remembers an answer, unless memory is short.
fn remember(answers: &mut LruCache<Comparison, bool>, comparison: Comparison, answer: bool)
    ensures { (e : Comparison × Bool) → Contains answers.new.entries e
        → Contains answers.old.entries e ⊎ (e ≡ (comparison, answer)) }
{
    let _ = answers.put(comparison, answer);
}
