//! Values moved into another order.

ghost use Rattle.std.specs.Prelude.{◌≡◌, ◌<◌, IfOk, IsPermutation, List, OnErr, OnOk, length, slice_index};
ghost use Rattle.std.specs.List.{swap};
ghost use Rattle.bundle_order_sort.specs.Arranged.{AreArranged, AreSwapped, IsArrangement, IsShuffled, IsStill};

use std::alloc::{AllocError, Global};

/// Puts the values into this order of their places, in which each place stands once. Refused only where memory
/// runs out, and then nothing moves.
pub fn arrange<T>(alloc: Global, values: &mut Vec<T>, order: &[usize]) -> Result<(), AllocError>
    ensures moved { OnOk result (IsPermutation values.old.items values.new.items) }
    ensures arranged { OnOk result
        (IsArrangement order.now (length values.old.items) →
        AreArranged order.now values.old.items values.new.items) }
    ensures stays { OnErr result (values.new.items ≡ values.old.items) }
{
    let shuffle = Shuffle::new(alloc, values.len())?;
    shuffle.arrange(values, order);
    Ok(())
}

/// Where things stand that were numbered by their places at first: the number of what stands at each place, and
/// the place of each number.
#[derive(Drop)]
pub struct Shuffle {
    numbers: Vec<usize>,
    places: Vec<usize>,
}

impl Shuffle {
    /// So many things, of which none has moved. Refused only where memory runs out.
    pub fn new(alloc: Global, count: usize) -> Result<Shuffle, AllocError>
        ensures { IfOk result (λ shuffle. IsStill shuffle count) }
    {
        let mut numbers = Vec::new(alloc);
        let mut places = Vec::new(alloc);
        for number in 0..count {
            numbers.push(number)?;
            places.push(number)?;
        }
        Ok(Shuffle { numbers, places })
    }

    /// Puts the values, as many as there are things, into this order of their places, in which each place stands
    /// once. It takes no memory.
    pub fn arrange<T>(self, values: &mut Vec<T>, order: &[usize])
        ensures moved { IsPermutation values.old.items values.new.items }
        ensures arranged { IsStill self (length values.old.items) →
            IsArrangement order.now (length values.old.items) →
            AreArranged order.now values.old.items values.new.items }
    {
        let mut shuffle = self;
        for (place, wanted) in order.iter().enumerate() {
            shuffle.bring(values, place, *wanted);
        }
    }

    // Brings to a place what was numbered so at first, and puts what stands there in its place.
    fn bring<T>(&mut self, values: &mut Vec<T>, place: usize, wanted: usize)
        ensures moved { IsPermutation values.old.items values.new.items }
        ensures shuffled { (first : List T) →
            IsShuffled self.old first values.old.items →
            place < length first →
            wanted < length first →
            IsShuffled self.new first values.new.items }
        ensures brought { (first : List T) →
            IsShuffled self.old first values.old.items →
            place < length first →
            wanted < length first →
            AreSwapped self.old.numbers.items self.new.numbers.items place
            (slice_index self.old.places.items wanted) }
    {
        if place < self.numbers.len() && wanted < self.places.len() {
            let found = self.places[wanted];
            let number = self.numbers[place];
            exchange(values, place, found);
            exchange(&mut self.numbers, place, found);
            exchange(&mut self.places, number, wanted);
        }
    }
}

// What stands at two places changes places; a place that is none stays alone.
fn exchange<T>(values: &mut Vec<T>, a: usize, b: usize)
    ensures moved { IsPermutation values.old.items values.new.items }
    ensures swapped { a < length values.old.items →
        b < length values.old.items →
        values.new.items ≡ swap values.old.items a b }
{
    if a < values.len() && b < values.len() {
        values.swap(a, b);
    }
}
