//! The laws of calls, as contracts of functions that do nothing.

ghost use Rattle.qd_path.specs.Laws.{AllPuts, AsksFirst, AsksForOne, AsksForSome, ComesTogether, CutsByStripe, GrowsOn, NoneForeign};

use qd_scheme::Keyed;

/// Each text that may be read asks for a list of calls.
pub fn asks_for_some()
    ensures { AsksForSome }
{}

/// No text asks for two.
pub fn asks_for_one()
    ensures { AsksForOne }
{}

/// The calls of the lines judged so far are the first ones of those that the bytes taken ask for.
pub fn asks_first()
    ensures { AsksFirst }
{}

/// A line spells no item that is foreign to the current message, so each body line joins its group.
pub fn none_foreign()
    ensures { NoneForeign }
{}

/// A peer above puts items, and asks for nothing else.
pub fn all_puts()
    ensures { AllPuts }
{}

/// Each stripe is asked once at most for a group, with the items of its keys, in the order of the text.
pub fn cuts_by_stripe<T: Keyed>()
    ensures { CutsByStripe T.key_of }
{}

/// What the stripes are asked with for a group, put together again, is the items of the group, in order.
pub fn comes_together<T: Keyed>()
    ensures { ComesTogether T.key_of }
{}

/// What the lists gain in several runs of calls, one after the other, is what they gain by all these calls.
pub fn grows_on()
    ensures { GrowsOn }
{}
