//! Laws of the words of a call: which lists of words are accepted, said in their own terms.
//!
//! Each function below does nothing: its contract is the law, and its proof is the law's.

ghost use Rattle.std.specs.Prelude.{◌≡◌, ℕ, List, Some, flat_map};
ghost use Rattle.input_defs.specs.Words.{Request, request};
ghost use Rattle.input_laws.specs.word_laws.Items.{Item, IsListed, MadeOfItems, words_of};

/// Accepted words are made of listed items.
pub fn accepted_words_are_listed_items()
    ensures { (words : List (List ℕ)) (r : Request) → request words ≡ Some r → MadeOfItems words r }
{}

/// Listed items are accepted, in any order and in either spelling.
pub fn listed_items_are_accepted()
    ensures { (items : List Item) (r : Request) → IsListed items r → request (flat_map words_of items) ≡ Some r }
{}
